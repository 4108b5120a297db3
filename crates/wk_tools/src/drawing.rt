//! The texts of generated pages.
ghost use Rattle.std.specs.Prelude.{◌≡◌, ◌<◌, ◌≤◌, ◌++◌, IfOk, OnOk, fold, string_bytes};
ghost use Rattle.wk_tool_rules.specs.Generator.{draw, field_text, fields, infobox_text, next_seed, note_text, page_drawn, page_name, with_field, with_number, with_text};

use std::alloc::Global;
use std::marker::Model;
use wk_memory::Memory;

/// A text that is drawn, and the number of the next draw.
#[derive(Drop)]
pub struct Drawing {
    text: String,
    seed: u32,
}

impl Model for Drawing {
    ghost use Rattle.std.specs.Prelude.{string_bytes};
    ghost use Rattle.wk_tool_rules.specs.Generator.{Drawn};

    ghost Value = { Drawn };

    ghost view = { λ d. record { text = string_bytes d.text; seed = d.seed } };
}

/// What a number becomes by a draw (Numerical Recipes, section 7.1, modulo 2^32). Takes no memory.
fn next_seed(seed: u32) -> u32
    ensures { result ≡ next_seed seed }
{
    ((u64::from(seed) * 1_664_525 + 1_013_904_223) % 4_294_967_296) as u32
}

/// The number that a draw of so many gives. Takes no memory.
fn draw(most: u32, seed: u32) -> u32
    requires { 0 < most }
    ensures value { result ≡ draw most seed }
    ensures below { result < most }
{
    (next_seed(seed) / 65_536) % most
}

impl Drawing {
    /// A drawing that begins with a text.
    fn new(text: String, seed: u32) -> Drawing
        ensures { result ≡ record { text = string_bytes text; seed = seed } }
    {
        Drawing { text, seed }
    }

    /// Appends a text.
    fn push(&mut self, part: &str) -> Result<(), Memory>
        ensures { OnOk result (self.new ≡ with_text part.now self.old) }
    {
        self.text.push_str(part)?;
        Ok(())
    }

    /// Appends a number that is drawn of so many, from `least` on.
    fn push_number(&mut self, least: u32, most: u32) -> Result<(), Memory>
        requires some { 0 < most }
        requires least { least ≤ 1 }
        ensures { OnOk result (self.new ≡ with_number least most self.old) }
    {
        let number = least + draw(most, self.seed);
        let digits = format!(in *self.text.allocator(); "{number}")?;
        self.text.push_str(&digits)?;
        self.seed = next_seed(self.seed);
        Ok(())
    }

    /// Appends the value of a field, where 1 is drawn of 0 and 1.
    fn push_field(&mut self, field: u32) -> Result<(), Memory>
        ensures { OnOk result (self.new ≡ with_field self.old field) }
    {
        let is_there = draw(2, self.seed) == 1;
        self.seed = next_seed(self.seed);
        if is_there {
            let name = format!(in *self.text.allocator(); "|f{field}=v")?;
            self.push(&name)?;
            return self.push_number(0, 100);
        }
        Ok(())
    }

    /// Appends the values of all fields.
    fn push_fields(&mut self) -> Result<(), Memory>
        ensures { OnOk result (self.new ≡ fold with_field self.old fields) }
    {
        'fields: for field in 1..12 {
            self.push_field(field)?;
        }
        Ok(())
    }

    /// The text, and the number of the next draw.
    pub fn into_parts(self) -> (String, u32)
        ensures { record { text = string_bytes result.0; seed = result.1 } ≡ self }
    {
        let Drawing { text, seed } = self;
        (text, seed)
    }
}

/// The name of the page with this number.
pub fn page_name(alloc: Global, page: u32) -> Result<String, Memory>
    ensures { IfOk result (λ name. string_bytes name ≡ page_name page) }
{
    Ok(format!(in alloc; "Page {page}")?)
}

/// The text of a page of so many, where the draws begin with this number: a box, a link to a page, a note and a category.
pub fn page_drawing(alloc: Global, pages: u32, page: u32, seed: u32) -> Result<Drawing, Memory>
    requires { 0 < pages }
    ensures { IfOk result (λ drawing. drawing ≡ page_drawn pages page seed) }
{
    let begin = format!(in alloc; "{{{{Infobox|name=Page {page}")?;
    let mut drawing = Drawing::new(begin, seed);
    drawing.push_fields()?;
    drawing.push("}} [[Page ")?;
    drawing.push_number(1, pages)?;
    drawing.push("]] {{Note|")?;
    drawing.push_number(0, 10)?;
    drawing.push("}}[[Category:C")?;
    drawing.push_number(0, 5)?;
    drawing.push("]]")?;
    Ok(drawing)
}

/// Appends what shows a field of the box where it isn't blank.
fn push_shown_field(text: &mut String, field: u32) -> Result<(), Memory>
    ensures { OnOk result (string_bytes text.new ≡ string_bytes text.old ++ field_text field) }
{
    let name = format!(in *text.allocator(); "f{field}")?;
    text.push_str("{{#if:{{{")?;
    text.push_str(&name)?;
    text.push_str("|}}}|; ")?;
    text.push_str(&name)?;
    text.push_str(": {{{")?;
    text.push_str(&name)?;
    text.push_str("}}}}}")?;
    Ok(())
}

/// The text of the template of the box.
pub fn infobox_text(alloc: Global) -> Result<String, Memory>
    ensures { IfOk result (λ text. string_bytes text ≡ infobox_text) }
{
    let mut text = String::from_str(alloc, INFOBOX_BEGIN)?;
    'fields: for field in 1..12 {
        push_shown_field(&mut text, field)?;
    }
    text.push_str("[[Category:Boxes]]</includeonly>")?;
    Ok(text)
}

/// The text of the template of the note.
pub fn note_text(alloc: Global) -> Result<String, Memory>
    ensures { IfOk result (λ text. string_bytes text ≡ note_text) }
{
    Ok(String::from_str(alloc, NOTE)?)
}

/// What the template of the box begins with.
const INFOBOX_BEGIN: &str =
    "<noinclude>{{Infobox|name=Example}}</noinclude><includeonly>'''{{{name|{{PAGENAME}}}}}'''";

/// The template of the note.
const NOTE: &str = "<includeonly>[[Category:Notes]]</includeonly>{{#if:{{{1|}}}|({{{1}}})}}";

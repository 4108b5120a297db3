//! What a template calls.
ghost use Rattle.std.specs.Prelude.{◌≡◌, List, IfOk, OnOk, Some, drop, length, option_map};
ghost use Rattle.wk_text_rules.specs.Marked.{trimmed_output};
ghost use Rattle.wk_text_rules.specs.Titles.{PageTitle};
ghost use Rattle.wk_tree_rules.specs.Tree.{Part};
ghost use Rattle.wk_tree_rules.specs.Trees.{Item};
ghost use Rattle.wk_view_rules.specs.Expand.{function_output, page_output, template_output};
ghost use Rattle.wk_view_rules.specs.Expansions.{Expansion, Output};
ghost use Rattle.wk_view_rules.specs.Frames.{Frame};
ghost use Rattle.wk_view_rules.specs.Words.{function_called};
ghost use Rattle.wk_view_rules.specs.declared.Func.TheVariants.{IfError};
ghost use Rattle.wk_expand.specs.Decisions.{decision_rest, Further};
ghost use Rattle.wk_expand.specs.Running.{IsSame, Keeps, Leads};
ghost use Rattle.wk_expand.specs.State.{IsFrame};

use crate::inclusion::Found;
use crate::seen::Seen;
use crate::state::{Expander, Stop};
use crate::trees::Trees;
use crate::words::{called_title, first_operand, is_blank_behind, variable_text};
use wk_bytes::Text;
use wk_frames::{made_or, trimmed_copy};
use wk_func::{Func, Word, find};
use wk_out::Out;
use wk_title::Title;

/// What is left to do for a template.
#[derive(Drop)]
pub enum Decision {
    /// Nothing: this is its output.
    Gives(Out),
    /// This operand of a function is the result.
    Operand(usize),
    /// Operand 3 where this first operand equals the second, else operand 4.
    Equality(Out),
    /// A `#switch` on this subject.
    Switch(Out),
    /// It calls no page, and is given as it is written.
    Written,
    /// In the place of the first title, the text that stands under the second one.
    Includes(Title, Title, Text),
    /// The first title redirects to the second.
    Redirects(Title, Title),
}

/// Operand 2 where the first operand shows an error, else operand 3, or the first where there is no third.
fn if_error(first: Out, count: usize) -> Decision
    ensures further { Further result }
    ensures rest { (inner : Frame → List Item → Expansion Output) (viewed : PageTitle) (frame : Frame)
        (name : Output) (parts : List Part) → length parts ≡ count
        → function_output inner viewed frame IfError first parts
        ≡ decision_rest inner viewed frame name parts result }
{
    if first.has_error() {
        Decision::Operand(2)
    } else if count < 2 {
        Decision::Gives(first)
    } else {
        Decision::Operand(3)
    }
}

impl Expander {
    /// What is to be done for a function that a trimmed title part calls, with so many further parts. The first operand
    /// stands behind the place.
    fn function(
        &mut self,
        seen: &Seen,
        func: Func,
        title: &Out,
        place: usize,
        count: usize,
    ) -> Result<Decision, Stop>
        requires { option_map (λ called. called.1) (function_called title.now) ≡ Some place }
        ensures same { OnOk result (IsSame self.old self.new) }
        ensures keeps { Keeps result self.old self.new }
        ensures further { IfOk result Further }
        ensures leads { (inner : Frame → List Item → Expansion Output) (viewed : PageTitle) (frame : Frame)
            (name : Output) (parts : List Part) → length parts ≡ count
            → Leads seen.now
            (function_output inner viewed frame func (trimmed_output (drop place title.now)) parts) self.old
            (decision_rest inner viewed frame name parts) result self.new }
    {
        match func {
            Func::If => {
                if is_blank_behind(title, place) {
                    return Ok(Decision::Operand(3));
                }
                Ok(Decision::Operand(2))
            }
            Func::IfEq => {
                let first = first_operand(self.alloc, title, place)?;
                Ok(Decision::Equality(first))
            }
            Func::IfExist => {
                let first = first_operand(self.alloc, title, place)?;
                if self.exists(seen, &first)? {
                    return Ok(Decision::Operand(2));
                }
                Ok(Decision::Operand(3))
            }
            Func::IfError => {
                let first = first_operand(self.alloc, title, place)?;
                Ok(if_error(first, count))
            }
            Func::Switch => {
                let first = first_operand(self.alloc, title, place)?;
                Ok(Decision::Switch(first))
            }
        }
    }

    /// What is to be done for a template whose trimmed title part calls no variable and no function.
    fn called(&mut self, seen: &Seen, trees: &mut Trees, title: &Out) -> Result<Decision, Stop>
        ensures same { OnOk result (IsSame self.old self.new) }
        ensures keeps { Keeps result self.old self.new }
        ensures further { IfOk result Further }
        ensures leads { (viewed : PageTitle) (frame : Frame) → IsFrame self.old viewed frame
            → (inner : Frame → List Item → Expansion Output) (name : Output) (parts : List Part)
            → title.now ≡ trimmed_output name
            → Leads seen.now (page_output inner viewed frame name parts) self.old
            (decision_rest inner viewed frame name parts) result self.new }
    {
        let Some(title) = called_title(self.alloc, trees, title)? else {
            return Ok(Decision::Written);
        };
        match self.inclusion(seen, &title)? {
            Found::Gives(out) => Ok(Decision::Gives(out)),
            Found::Includes(source, text) => Ok(Decision::Includes(title, source, text)),
            Found::Redirects(target) => Ok(Decision::Redirects(title, target)),
        }
    }

    /// What is to be done for a template with so many further parts, whose title part gives this name.
    pub fn decide(
        &mut self,
        seen: &Seen,
        trees: &mut Trees,
        name: &Out,
        count: usize,
    ) -> Result<Decision, Stop>
        ensures same { OnOk result (IsSame self.old self.new) }
        ensures keeps { Keeps result self.old self.new }
        ensures further { IfOk result Further }
        ensures leads { (viewed : PageTitle) (frame : Frame) → IsFrame self.old viewed frame
            → (inner : Frame → List Item → Expansion Output) (parts : List Part) → length parts ≡ count
            → Leads seen.now (template_output inner viewed frame name.now parts) self.old
            (decision_rest inner viewed frame name.now parts) result self.new }
    {
        let made = trimmed_copy(self.alloc, name)?;
        let title = made_or(&made, name);
        match find(title, count == 0) {
            Word::Variable(variable) => {
                let text = variable_text(self.alloc, &self.page, variable)?;
                Ok(Decision::Gives(text))
            }
            Word::Function(func, place) => self.function(seen, func, title, place, count),
            Word::Page => self.called(seen, trees, title),
        }
    }
}

//! What the title part of a template says.
ghost use Rattle.std.specs.Prelude.{◌≡◌, ◌<◌, ◌≤◌, ◌-◌, ◌++◌, ◌==◌, get_or, length, if◌then◌else◌, IfOk, OnOk, Some, drop, option_and_then, option_map, pos, string_bytes, true};
ghost use Rattle.wk_out.specs.Runs.{marked};
ghost use Rattle.wk_text_rules.specs.Marked.{all_plain, is_blank_output, plain_text_of, trimmed_output};
ghost use Rattle.wk_text_rules.specs.Titles.{is_namespace, normal, with_spaces};
ghost use Rattle.wk_view_rules.specs.Expand.{tested_title};
ghost use Rattle.wk_view_rules.specs.Texts.{variable_text};
ghost use Rattle.wk_view_rules.specs.Words.{function_called};

use crate::texts::plain;
use crate::trees::Trees;
use std::alloc::Global;
use wk_bytes::is_blank;
use wk_frames::trimmed;
use wk_memory::Memory;
use wk_out::Out;
use wk_title::{Title, TitleRefusal, namespace_name, normalize, shown};
use wk_view_rules::Var;

fn with_space(c: char) -> char
    ensures { result ≡ (if c == 95 then 32 else c) }
{
    if c == '_' { ' ' } else { c }
}

/// A key with a space for each underscore.
fn spaced(alloc: Global, key: &str) -> Result<String, Memory>
    ensures { IfOk result (λ text. string_bytes text ≡ with_spaces key.now) }
{
    let mut text = String::new(alloc);
    for c in key.chars() {
        text.push(with_space(c))?;
    }
    Ok(text)
}

/// The text of a variable on the viewed page (MediaWiki's Help:Magic words).
pub fn variable_text(alloc: Global, viewed: &Title, variable: Var) -> Result<Out, Memory>
    ensures { IfOk result (λ out. out ≡ all_plain (variable_text viewed.now variable)) }
{
    match variable {
        Var::Bar => plain(alloc, "|"),
        Var::PageName => {
            let text = spaced(alloc, viewed.key())?;
            plain(alloc, &text)
        }
        Var::FullPageName => {
            let mut text = String::new(alloc);
            shown(viewed, &mut text)?;
            plain(alloc, &text)
        }
        Var::Namespace => plain(alloc, namespace_name(viewed.ns())),
    }
}

fn push_run(out: &mut Out, text: &str, sealed: bool) -> Result<(), Memory>
    ensures { OnOk result (out.new ≡ out.old ++ marked sealed text.now) }
{
    if sealed {
        out.push_sealed(text)
    } else {
        out.push_plain(text)
    }
}

/// What stands behind a place, before which a byte of ASCII stands.
fn behind(text: &str, place: usize) -> &str
    requires some { 0 < place }
    requires within { place ≤ length text.now }
    requires ascii { get_or text.now (place - 1) 0 < 128 }
    ensures { result.now ≡ drop place text.now }
{
    &text[place..]
}

/// What stands behind the colon of a function, whose place is in the first run.
fn behind_colon(alloc: Global, title: &Out, place: usize) -> Result<Out, Memory>
    requires { option_map (λ called. called.1) (function_called title.now) ≡ Some place }
    ensures { IfOk result (λ out. out ≡ drop place title.now) }
{
    let mut out = Out::new(alloc);
    let mut runs = title.runs();
    let Some((first, _)) = runs.next() else {
        return Ok(out);
    };
    out.push_plain(behind(first, place))?;
    for (text, sealed) in runs {
        push_run(&mut out, text, sealed)?;
    }
    Ok(out)
}

/// Whether the first operand of a function is blank: only plain blank bytes stand behind the colon, whose place this is.
pub fn is_blank_behind(title: &Out, place: usize) -> bool
    requires { option_map (λ called. called.1) (function_called title.now) ≡ Some place }
    ensures { result ≡ is_blank_output (trimmed_output (drop place title.now)) }
{
    match title.plain_text() {
        Some(text) => is_blank(&text.as_bytes()[place..]),
        None => false,
    }
}

/// The first operand of a function: what stands behind the colon, whose place this is, trimmed.
pub fn first_operand(alloc: Global, title: &Out, place: usize) -> Result<Out, Memory>
    requires { option_map (λ called. called.1) (function_called title.now) ≡ Some place }
    ensures { IfOk result (λ out. out ≡ trimmed_output (drop place title.now)) }
{
    let operand = behind_colon(alloc, title, place)?;
    trimmed(alloc, operand)
}

/// The title that an output names, in the default namespace where it names none; none where the output holds a sealed
/// byte, or is no title.
fn named_title(alloc: Global, name: &Out, default_ns: i8) -> Result<Option<Title>, Memory>
    requires { is_namespace default_ns ≡ true }
    ensures { IfOk result (λ found.
        found ≡ option_and_then (λ text. normal text default_ns) (plain_text_of name.now)) }
{
    let Some(text) = name.plain_text() else {
        return Ok(None);
    };
    match normalize(alloc, text, default_ns) {
        Ok(title) => Ok(Some(title)),
        Err(TitleRefusal::Illegal) => Ok(None),
        Err(TitleRefusal::Memory) => Err(Memory),
    }
}

/// The page that a trimmed title part calls, a template where no namespace is named; none where it holds a sealed
/// byte, or is no title.
pub fn called_title(alloc: Global, trees: &mut Trees, title: &Out) -> Result<Option<Title>, Memory>
    ensures { IfOk result (λ found.
        found ≡ option_and_then (λ text. normal text (pos 10)) (plain_text_of title.now)) }
{
    match title.plain_text() {
        Some(text) => trees.called(alloc, text),
        None => Ok(None),
    }
}

/// The page that an operand tests; none where it holds a sealed byte, is no title, or a title in a negative namespace.
pub fn tested_title(alloc: Global, first: &Out) -> Result<Option<Title>, Memory>
    ensures { IfOk result (λ found. found ≡ tested_title first.now) }
{
    match named_title(alloc, first, 0)? {
        Some(title) => {
            if title.is_virtual() {
                return Ok(None);
            }
            Ok(Some(title))
        }
        None => Ok(None),
    }
}

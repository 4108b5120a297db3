//! The ends of elements.
ghost use Rattle.std.specs.Prelude.{◌<◌, ◌≤◌, ℕ, List, length, IfNone};
ghost use Rattle.wk_text_rules.specs.Shapes.{up_to};
ghost use Rattle.wk_tree_rules.specs.Tags.{element_end};
ghost use Rattle.wk_lex.specs.Parts.{blank_rest, element_end_rest};
ghost use Rattle.wk_lex.specs.Places.{EndsAt, IsNowhereFrom};

use crate::places::{behind_blanks, behind_name_end, name_at, word_at};

/// The place behind a space, a tab or a newline at the place, the blank bytes that follow it, and a `>`.
fn blank_rest(text: &[u8], at: usize) -> Option<usize>
    requires { at ≤ length text.now }
    ensures { EndsAt blank_rest text.now at result }
{
    let inside = behind_name_end(text, at)?;
    word_at(text, behind_blanks(text, inside), b">")
}

/// The place behind the rest of an end tag behind its name, with nothing but blank bytes before its `>`.
fn element_end_rest(text: &[u8], at: usize) -> Option<usize>
    requires { at ≤ length text.now }
    ensures { EndsAt element_end_rest text.now at result }
{
    match word_at(text, at, b">") {
        Some(end) => Some(end),
        None => blank_rest(text, at),
    }
}

/// The place behind the end tag that ends an element of the name, if one begins at the place.
fn element_end(text: &[u8], at: usize, name: &[u8]) -> Option<usize>
    requires within { at ≤ length text.now }
    requires some { 0 < length name.now }
    ensures { EndsAt (element_end name.now) text.now at result }
{
    let start = word_at(text, at, b"</")?;
    let rest = name_at(text, start, name)?;
    element_end_rest(text, rest)
}

/// The place behind the nearest end of an element of the name that begins at this place or further on.
pub fn behind_element_end(text: &[u8], from: usize, name: &[u8]) -> Option<usize>
    requires within { from ≤ length text.now }
    requires some { 0 < length name.now }
    ensures end { EndsAt (up_to (element_end name.now)) text.now from result }
    ensures none { IfNone result (IsNowhereFrom (element_end name.now) text.now from) }
{
    for at in from..text.len() {
        if let Some(end) = element_end(text, at, name) {
            return Some(end);
        }
    }
    None
}

/// The same, where no element of the name ends from the place `none_from` on, which is kept as low as is known.
pub fn behind_known_element_end(
    text: &[u8],
    none_from: &mut usize,
    from: usize,
    name: &[u8],
) -> Option<usize>
    requires within { from ≤ length text.now }
    requires some { 0 < length name.now }
    requires none { IsNowhereFrom (element_end name.now) text.now none_from.old }
    ensures end { EndsAt (up_to (element_end name.now)) text.now from result }
    ensures none { IsNowhereFrom (element_end name.now) text.now none_from.new }
{
    if *none_from <= from {
        return None;
    }
    let end = behind_element_end(text, from, name);
    if end.is_none() {
        *none_from = from;
    }
    end
}

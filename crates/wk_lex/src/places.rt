//! Words and runs at places of a text.
ghost use Rattle.std.specs.Prelude.{◌≡◌, ◌==◌, ◌+◌, ◌<◌, ◌≤◌, length, IfSome};
ghost use Rattle.wk_text_rules.specs.Blank.{is_blank_byte};
ghost use Rattle.wk_text_rules.specs.Shapes.{exactly, in_any_case, one_of};
ghost use Rattle.wk_tree_rules.specs.Tags.{is_name_end, is_space_or_tab};
ghost use Rattle.wk_lex.specs.Places.{EndsAt, RunEndsAt, IsNearest};

use memchr::memmem;
use wk_bytes::trim_start;

/// The place behind the word, where it stands at the place.
#[inline(always)]
pub fn word_at(text: &[u8], at: usize, word: &[u8]) -> Option<usize>
    requires within { at ≤ length text.now }
    requires some { 0 < length word.now }
    ensures end { EndsAt (exactly word.now) text.now at result }
    ensures len { IfSome result (λ end. end ≡ at + length word.now) }
{
    if text[at..].starts_with(word) {
        Some(at + word.len())
    } else {
        None
    }
}

/// The place behind the name, where it stands at the place in whichever case its letters are written.
#[inline(always)]
pub fn name_at(text: &[u8], at: usize, name: &[u8]) -> Option<usize>
    requires within { at ≤ length text.now }
    requires some { 0 < length name.now }
    ensures { EndsAt (in_any_case name.now) text.now at result }
{
    let rest = &text[at..];
    if rest.len() < name.len() {
        return None;
    }
    if rest[..name.len()].eq_ignore_ascii_case(name) {
        Some(at + name.len())
    } else {
        None
    }
}

/// The place behind the byte at the place that ends a tag's name: a space, a tab or a newline.
pub fn behind_name_end(text: &[u8], at: usize) -> Option<usize>
    requires { at ≤ length text.now }
    ensures { EndsAt (one_of is_name_end) text.now at result }
{
    if at < text.len() && matches!(text[at], b' ' | b'\t' | b'\n') {
        Some(at + 1)
    } else {
        None
    }
}

/// The place behind the spaces and tabs at the place.
pub fn behind_spaces(text: &[u8], at: usize) -> usize
    requires { at ≤ length text.now }
    ensures { RunEndsAt is_space_or_tab text.now at result }
{
    let mut end = at;
    while end < text.len() && (text[end] == b' ' || text[end] == b'\t') {
        end += 1;
    }
    end
}

/// The place behind the blank bytes at the place.
pub fn behind_blanks(text: &[u8], at: usize) -> usize
    requires { at ≤ length text.now }
    ensures { RunEndsAt is_blank_byte text.now at result }
{
    text.len() - trim_start(&text[at..]).len()
}

/// The place behind the bytes at the place that are this mark.
pub fn behind_marks(text: &[u8], at: usize, mark: u8) -> usize
    requires { at ≤ length text.now }
    ensures { RunEndsAt (λ b. b == mark) text.now at result }
{
    let mut end = at;
    while end < text.len() && text[end] == mark {
        end += 1;
    }
    end
}

/// The nearest place from this one on at which the word stands, if it does.
pub fn nearest(text: &[u8], from: usize, word: &[u8]) -> Option<usize>
    requires within { from ≤ length text.now }
    requires some { 0 < length word.now }
    ensures { IsNearest word.now text.now from result }
{
    match memmem::find(&text[from..], word) {
        Some(place) => Some(from + place),
        None => None,
    }
}

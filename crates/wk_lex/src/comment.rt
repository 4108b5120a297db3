//! Comments, and lines that hold comments and blanks alone.
ghost use Rattle.std.specs.Prelude.{◌<◌, ◌≤◌, length};
ghost use Rattle.wk_text_rules.specs.Shapes.{one_or_more};
ghost use Rattle.wk_tree_rules.specs.Tags.{closed_comment, comment, line_of_comments};
ghost use Rattle.wk_tree_rules.specs.Atoms.{after_newline};
ghost use Rattle.wk_lex.specs.Places.{EndsAt, byte_before};
ghost use Rattle.wk_lex.specs.Parts.{spaced_comment};

use crate::places::{behind_spaces, nearest, word_at};

/// The place behind the closed comment at the place, if one begins there.
fn closed_comment(text: &[u8], at: usize) -> Option<usize>
    requires { at ≤ length text.now }
    ensures { EndsAt closed_comment text.now at result }
{
    let inside = word_at(text, at, b"<!--")?;
    let end = nearest(text, inside, b"-->")?;
    Some(end + 3)
}

/// The place behind the comment at the place, if one begins there. A comment without an end runs to the end of the
/// text.
pub fn comment(text: &[u8], at: usize) -> Option<usize>
    requires { at ≤ length text.now }
    ensures { EndsAt comment text.now at result }
{
    word_at(text, at, b"<!--")?;
    match closed_comment(text, at) {
        Some(end) => Some(end),
        None => Some(text.len()),
    }
}

/// The place behind the closed comment at the place and the spaces and tabs that follow it.
fn spaced_comment(text: &[u8], at: usize) -> Option<usize>
    requires { at ≤ length text.now }
    ensures { EndsAt spaced_comment text.now at result }
{
    let end = closed_comment(text, at)?;
    Some(behind_spaces(text, end))
}

/// The place behind one or more closed comments at the place, each with spaces and tabs behind it.
fn spaced_comments(text: &[u8], at: usize) -> Option<usize>
    requires { at ≤ length text.now }
    ensures { EndsAt (one_or_more spaced_comment) text.now at result }
{
    let mut end = spaced_comment(text, at)?;
    while let Some(next) = spaced_comment(text, end) {
        end = next;
    }
    Some(end)
}

/// The place behind the line of comments at the place: spaces, tabs and closed comments, of these one at least, and
/// the newline behind them.
fn line_of_comments(text: &[u8], at: usize) -> Option<usize>
    requires { at ≤ length text.now }
    ensures { EndsAt line_of_comments text.now at result }
{
    let start = behind_spaces(text, at);
    let end = spaced_comments(text, start)?;
    word_at(text, end, b"\n")
}

/// The same where the byte before the place is a newline, and else none.
#[inline(always)]
pub fn whole_line_of_comments(text: &[u8], at: usize) -> Option<usize>
    requires { at ≤ length text.now }
    ensures { EndsAt (after_newline (byte_before at text.now) line_of_comments) text.now at result }
{
    if at == 0 || text[at - 1] != b'\n' {
        return None;
    }
    line_of_comments(text, at)
}

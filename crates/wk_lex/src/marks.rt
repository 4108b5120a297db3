//! Runs of braces and of brackets.
ghost use Rattle.std.specs.Prelude.{◌≤◌, length};
ghost use Rattle.wk_text_rules.specs.Shapes.{◌or_else◌};
ghost use Rattle.wk_tree_rules.specs.Atoms.{run_of_delimiters};
ghost use Rattle.wk_lex.specs.Places.{EndsAt};

use crate::places::{behind_marks, word_at};

/// The place behind the longest run of two or more of the mark at the place, if one begins there.
fn run_of_marks(text: &[u8], at: usize, mark: u8) -> Option<usize>
    requires { at ≤ length text.now }
    ensures { EndsAt (run_of_delimiters mark) text.now at result }
{
    let inside = word_at(text, at, &[mark, mark])?;
    Some(behind_marks(text, inside, mark))
}

/// The place behind the run of opening braces or brackets at the place, if one begins there.
pub fn opening_run(text: &[u8], at: usize) -> Option<usize>
    requires { at ≤ length text.now }
    ensures { EndsAt (run_of_delimiters 123 or_else run_of_delimiters 91) text.now at result }
{
    match run_of_marks(text, at, b'{') {
        Some(end) => Some(end),
        None => run_of_marks(text, at, b'['),
    }
}

/// The place behind the run of closing braces or brackets at the place, if one begins there.
pub fn closing_run(text: &[u8], at: usize) -> Option<usize>
    requires { at ≤ length text.now }
    ensures { EndsAt (run_of_delimiters 125 or_else run_of_delimiters 93) text.now at result }
{
    match run_of_marks(text, at, b'}') {
        Some(end) => Some(end),
        None => run_of_marks(text, at, b']'),
    }
}

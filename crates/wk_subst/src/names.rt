//! The names of calls and of arguments.
ghost use Rattle.std.specs.Prelude.{◌≡◌, codes};
ghost use Rattle.std.specs.Option.{option_copied};
ghost use Rattle.wk_text_rules.specs.Blank.{trimmed};
ghost use Rattle.wk_text_rules.specs.Shapes.{in_any_case};

use wk_bytes::{trim_end, trim_start};

/// The word that a call's title part begins with, in any case.
const WORD: &[u8] = b"subst:";

/// The text without the blank bytes at both ends. Takes no memory.
pub fn trimmed_text(text: &str) -> &str
    ensures { result.now ≡ trimmed text.now }
{
    let rest = trim_start(text.as_bytes());
    let text = &text[text.len() - rest.len()..];
    let front = trim_end(text.as_bytes());
    &text[..front.len()]
}

/// What stands behind `subst:` in any case, where the text begins with it. Takes no memory.
pub fn behind_subst(text: &str) -> Option<&str>
    ensures { option_copied result ≡ in_any_case (codes "subst:") text.now }
{
    let bytes = text.as_bytes();
    if bytes.len() < WORD.len() {
        return None;
    }
    if bytes[..WORD.len()].eq_ignore_ascii_case(WORD) {
        Some(&text[WORD.len()..])
    } else {
        None
    }
}

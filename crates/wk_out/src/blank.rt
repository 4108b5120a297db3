//! Blank bytes at the ends of a text: spaces, tabs, newlines and carriage returns (own).
ghost use Rattle.std.specs.Prelude.{◌≡◌};
ghost use Rattle.wk_text_rules.specs.Blank.{trimmed_start, trimmed_end};

/// The text without the blank bytes at the front.
pub fn trim_start(text: &str) -> &str
    ensures { result.now ≡ trimmed_start text.now }
{
    let rest = wk_bytes::trim_start(text.as_bytes());
    &text[text.len() - rest.len()..]
}

/// The text without the blank bytes at the end.
pub fn trim_end(text: &str) -> &str
    ensures { result.now ≡ trimmed_end text.now }
{
    let front = wk_bytes::trim_end(text.as_bytes());
    &text[..front.len()]
}

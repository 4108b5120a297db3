//! A key with spaces for its underscores, as it is shown.
ghost use Rattle.std.specs.Prelude.{◌≡◌, ◌+◌, ◌≤◌, ◌++◌, length, string_bytes, string_len, string_capacity, IfOk};
ghost use Rattle.wk_text_rules.specs.Titles.{with_spaces};
ghost use Rattle.wk_title.specs.Shown.{with_space};

use std::alloc::Global;
use wk_memory::Memory;

fn with_space(c: char) -> char
    ensures { result ≡ with_space c }
{
    if c == '_' { ' ' } else { c }
}

/// Appends the key with a space for each underscore, for which the text has room. Takes no memory.
pub fn push_with_spaces(into: &mut String, key: &str)
    requires room { string_len into.old + length key.now ≤ string_capacity into.old }
    ensures { string_bytes into.new ≡ string_bytes into.old ++ with_spaces key.now }
{
    for c in key.chars() {
        into.push(with_space(c)).unwrap();
    }
}

/// The key with a space for each underscore.
pub fn spaced(alloc: Global, key: &str) -> Result<String, Memory>
    ensures { IfOk result (λ text. string_bytes text ≡ with_spaces key.now) }
{
    let mut text = String::with_capacity(alloc, key.len())?;
    push_with_spaces(&mut text, key);
    Ok(text)
}

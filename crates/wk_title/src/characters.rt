//! The rules that change the characters of a text (MediaWiki's Manual:Page title).
ghost use Rattle.std.specs.Prelude.{◌≡◌, ◌==◌, ◌||◌, not, filter, IfOk, chars};
ghost use Rattle.std.specs.Char.{is_ascii};
ghost use Rattle.std.specs.List.{before_first, list_all};
ghost use Rattle.wk_text_rules.specs.Titles.{is_direction_mark, is_underscore, to_nfc, without_fragment, squeezed, without_leading_underscores, without_trailing_underscores, capitalized};

use std::alloc::{AllocError, Global};
use unicode_normalization::slice::extend_nfc;

/// U+200E, U+200F and U+202A to U+202E, which order text and can't be seen.
fn is_direction_mark(c: char) -> bool
    ensures { result ≡ is_direction_mark c }
{
    matches!(c, '\u{200E}' | '\u{200F}' | '\u{202A}'..='\u{202E}')
}

fn is_ascii(cs: &[char]) -> bool
    ensures { result ≡ list_all is_ascii cs.now }
{
    cs.iter().all(|c| c.is_ascii())
}

/// The characters in Normalization Form C, by which those of ASCII stay as they are.
pub fn to_nfc(alloc: Global, cs: Vec<char>) -> Result<Vec<char>, AllocError>
    ensures { IfOk result (λ composed. composed.items ≡ to_nfc cs.items) }
{
    if is_ascii(&cs) {
        return Ok(cs);
    }
    let mut composed = Vec::new(alloc);
    extend_nfc(&mut composed, &cs)?;
    Ok(composed)
}

/// What stands before the first `#`, without direction marks.
fn before_fragment(alloc: Global, text: &str) -> Result<Vec<char>, AllocError>
    ensures { IfOk result (λ cs. cs.items ≡ filter (λ c. not (is_direction_mark c)) (before_first (λ c. c == 35) (chars text.now))) }
{
    text.chars()
        .take_while(|c| *c != '#')
        .filter(|c| !is_direction_mark(*c))
        .collect(alloc)
}

/// What stands before the first `#`, without direction marks, in Normalization Form C.
pub fn without_fragment(alloc: Global, text: &str) -> Result<Vec<char>, AllocError>
    ensures { IfOk result (λ cs. cs.items ≡ without_fragment (chars text.now)) }
{
    let kept = before_fragment(alloc, text)?;
    to_nfc(alloc, kept)
}

fn is_space(c: char) -> bool
    ensures { result ≡ (c == 32 || c == 95) }
{
    c == ' ' || c == '_'
}

/// Each run of spaces and underscores as one underscore, and none at the ends.
pub fn squeezed(alloc: Global, cs: &[char]) -> Result<Vec<char>, AllocError>
    ensures { IfOk result (λ out. out.items ≡ squeezed cs.now) }
{
    let mut out = Vec::new(alloc);
    let mut after_space = false;
    for c in cs {
        if is_space(*c) {
            after_space = true;
        } else {
            if after_space && !out.is_empty() {
                out.push('_')?;
            }
            out.push(*c)?;
            after_space = false;
        }
    }
    Ok(out)
}

/// The characters from the first that is no underscore on.
pub fn without_leading_underscores(cs: &[char]) -> &[char]
    ensures { result.now ≡ without_leading_underscores cs.now }
{
    let mut start = 0;
    while start < cs.len() && cs[start] == '_' {
        start += 1;
    }
    &cs[start..]
}

/// The characters up to the last that is no underscore.
pub fn without_trailing_underscores(cs: &[char]) -> &[char]
    ensures { result.now ≡ without_trailing_underscores cs.now }
{
    let mut end = cs.len();
    while 0 < end && cs[end - 1] == '_' {
        end -= 1;
    }
    &cs[..end]
}

/// The characters, the first as a capital where it is a letter of ASCII (own: no others).
pub fn capitalized(alloc: Global, cs: &[char]) -> Result<Vec<char>, AllocError>
    ensures { IfOk result (λ out. out.items ≡ capitalized cs.now) }
{
    let mut out = Vec::from_slice(alloc, cs)?;
    if let Some(first) = out.first_mut() {
        first.make_ascii_uppercase();
    }
    Ok(out)
}

//! The text that a wiki keeps of a text that is saved.
ghost use Rattle.std.specs.Prelude.{◌≡◌, ◌+◌, ◌==◌, ◌<◌, IfOk, chars, encode_utf8_all, length, slice_index, string_bytes};
ghost use Rattle.wk_text_rules.specs.Blank.{trimmed_end};
ghost use Rattle.wk_page_rules.specs.Kept.{with_newlines, kept};

use std::alloc::{AllocError, Global};
use wk_bytes::trim_end;
use wk_memory::Memory;
use wk_title::to_nfc;

fn is_newline_at(cs: &[char], i: usize) -> bool
    ensures { result ≡ (slice_index cs.now i == 10) }
{
    i < cs.len() && cs[i] == '\n'
}

/// The characters with newlines for carriage returns; one that stands before a newline goes.
fn with_newlines(alloc: Global, cs: &[char]) -> Result<Vec<char>, AllocError>
    ensures { IfOk result (λ out. out.items ≡ with_newlines cs.now) }
{
    let mut out = Vec::with_capacity(alloc, cs.len())?;
    for i in 0..cs.len() {
        if cs[i] != '\r' {
            out.push(cs[i])?;
        } else if !is_newline_at(cs, i + 1) {
            out.push('\n')?;
        }
    }
    Ok(out)
}

fn characters(alloc: Global, text: &str) -> Result<Vec<char>, AllocError>
    ensures { IfOk result (λ cs. cs.items ≡ chars text.now) }
{
    text.chars().collect(alloc)
}

fn text_of(alloc: Global, cs: &[char]) -> Result<String, AllocError>
    ensures { IfOk result (λ text. string_bytes text ≡ encode_utf8_all cs.now) }
{
    cs.iter().copied().collect(alloc)
}

/// The text without the blank bytes at its end.
fn without_blank_end(mut text: String) -> String
    ensures { string_bytes result ≡ trimmed_end (string_bytes text) }
{
    let end = trim_end(text.as_bytes()).len();
    text.truncate(end);
    text
}

/// The text that a wiki keeps of a text that is saved: each carriage return, with a newline behind it or not, is a
/// newline (MediaWiki's `TextContent::normalizeLineEndings`), the characters are in Normalization Form C, and no
/// blank bytes stand at the end.
pub fn kept(alloc: Global, text: &str) -> Result<String, Memory>
    ensures { IfOk result (λ kept_text. string_bytes kept_text ≡ kept text.now) }
{
    let cs = with_newlines(alloc, &characters(alloc, text)?)?;
    let composed = to_nfc(alloc, cs)?;
    Ok(without_blank_end(text_of(alloc, &composed)?))
}

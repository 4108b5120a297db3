//! Where a text redirects to.
ghost use Rattle.std.specs.Prelude.{◌≡◌, ◌<◌, Some, codes, is_some, length, IfOk};
ghost use Rattle.std.specs.Option.{option_copied};
ghost use Rattle.wk_text_rules.specs.Shapes.{exactly, in_any_case, perhaps, up_to, without_byte};
ghost use Rattle.wk_tree_rules.specs.Redirects.{redirect_start, redirect_target, target_end};
ghost use Rattle.wk_redirect.specs.Targets.{target_in};

use std::alloc::Global;
use wk_bytes::trim_start;
use wk_memory::Memory;
use wk_title::{Title, page_named, target_len};

/// What stands behind the word, where the text begins with it.
fn behind_word<'a>(text: &'a [u8], word: &[u8]) -> Option<&'a [u8]>
    ensures { option_copied result ≡ exactly word.now text.now }
{
    if text.starts_with(word) {
        Some(&text[word.len()..])
    } else {
        None
    }
}

/// The same in whichever case the letters of the text are written.
fn behind_name<'a>(text: &'a [u8], name: &[u8]) -> Option<&'a [u8]>
    requires { 0 < length name.now }
    ensures { option_copied result ≡ in_any_case name.now text.now }
{
    if text.len() < name.len() {
        return None;
    }
    if text[..name.len()].eq_ignore_ascii_case(name) {
        Some(&text[name.len()..])
    } else {
        None
    }
}

/// What stands behind a colon, where the text begins with one, and else the text.
fn behind_colon(text: &[u8]) -> &[u8]
    ensures { Some result.now ≡ perhaps (exactly (codes ":")) text.now }
{
    match behind_word(text, b":") {
        Some(rest) => rest,
        None => text,
    }
}

/// What stands behind the start of a redirect, up to the brackets of its target.
fn behind_start(text: &[u8]) -> Option<&[u8]>
    ensures { option_copied result ≡ redirect_start text.now }
{
    let rest = behind_name(trim_start(text), b"#redirect")?;
    let rest = behind_colon(trim_start(rest));
    behind_word(trim_start(rest), b"[[")
}

/// Whether the nearest `]]` ends a label without newline. It reads no further than a newline.
fn ends_label(text: &[u8]) -> bool
    ensures { result ≡ is_some (without_byte 10 (up_to (exactly (codes "]]"))) text.now) }
{
    for at in 0..text.len() {
        if text[at..].starts_with(b"]]") {
            return true;
        }
        if text[at] == b'\n' {
            return false;
        }
    }
    false
}

/// Whether the text begins with the end of a target.
fn ends_target(text: &[u8]) -> bool
    ensures { result ≡ is_some (target_end text.now) }
{
    match text {
        [b']', b']', ..] => true,
        [b'|', label @ ..] => ends_label(label),
        _ => false,
    }
}

/// The target of the redirect that the text begins with.
fn target_in(text: &str) -> Option<&str>
    ensures { option_copied result ≡ target_in text.now }
{
    let inside = behind_start(text.as_bytes())?;
    let len = target_len(inside);
    if !ends_target(&inside[len..]) {
        return None;
    }
    let start = text.len() - inside.len();
    Some(&text[start..start + len])
}

/// The title that a text redirects to (MediaWiki's Help:Redirects).
pub fn redirect_target(alloc: Global, text: &str) -> Result<Option<Title>, Memory>
    ensures { IfOk result (λ found. found ≡ redirect_target text.now) }
{
    let Some(target) = target_in(text) else {
        return Ok(None);
    };
    page_named(alloc, target)
}

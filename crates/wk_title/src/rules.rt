//! Which title a text names, and how a title is shown.
ghost use Rattle.std.specs.Prelude.{◌≡◌, ◌+◌, ◌≤◌, ◌<◌, ◌^◌, ◌++◌, true, length, encode_utf8_all, string_bytes, string_len, string_capacity, IfOk, OnOk, OnErr};
ghost use Rattle.wk_text_rules.specs.Titles.{is_namespace, normal, shown};
ghost use Rattle.wk_title.specs.Placed.{placed_key};
ghost use Rattle.wk_title.specs.Shown.{shown_namespace};

use crate::ascii::{ascii_title, is_short_ascii};
use crate::characters::{capitalized, squeezed, to_nfc, without_fragment};
use crate::legal::is_legal_key;
use crate::namespace::namespace_name;
use crate::parts::{after_leading_colon, after_namespace};
use crate::spaces::push_with_spaces;
use crate::title::{Title, TitleRefusal};
use std::alloc::{AllocError, Global};
use wk_bytes::Text;
use wk_memory::Memory;

/// The characters as a text.
fn key_text(alloc: Global, key: &[char]) -> Result<Text, Memory>
    requires { length (encode_utf8_all key.now) < 2 ^ 32 }
    ensures { IfOk result (λ text. text ≡ encode_utf8_all key.now) }
{
    let bytes: String = key.iter().copied().collect(alloc)?;
    Text::new(alloc, bytes.as_str())
}

/// The namespace that the text asks for, and the key that is left, which may be none that is legal.
fn placed_key(alloc: Global, text: &str, default_ns: i8) -> Result<(i8, Vec<char>), AllocError>
    ensures { IfOk result (λ placed. (placed.0, placed.1.items) ≡ placed_key text.now default_ns) }
{
    let plain = without_fragment(alloc, text)?;
    let words = squeezed(alloc, &plain)?;
    let (asked, rest) = after_leading_colon(default_ns, &words);
    let (ns, rest) = after_namespace(asked, rest);
    let capitalized = capitalized(alloc, rest)?;
    let key = to_nfc(alloc, capitalized)?;
    Ok((ns, key))
}

/// As `normalize`, of any text, by its characters.
fn normalize_characters(alloc: Global, text: &str, default_ns: i8) -> Result<Title, TitleRefusal>
    requires { is_namespace default_ns ≡ true }
    ensures ok { IfOk result (λ title. normal text.now default_ns ≡ Some title) }
    ensures illegal { result ≡ Err TitleRefusal.Illegal → normal text.now default_ns ≡ None }
{
    let (ns, key) = placed_key(alloc, text, default_ns)?;
    if !is_legal_key(&key) {
        return Err(TitleRefusal::Illegal);
    }
    let key = key_text(alloc, &key)?;
    Ok(Title::new(ns, key))
}

/// The title that a text names, where `default_ns` is the number of the namespace that a text without one is in.
/// The number is one of the table's, which `is_namespace` tells.
///
/// `Illegal` comes exactly where the rules give the text no title; `Memory` may come at any text.
pub fn normalize(alloc: Global, text: &str, default_ns: i8) -> Result<Title, TitleRefusal>
    requires { is_namespace default_ns ≡ true }
    ensures ok { IfOk result (λ title. normal text.now default_ns ≡ Some title) }
    ensures illegal { result ≡ Err TitleRefusal.Illegal → normal text.now default_ns ≡ None }
{
    if is_short_ascii(text.as_bytes()) {
        return ascii_title(alloc, text, default_ns);
    }
    normalize_characters(alloc, text, default_ns)
}

fn push_namespace(into: &mut String, ns: i8)
    requires room { string_len into.old + length (shown_namespace ns) ≤ string_capacity into.old }
    ensures bytes { string_bytes into.new ≡ string_bytes into.old ++ shown_namespace ns }
    ensures capacity { string_capacity into.old ≤ string_capacity into.new }
{
    let name = namespace_name(ns);
    if !name.is_empty() {
        into.push_str(name).unwrap();
        into.push(':').unwrap();
    }
}

/// Appends the title as it is shown: the namespace's name and a colon, nothing in main, and the key with a space
/// for each underscore. `Memory` leaves the text as it was.
pub fn shown(title: &Title, into: &mut String) -> Result<(), Memory>
    ensures ok { OnOk result (string_bytes into.new ≡ string_bytes into.old ++ shown title.now) }
    ensures err { OnErr result (string_bytes into.new ≡ string_bytes into.old) }
{
    let key = title.key();
    into.reserve(namespace_name(title.ns()).len() + 1 + key.len())?;
    push_namespace(into, title.ns());
    push_with_spaces(into, key);
    Ok(())
}

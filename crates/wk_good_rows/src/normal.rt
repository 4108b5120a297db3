//! Whether the title of a row is normal: whether its shown form names it.
ghost use Rattle.std.specs.Prelude.{◌≡◌, ◌++◌, string_bytes, IfOk, OnOk};
ghost use Rattle.wk_text_rules.specs.Titles.{namespace_name, shown, with_spaces, is_normal, is_page_title};
ghost use Rattle.wk_title.specs.Shown.{with_space, shown_namespace};

use std::alloc::Global;
use wk_bytes::Text;
use wk_memory::Memory;
use wk_title::{TitleRefusal, normalize};

/// The name of the namespace as it is shown, empty for main and for a number that no namespace has.
fn namespace_name(namespace: i64) -> &'static str
    ensures { result.now ≡ namespace_name namespace }
{
    match i8::try_from(namespace) {
        Ok(ns) => wk_title::namespace_name(ns),
        Err(_) => "",
    }
}

/// Appends the name of the namespace and a colon, and nothing where it has no name.
fn push_namespace(into: &mut String, namespace: i64) -> Result<(), Memory>
    ensures { OnOk result (string_bytes into.new ≡ string_bytes into.old ++ shown_namespace namespace) }
{
    let name = namespace_name(namespace);
    if name.is_empty() {
        return Ok(());
    }
    into.push_str(name)?;
    into.push(':')?;
    Ok(())
}

fn with_space(c: char) -> char
    ensures { result ≡ with_space c }
{
    if c == '_' { ' ' } else { c }
}

/// Appends the key with a space for each underscore.
fn push_with_spaces(into: &mut String, key: &str) -> Result<(), Memory>
    ensures { OnOk result (string_bytes into.new ≡ string_bytes into.old ++ with_spaces key.now) }
{
    for c in key.chars() {
        into.push(with_space(c))?;
    }
    Ok(())
}

/// The title with this namespace and key as it is shown, whether some text names it or none does.
pub fn shown_form(alloc: Global, namespace: i64, key: &str) -> Result<String, Memory>
    ensures { IfOk result (λ text. string_bytes text ≡ shown (record { ns = namespace; key = key.now })) }
{
    let mut text = String::new(alloc);
    push_namespace(&mut text, namespace)?;
    push_with_spaces(&mut text, key)?;
    Ok(text)
}

/// Whether the title is one that a text can name.
pub fn is_normal(alloc: Global, namespace: i64, key: &Text) -> Result<bool, Memory>
    ensures { IfOk result (λ answer. answer ≡ is_normal (record { ns = namespace; key = key.now })) }
{
    let text = shown_form(alloc, namespace, key.as_str())?;
    match normalize(alloc, text.as_str(), 0) {
        Ok(title) => Ok(i64::from(title.ns()) == namespace && title.key() == key.as_str()),
        Err(TitleRefusal::Illegal) => Ok(false),
        Err(TitleRefusal::Memory) => Err(Memory),
    }
}

/// Whether the title is one that a page can have.
pub fn is_page_title(alloc: Global, namespace: i64, key: &Text) -> Result<bool, Memory>
    ensures { IfOk result (λ answer. answer ≡ is_page_title (record { ns = namespace; key = key.now })) }
{
    if namespace < 0 {
        return Ok(false);
    }
    is_normal(alloc, namespace, key)
}

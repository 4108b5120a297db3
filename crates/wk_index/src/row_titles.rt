//! The titles that rows of the tables name.
ghost use Rattle.std.specs.Prelude.{◌≡◌, ◌++◌, true, string_bytes, IfOk, OnOk};
ghost use Rattle.wk_text_rules.specs.Titles.{is_normal, namespace_name, shown};
ghost use Rattle.wk_title.specs.Shown.{shown_namespace};

use std::alloc::Global;
use wk_bytes::Text;
use wk_memory::Memory;
use wk_title::{Title, named, spaced};

/// The name of the namespace as it is shown, empty for main and for a number that no namespace has.
fn namespace_name(namespace: i64) -> &'static str
    ensures { result.now ≡ namespace_name namespace }
{
    match i8::try_from(namespace) {
        Ok(ns) => wk_title::namespace_name(ns),
        Err(_) => "",
    }
}

/// Appends the name of the namespace and a colon, and nothing where it has no name.
fn push_namespace(into: &mut String, namespace: i64) -> Result<(), Memory>
    ensures { OnOk result (string_bytes into.new ≡ string_bytes into.old ++ shown_namespace namespace) }
{
    let name = namespace_name(namespace);
    if name.is_empty() {
        return Ok(());
    }
    into.push_str(name)?;
    into.push(':')?;
    Ok(())
}

/// The title as it is shown.
fn shown_form(alloc: Global, namespace: i64, key: &str) -> Result<String, Memory>
    ensures { IfOk result (λ text. string_bytes text ≡ shown (record { ns = namespace; key = key.now })) }
{
    let key = spaced(alloc, key)?;
    let mut text = String::new(alloc);
    push_namespace(&mut text, namespace)?;
    text.push_str(key.as_str())?;
    Ok(text)
}

/// The title with this key in the namespace, where it is normal: the one that its shown form names.
pub fn row_title(alloc: Global, namespace: i64, key: &Text) -> Result<Title, Memory>
    requires { is_normal (record { ns = namespace; key = key.now }) ≡ true }
    ensures { IfOk result (λ title. title ≡ record { ns = namespace; key = key.now }) }
{
    let text = shown_form(alloc, namespace, key.as_str())?;
    match named(alloc, text.as_str(), 0)? {
        Some(title) => Ok(title),
        None => unreachable!(),
    }
}

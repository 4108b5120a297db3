//! Which title a text names, and what is kept of a text.

use crate::members::{number_of, text_of};
use crate::refusal::Refusal;
use crate::values::{put, put_text};
use serde_json::{Map, Value};
use std::alloc::Global;
use wk_memory::Memory;
use wk_revs::kept;
use wk_title::{Title, TitleRefusal, is_namespace, normalize, shown};

/// The shown form of a title.
pub fn shown_text(alloc: Global, title: &Title) -> Result<String, Memory> {
    let mut text = String::new(alloc);
    shown(title, &mut text)?;
    Ok(text)
}

/// The title that a text names, with main as the default; none where it names none.
pub fn title_of(alloc: Global, text: &str) -> Result<Option<Title>, Memory> {
    match normalize(alloc, text, 0) {
        Ok(title) => Ok(Some(title)),
        Err(TitleRefusal::Illegal) => Ok(None),
        Err(TitleRefusal::Memory) => Err(Memory),
    }
}

/// A title as it is answered.
fn title_value(alloc: Global, title: &Title) -> Result<Value, Memory> {
    let mut members = Map::new(alloc);
    put_text(alloc, &mut members, "key", title.key())?;
    put(alloc, &mut members, "ns", Value::from(title.ns()))?;
    put_text(alloc, &mut members, "shown", &shown_text(alloc, title)?)?;
    Ok(Value::Object(members))
}

/// Which title the text names.
pub fn norm(alloc: Global, request: &Value) -> Result<Value, Refusal> {
    let text = text_of(request)?;
    let Some(number) = number_of(request, "ns") else {
        return Err(Refusal::NoNamespace);
    };
    let Ok(ns) = i8::try_from(number) else {
        return Err(Refusal::UnknownNamespace);
    };
    if !is_namespace(ns) {
        return Err(Refusal::UnknownNamespace);
    }
    match normalize(alloc, text, ns) {
        Ok(title) => Ok(title_value(alloc, &title)?),
        Err(TitleRefusal::Illegal) => Ok(Value::Null),
        Err(TitleRefusal::Memory) => Err(Refusal::Memory),
    }
}

/// What is kept of the text.
pub fn kept_value(alloc: Global, request: &Value) -> Result<Value, Refusal> {
    let text = text_of(request)?;
    Ok(Value::String(kept(alloc, text)?))
}

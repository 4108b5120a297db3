//! The members of a request.

use crate::refusal::Refusal;
use serde_json::Value;
use std::alloc::Global;
use wk_bytes::Text;
use wk_lex::Mode;
use wk_memory::Memory;

/// The value that the bytes are the JSON of.
pub fn read(alloc: Global, bytes: &[u8]) -> Result<Value, Refusal> {
    let Ok(text) = str::from_utf8(bytes) else {
        return Err(Refusal::NotUtf8);
    };
    match Value::from_str(alloc, text) {
        Ok(value) => Ok(value),
        Err(error) if error.is_memory() => Err(Refusal::Memory),
        Err(_) => Err(Refusal::NotJson),
    }
}

/// The member with this name, where it is a string.
pub fn string_of<'a>(request: &'a Value, name: &str) -> Option<&'a str> {
    match request.get(name) {
        Some(member) => member.as_str(),
        None => None,
    }
}

/// The member with this name, where it is an integer.
pub fn number_of(request: &Value, name: &str) -> Option<i64> {
    match request.get(name) {
        Some(member) => member.as_i64(),
        None => None,
    }
}

/// The member `text`.
pub fn text_of(request: &Value) -> Result<&str, Refusal> {
    match string_of(request, "text") {
        Some(text) => Ok(text),
        None => Err(Refusal::NoText),
    }
}

/// The mode that the member `mode` names.
pub fn mode_of(request: &Value) -> Result<Mode, Refusal> {
    match string_of(request, "mode") {
        Some("view") => Ok(Mode::View),
        Some("include") => Ok(Mode::Include),
        _ => Err(Refusal::NoMode),
    }
}

/// The text, to be shared.
pub fn shared_text(alloc: Global, text: &str) -> Result<Text, Refusal> {
    if text.len() as u64 >= 1 << 32 {
        return Err(Refusal::TextTooLong);
    }
    Ok(Text::new(alloc, text)?)
}

/// Adds an entry to an answer that is a list.
pub fn add(entries: &mut Vec<Value>, entry: Value) -> Result<(), Memory> {
    entries.push(entry)?;
    Ok(())
}

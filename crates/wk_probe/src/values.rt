//! The values of answers, made of tables of names and plain values.

use serde_json::{Map, Value};
use std::alloc::Global;
use wk_memory::Memory;

/// A value that has no further ones within it.
#[derive(Clone, Copy)]
pub enum Plain<'a> {
    Null,
    Flag(bool),
    Number(u64),
    Text(&'a str),
}

/// The number, or `null` where there is none.
pub fn number_or_null<'a>(number: Option<u64>) -> Plain<'a> {
    match number {
        Some(number) => Plain::Number(number),
        None => Plain::Null,
    }
}

/// The text, or `null` where there is none.
pub fn text_or_null(text: &Option<String>) -> Plain<'_> {
    match text {
        Some(text) => Plain::Text(text.as_str()),
        None => Plain::Null,
    }
}

/// The value of an answer.
pub fn value_of(alloc: Global, plain: Plain<'_>) -> Result<Value, Memory> {
    match plain {
        Plain::Null => Ok(Value::Null),
        Plain::Flag(flag) => Ok(Value::Bool(flag)),
        Plain::Number(number) => Ok(Value::from(number)),
        Plain::Text(text) => Ok(Value::String(String::from_str(alloc, text)?)),
    }
}

/// Puts a value under a name.
pub fn put(
    alloc: Global,
    members: &mut Map<String, Value>,
    name: &str,
    value: Value,
) -> Result<(), Memory> {
    serde_json::put(members, alloc, name, value)?;
    Ok(())
}

/// Puts a text under a name.
pub fn put_text(
    alloc: Global,
    members: &mut Map<String, Value>,
    name: &str,
    text: &str,
) -> Result<(), Memory> {
    put(alloc, members, name, value_of(alloc, Plain::Text(text))?)
}

/// The members with these names and values.
pub fn members_of(
    alloc: Global,
    table: &[(&str, Plain<'_>)],
) -> Result<Map<String, Value>, Memory> {
    let mut members = Map::new(alloc);
    for (name, plain) in table {
        put(alloc, &mut members, name, value_of(alloc, *plain)?)?;
    }
    Ok(members)
}

/// The object with these names and values.
pub fn object(alloc: Global, table: &[(&str, Plain<'_>)]) -> Result<Value, Memory> {
    Ok(Value::Object(members_of(alloc, table)?))
}

/// The object with one member.
pub fn object_with(alloc: Global, name: &str, value: Value) -> Result<Value, Memory> {
    let mut members = Map::new(alloc);
    put(alloc, &mut members, name, value)?;
    Ok(Value::Object(members))
}

/// The entries with these values.
pub fn entries_of(alloc: Global, table: &[Plain<'_>]) -> Result<Vec<Value>, Memory> {
    let mut entries = Vec::new(alloc);
    for plain in table {
        entries.push(value_of(alloc, *plain)?)?;
    }
    Ok(entries)
}

/// The list of these values.
pub fn list(alloc: Global, table: &[Plain<'_>]) -> Result<Value, Memory> {
    Ok(Value::Array(entries_of(alloc, table)?))
}

//! The answer to a line.

use crate::asked::request_value;
use crate::atoms::{atoms_value, select_value};
use crate::expansions::expand_value;
use crate::links::links_value;
use crate::members::{read, string_of};
use crate::numerals::same_value;
use crate::refusal::{Refusal, refusal_text};
use crate::titles::{kept_value, norm};
use crate::trees::tree_value;
use crate::values::{Plain, object};
use crate::wikis::api_value;
use crate::wire::{http_value, params_value};
use serde_json::Value;
use std::alloc::Global;
use wk_bytes::Line;
use wk_memory::Memory;

/// The answer to the bytes of a line.
fn answer(alloc: Global, bytes: &[u8]) -> Result<Value, Refusal> {
    let request = read(alloc, bytes)?;
    if !request.is_object() {
        return Err(Refusal::NotObject);
    }
    match string_of(&request, "op") {
        Some("norm") => norm(alloc, &request),
        Some("kept") => kept_value(alloc, &request),
        Some("select") => select_value(alloc, &request),
        Some("atoms") => atoms_value(alloc, &request),
        Some("tree") => tree_value(alloc, &request),
        Some("same") => same_value(&request),
        Some("expand") => expand_value(alloc, &request),
        Some("links") => links_value(alloc, &request),
        Some("http") => http_value(alloc, &request),
        Some("params") => params_value(alloc, &request),
        Some("request") => request_value(alloc, &request),
        Some("api") => api_value(alloc, &request),
        Some(_) => Err(Refusal::UnknownOp),
        None => Err(Refusal::NoOp),
    }
}

/// The answer, or what is wrong.
fn value_of(alloc: Global, answer: Result<Value, Refusal>) -> Result<Value, Memory> {
    match answer {
        Ok(value) => Ok(value),
        Err(Refusal::Memory) => Err(Memory),
        Err(refusal) => object(alloc, &[("error", Plain::Text(refusal_text(refusal)))]),
    }
}

/// The line of an answer: compact JSON and a newline.
fn line_of(alloc: Global, answer: Result<Value, Refusal>) -> Result<String, Memory> {
    let value = value_of(alloc, answer)?;
    let mut line = value.to_string(alloc)?;
    line.push('\n')?;
    Ok(line)
}

/// The line of the answer to a line, if it has one.
pub fn reply_line(alloc: Global, line: &Line) -> Result<Option<String>, Memory> {
    match line {
        Line::More => Ok(None),
        Line::TooLong => Ok(Some(line_of(alloc, Err(Refusal::TooLong))?)),
        Line::Whole(bytes) if bytes.is_empty() => Ok(None),
        Line::Whole(bytes) => Ok(Some(line_of(alloc, answer(alloc, bytes))?)),
    }
}

//! The tree of a text.
ghost use Rattle.std.specs.Prelude.{IsSome};
ghost use Rattle.wk_tree.specs.Parsed.{list_with, node_with, part_with};
ghost use Rattle.wk_probe.specs.Known.{IsKnown};

use crate::members::{add, mode_of, shared_text, text_of};
use crate::refusal::Refusal;
use crate::values::{Plain, entries_of, list};
use serde_json::Value;
use std::alloc::Global;
use wk_memory::Memory;
use wk_tree::{Item, ListId, NodeId, Parsed, parse};

/// How many calls deep the lists and nodes of a tree are shown: a tree has at most 100 nodes within each other, each takes
/// at most four, and the innermost list and its item take two.
const MOST_DEEP: usize = 402;

/// A stretch of the text that is read.
fn stretch(parsed: &Parsed, start: u32, len: u32) -> Result<&str, Refusal> {
    let bytes = parsed.source();
    let Some(end) = (start as usize).checked_add(len as usize) else {
        return Err(Refusal::NotUtf8);
    };
    match bytes.get(start as usize..end) {
        Some(part) => match str::from_utf8(part) {
            Ok(text) => Ok(text),
            Err(_) => Err(Refusal::NotUtf8),
        },
        None => Err(Refusal::NotUtf8),
    }
}

/// Adds the two numbers of a span: its place and its length.
fn add_span(entries: &mut Vec<Value>, start: u32, len: u32) -> Result<(), Memory> {
    add(entries, Value::from(start))?;
    add(entries, Value::from(len))
}

/// A further part of a node: its name or `null`, its value, and the span of the value.
#[cycle(shown)]
fn part_value(
    alloc: Global,
    parsed: &Parsed,
    node: NodeId,
    at: usize,
    left: usize,
) -> Result<Value, Refusal>
    requires { IsSome (part_with parsed.now node at) }
{
    if left == 0 {
        return Err(Refusal::TooDeep);
    }
    let part = parsed.part(node, at);
    let name = match part.name {
        Some(list) => list_value(alloc, parsed, list, left - 1)?,
        None => Value::Null,
    };
    let value = list_value(alloc, parsed, part.value, left - 1)?;
    let mut entries = Vec::new(alloc);
    add(&mut entries, name)?;
    add(&mut entries, value)?;
    add_span(&mut entries, part.start, part.len)?;
    Ok(Value::Array(entries))
}

/// A node: its kind, its span, its title part and its further parts.
#[cycle(shown)]
fn node_value(alloc: Global, parsed: &Parsed, node: NodeId, left: usize) -> Result<Value, Refusal>
    requires { IsSome (node_with parsed.now node) }
{
    if left == 0 {
        return Err(Refusal::TooDeep);
    }
    let kind = if parsed.argument(node) {
        "argument"
    } else {
        "template"
    };
    let (start, len) = parsed.span(node);
    let title = list_value(alloc, parsed, parsed.title(node), left - 1)?;
    let mut parts = Vec::new(alloc);
    for at in 0..parsed.parts(node) {
        add(&mut parts, part_value(alloc, parsed, node, at, left - 1)?)?;
    }
    let mut entries = entries_of(alloc, &[Plain::Text(kind)])?;
    add_span(&mut entries, start, len)?;
    add(&mut entries, title)?;
    add(&mut entries, Value::Array(parts))?;
    Ok(Value::Array(entries))
}

/// An item of a list.
#[cycle(shown)]
fn item_value(alloc: Global, parsed: &Parsed, item: &Item, left: usize) -> Result<Value, Refusal>
    requires { IsKnown parsed.now item.now }
{
    if left == 0 {
        return Err(Refusal::TooDeep);
    }
    let (kind, start, len) = match *item {
        Item::Node(node) => return node_value(alloc, parsed, node, left - 1),
        Item::Plain { start, len } => ("plain", start, len),
        Item::Sealed { start, len } => ("sealed", start, len),
        Item::Nothing { start, len } => ("nothing", start, len),
    };
    let text = Plain::Text(stretch(parsed, start, len)?);
    Ok(list(alloc, &[Plain::Text(kind), text])?)
}

/// The items of a list.
#[cycle(shown)]
fn list_value(alloc: Global, parsed: &Parsed, list: ListId, left: usize) -> Result<Value, Refusal>
    requires { IsSome (list_with parsed.now list) }
{
    if left == 0 {
        return Err(Refusal::TooDeep);
    }
    let mut items = Vec::new(alloc);
    for item in parsed.items(list) {
        add(&mut items, item_value(alloc, parsed, item, left - 1)?)?;
    }
    Ok(Value::Array(items))
}

/// The tree of the text.
pub fn tree_value(alloc: Global, request: &Value) -> Result<Value, Refusal> {
    let mode = mode_of(request)?;
    let text = shared_text(alloc, text_of(request)?)?;
    let parsed = parse(alloc, &text, mode)?;
    list_value(alloc, &parsed, parsed.root(), MOST_DEEP)
}

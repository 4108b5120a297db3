//! What of a text is read, and its atoms.

use crate::members::{add, mode_of, text_of};
use crate::refusal::Refusal;
use crate::values::{Plain, list};
use serde_json::Value;
use std::alloc::Global;
use wk_lex::{Atom, AtomKind, lex, select};
use wk_memory::Memory;

/// What the mode reads of the text.
fn selected(alloc: Global, request: &Value) -> Result<Vec<u8>, Refusal> {
    let mode = mode_of(request)?;
    let text = text_of(request)?;
    match select(alloc, mode, text.as_bytes())? {
        Some(parts) => Ok(parts),
        None => Ok(text.as_bytes().to_vec(alloc)?),
    }
}

/// The text that is read.
pub fn select_value(alloc: Global, request: &Value) -> Result<Value, Refusal> {
    let bytes = selected(alloc, request)?;
    match String::from_utf8(bytes) {
        Ok(text) => Ok(Value::String(text)),
        Err(_) => Err(Refusal::NotUtf8),
    }
}

/// The word of a kind.
fn kind_word(kind: AtomKind) -> &'static str {
    match kind {
        AtomKind::LineComment => "line_comment",
        AtomKind::Comment => "comment",
        AtomKind::Sealed => "sealed",
        AtomKind::Ignored => "ignored",
        AtomKind::Tag => "tag",
        AtomKind::Open => "open",
        AtomKind::Close => "close",
        AtomKind::Bar => "bar",
        AtomKind::Equals => "equals",
        AtomKind::Byte => "bytes",
    }
}

/// An atom, or neighbouring single bytes, as an entry of the answer.
fn atom_value(alloc: Global, kind: AtomKind, start: u32, len: u64) -> Result<Value, Memory> {
    let start = u64::from(start);
    list(
        alloc,
        &[
            Plain::Text(kind_word(kind)),
            Plain::Number(start),
            Plain::Number(len),
        ],
    )
}

/// Adds the single bytes that wait to be joined, from a place and so many, if there are any.
fn add_bytes(
    alloc: Global,
    entries: &mut Vec<Value>,
    bytes: Option<(u32, u64)>,
) -> Result<(), Memory> {
    let Some((start, len)) = bytes else {
        return Ok(());
    };
    add(entries, atom_value(alloc, AtomKind::Byte, start, len)?)
}

/// The bytes that wait, with one more at a place.
fn with_byte(bytes: Option<(u32, u64)>, start: u32) -> Option<(u32, u64)> {
    match bytes {
        Some((first, len)) => Some((first, len.saturating_add(1))),
        None => Some((start, 1)),
    }
}

/// The atoms as an answer, with neighbouring single bytes joined.
fn entries_of(alloc: Global, atoms: &[Atom]) -> Result<Value, Memory> {
    let mut entries = Vec::new(alloc);
    let mut bytes = None;
    for atom in atoms {
        if atom.kind == AtomKind::Byte {
            bytes = with_byte(bytes, atom.start);
        } else {
            add_bytes(alloc, &mut entries, bytes)?;
            bytes = None;
            add(
                &mut entries,
                atom_value(alloc, atom.kind, atom.start, u64::from(atom.len))?,
            )?;
        }
    }
    add_bytes(alloc, &mut entries, bytes)?;
    Ok(Value::Array(entries))
}

/// The atoms of the text that is read.
pub fn atoms_value(alloc: Global, request: &Value) -> Result<Value, Refusal> {
    let text = selected(alloc, request)?;
    if text.len() as u64 >= 1 << 32 {
        return Err(Refusal::TextTooLong);
    }
    let atoms = lex(alloc, mode_of(request)?, &text)?;
    Ok(entries_of(alloc, &atoms)?)
}

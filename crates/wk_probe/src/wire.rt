//! The messages of a connection, and the parameters of a request. A text stands for bytes: each character, which is one
//! of the first 256, for one byte.

use crate::members::{add, string_of};
use crate::refusal::Refusal;
use crate::values::{Plain, members_of, object_with, put, put_text, value_of};
use serde_json::{Map, Value};
use std::alloc::Global;
use wk_form::Params;
use wk_http::{Feed, HttpRequest, Method, Next};
use wk_memory::Memory;

/// Adds a byte.
fn add_byte(bytes: &mut Vec<u8>, byte: u8) -> Result<(), Memory> {
    bytes.push(byte)?;
    Ok(())
}

/// The bytes that a text stands for.
pub fn bytes_of(alloc: Global, text: &str) -> Result<Vec<u8>, Refusal> {
    let mut bytes = Vec::new(alloc);
    for character in text.chars() {
        match u8::try_from(u32::from(character)) {
            Ok(byte) => add_byte(&mut bytes, byte)?,
            Err(_) => return Err(Refusal::NoBytes),
        }
    }
    Ok(bytes)
}

/// The text that stands for the bytes.
fn text_for(alloc: Global, bytes: &[u8]) -> Result<String, Memory> {
    let mut text = String::new(alloc);
    for byte in bytes {
        text.push(char::from(*byte))?;
    }
    Ok(text)
}

/// The word of a method.
fn method_word(method: Method) -> &'static str {
    match method {
        Method::Get => "get",
        Method::Post => "post",
        Method::Other => "other",
    }
}

/// Puts the texts of a message.
fn put_texts(
    alloc: Global,
    members: &mut Map<String, Value>,
    request: &HttpRequest,
) -> Result<(), Memory> {
    put_text(alloc, members, "body", &text_for(alloc, &request.body)?)?;
    put_text(alloc, members, "path", &request.path)?;
    put_text(alloc, members, "query", &text_for(alloc, &request.query)?)
}

/// A message as an entry of the answer.
fn message_value(alloc: Global, request: &HttpRequest) -> Result<Value, Memory> {
    let mut members = members_of(
        alloc,
        &[
            ("last", Plain::Flag(request.last)),
            ("method", Plain::Text(method_word(request.method))),
            ("multipart", Plain::Flag(request.multipart)),
        ],
    )?;
    put_texts(alloc, &mut members, request)?;
    Ok(Value::Object(members))
}

/// Takes the messages that are whole, and gives how the stream ends, if it ends here.
fn take_messages(
    alloc: Global,
    feed: &mut Feed,
    messages: &mut Vec<Value>,
) -> Result<Option<Value>, Memory> {
    for _ in 0..u64::MAX {
        match feed.next()? {
            Next::More => return Ok(None),
            Next::Bad(status) => return Ok(Some(object_with(alloc, "bad", Value::from(status))?)),
            Next::Whole(request) => {
                add(messages, message_value(alloc, &request)?)?;
                if request.last {
                    return Ok(Some(value_of(alloc, Plain::Text("closed"))?));
                }
            }
        }
    }
    Ok(None)
}

/// The next piece of the stream.
fn piece_of(alloc: Global, piece: &Value) -> Result<Vec<u8>, Refusal> {
    match piece.as_str() {
        Some(text) => bytes_of(alloc, text),
        None => Err(Refusal::NoPieces),
    }
}

/// How the stream ends where no message and no bad place ended it.
fn end_of(alloc: Global, feed: &Feed) -> Result<Value, Memory> {
    let word = if feed.is_between() { "peer" } else { "cut" };
    value_of(alloc, Plain::Text(word))
}

/// The messages of the stream that comes in these pieces, and how it ends.
fn stream_value(
    alloc: Global,
    pieces: &[Value],
    messages: &mut Vec<Value>,
) -> Result<Value, Refusal> {
    let mut feed = Feed::new(alloc);
    for piece in pieces {
        let bytes = piece_of(alloc, piece)?;
        feed.push(&bytes)?;
        if let Some(end) = take_messages(alloc, &mut feed, messages)? {
            return Ok(end);
        }
    }
    Ok(end_of(alloc, &feed)?)
}

/// How a stream ends, and its messages.
fn stream_answer(alloc: Global, end: Value, messages: Vec<Value>) -> Result<Value, Memory> {
    let mut members = Map::new(alloc);
    put(alloc, &mut members, "end", end)?;
    put(alloc, &mut members, "messages", Value::Array(messages))?;
    Ok(Value::Object(members))
}

/// The messages of the member `pieces`.
pub fn http_value(alloc: Global, request: &Value) -> Result<Value, Refusal> {
    let Some(pieces) = request.get("pieces").and_then(Value::as_array) else {
        return Err(Refusal::NoPieces);
    };
    let mut messages = Vec::new(alloc);
    let end = stream_value(alloc, pieces.as_slice(), &mut messages)?;
    Ok(stream_answer(alloc, end, messages)?)
}

/// The parameter `name` of the query and the body.
pub fn params_value(alloc: Global, request: &Value) -> Result<Value, Refusal> {
    let Some(name) = string_of(request, "name") else {
        return Err(Refusal::NoName);
    };
    let query = bytes_of(alloc, string_of(request, "query").unwrap_or(""))?;
    let body = bytes_of(alloc, string_of(request, "body").unwrap_or(""))?;
    let params = Params::read(alloc, &query, &body)?;
    match params.get(name) {
        Some(value) => Ok(value_of(alloc, Plain::Text(value))?),
        None => Ok(Value::Null),
    }
}

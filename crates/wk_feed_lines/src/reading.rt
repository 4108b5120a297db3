//! Reading a line.
ghost use Rattle.std.specs.Prelude.{◌≡◌, false, IfOk, IfSome, IsUtf8, bytes_eq, option_and_then, option_map};
ghost use Rattle.serde_json.specs.Find.{as_array};
ghost use Rattle.serde_json.specs.Read.{read as read_text};
ghost use Rattle.serde_json.specs.View.{view};
ghost use Rattle.serde_json.specs.Written.{compact_text, has_float};
ghost use Rattle.wk_feed_rules.specs.Reading.{list_of, said, values_say};
ghost use Rattle.wk_feed_lines.specs.Said.{line_of};

use crate::forms::values_say;
use crate::line::FeedLine;
use serde_json::Value;
use std::alloc::Global;
use wk_memory::Memory;

/// The value that the bytes are as JSON, if they are UTF-8 and JSON (RFC 8259).
fn value_of(alloc: Global, bytes: &[u8]) -> Result<Option<Value>, Memory>
    ensures read { IfOk result (λ value. IsUtf8 bytes.now → option_map view value ≡ read_text bytes.now) }
    ensures text { IfOk result (λ value. IfSome value (λ _. IsUtf8 bytes.now)) }
{
    match Value::from_slice(alloc, bytes) {
        Ok(value) => Ok(Some(value)),
        Err(error) => {
            if error.is_memory() {
                return Err(Memory);
            }
            Ok(None)
        }
    }
}

/// Whether the bytes are the compact text of the value, which has no number but whole ones.
fn is_compact(alloc: Global, value: &Value, bytes: &[u8]) -> Result<bool, Memory>
    ensures { IfOk result (λ same. has_float (view value.now) ≡ false → same ≡ bytes_eq (compact_text (view value.now)) bytes.now) }
{
    let text = value.to_string(alloc)?;
    Ok(text.as_bytes() == bytes)
}

/// What the line of this value says.
fn value_says(alloc: Global, value: &Value) -> Result<Option<FeedLine>, Memory>
    ensures { IfOk result (λ line. option_map line_of line
        ≡ option_and_then (λ items. values_say (list_of items)) (as_array (view value.now))) }
{
    match value.as_array() {
        Some(values) => values_say(alloc, values),
        None => Ok(None),
    }
}

/// What a line of a feed says, without its newline; `None` exactly where it says nothing. So it is where the line isn't, byte for
/// byte, the compact JSON (RFC 8259) of what it says, and where it isn't UTF-8.
///
/// `Memory` may come. It comes for a row that has a text of 2^32 bytes or more.
pub fn read_line(alloc: Global, bytes: &[u8]) -> Result<Option<FeedLine>, Memory>
    ensures said { IfOk result (λ line. IsUtf8 bytes.now → option_map line_of line ≡ said bytes.now) }
    ensures text { IfOk result (λ line. IfSome line (λ _. IsUtf8 bytes.now)) }
{
    let Some(value) = value_of(alloc, bytes)? else {
        return Ok(None);
    };
    if !is_compact(alloc, &value, bytes)? {
        return Ok(None);
    }
    value_says(alloc, &value)
}

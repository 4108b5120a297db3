//! Where the bytes of a head end that isn't whole yet, so that each byte is looked at once.
ghost use Rattle.std.specs.Prelude.{◌≡◌, ◌≤◌, ◌++◌, ◌∷◌, ℕ, List, [], length, IsTrue, IfSome, IfOk};
ghost use Rattle.httparse.specs.Grammar.{ReadsRequest, RequestHead};
ghost use Rattle.wk_http.specs.Places.{EndsAt};

use crate::front::MOST_HEADERS;
use httparse::spans::{EMPTY_HEADER_SPAN, parse_request};
use httparse::{Status, is_header_name_token, is_header_value_token, is_method_token};
use std::alloc::Global;
use wk_memory::Memory;

/// Where bytes end with which a head can begin.
#[derive(Clone, Copy)]
pub(crate) enum Place {
    /// Behind empty lines, or where no byte is.
    Empty,
    /// Behind empty lines and a carriage return.
    EmptyReturn,
    /// Within the method.
    Method,
    /// Within the target.
    Target,
    /// Behind whole lines, of which the first is that of the request.
    Line,
    /// Within a field's name.
    Name,
    /// Within a field's value.
    Value,
    /// Behind a field's value and a carriage return.
    Return,
}

fn after_empty(byte: u8) -> Option<Place>
    ensures { IfSome result (λ next. (bytes : List ℕ) → EndsAt bytes Place.Empty → EndsAt (bytes ++ byte ∷ []) next) }
{
    if byte == b'\n' {
        return Some(Place::Empty);
    }
    if byte == b'\r' {
        return Some(Place::EmptyReturn);
    }
    if is_method_token(byte) {
        return Some(Place::Method);
    }
    None
}

fn after_empty_return(byte: u8) -> Option<Place>
    ensures { IfSome result (λ next. (bytes : List ℕ) → EndsAt bytes Place.EmptyReturn → EndsAt (bytes ++ byte ∷ []) next) }
{
    if byte == b'\n' {
        return Some(Place::Empty);
    }
    None
}

fn after_method(byte: u8) -> Option<Place>
    ensures { IfSome result (λ next. (bytes : List ℕ) → EndsAt bytes Place.Method → EndsAt (bytes ++ byte ∷ []) next) }
{
    if byte == b' ' {
        return Some(Place::Target);
    }
    if is_method_token(byte) {
        return Some(Place::Method);
    }
    None
}

fn after_target(byte: u8) -> Option<Place>
    ensures { IfSome result (λ next. (bytes : List ℕ) → EndsAt bytes Place.Target → EndsAt (bytes ++ byte ∷ []) next) }
{
    if byte == b' ' {
        return None;
    }
    Some(Place::Target)
}

fn after_line(byte: u8) -> Option<Place>
    ensures { IfSome result (λ next. (bytes : List ℕ) → EndsAt bytes Place.Line → EndsAt (bytes ++ byte ∷ []) next) }
{
    if is_header_name_token(byte) {
        return Some(Place::Name);
    }
    None
}

fn after_name(byte: u8) -> Option<Place>
    ensures { IfSome result (λ next. (bytes : List ℕ) → EndsAt bytes Place.Name → EndsAt (bytes ++ byte ∷ []) next) }
{
    if byte == b':' {
        return Some(Place::Value);
    }
    if is_header_name_token(byte) {
        return Some(Place::Name);
    }
    None
}

fn after_value(byte: u8) -> Option<Place>
    ensures { IfSome result (λ next. (bytes : List ℕ) → EndsAt bytes Place.Value → EndsAt (bytes ++ byte ∷ []) next) }
{
    if byte == b'\n' {
        return Some(Place::Line);
    }
    if byte == b'\r' {
        return Some(Place::Return);
    }
    if is_header_value_token(byte) {
        return Some(Place::Value);
    }
    None
}

fn after_return(byte: u8) -> Option<Place>
    ensures { IfSome result (λ next. (bytes : List ℕ) → EndsAt bytes Place.Return → EndsAt (bytes ++ byte ∷ []) next) }
{
    if byte == b'\n' {
        return Some(Place::Line);
    }
    None
}

/// Where the bytes end with one more. `None` where they are to be read anew: that byte may end the target or the head, or be
/// bad.
fn after_byte(place: Place, byte: u8) -> Option<Place>
    ensures { IfSome result (λ next. (bytes : List ℕ) → EndsAt bytes place → EndsAt (bytes ++ byte ∷ []) next) }
{
    match place {
        Place::Empty => after_empty(byte),
        Place::EmptyReturn => after_empty_return(byte),
        Place::Method => after_method(byte),
        Place::Target => after_target(byte),
        Place::Line => after_line(byte),
        Place::Name => after_name(byte),
        Place::Value => after_value(byte),
        Place::Return => after_return(byte),
    }
}

/// Where the bytes end with these more, unless they are to be read anew.
pub(crate) fn after(place: Place, more: &[u8]) -> Option<Place>
    ensures { IfSome result (λ next. (bytes : List ℕ) → EndsAt bytes place → EndsAt (bytes ++ more.now) next) }
{
    let mut place = place;
    'bytes: for byte in more {
        match after_byte(place, *byte) {
            Some(next) => {
                place = next;
            }
            None => return None,
        }
    }
    Some(place)
}

/// How many bytes there are up to the last newline, and with it.
fn line_end(bytes: &[u8]) -> usize
    ensures { result ≤ length bytes.now }
{
    let mut end = bytes.len();
    'back: while 0 < end && bytes[end - 1] != b'\n' {
        end -= 1;
    }
    end
}

/// Whether the bytes are a head and no more.
fn is_head(bytes: &[u8]) -> bool
    ensures { IsTrue result → (h : RequestHead) × ReadsRequest bytes.now h [] }
{
    let mut headers = [EMPTY_HEADER_SPAN; MOST_HEADERS];
    match parse_request(bytes, &mut headers) {
        Ok(Status::Complete(head)) => head.len == bytes.len(),
        _ => false,
    }
}

fn with_newline(alloc: Global, bytes: &[u8]) -> Result<Vec<u8>, Memory>
    ensures { IfOk result (λ ended. ended.items ≡ bytes.now ++ 10 ∷ []) }
{
    let mut ended = Vec::from_slice(alloc, bytes)?;
    ended.push(b'\n')?;
    Ok(ended)
}

/// Whether these bytes and an empty line are a head, where the bytes end with a newline.
fn are_lines(alloc: Global, bytes: &[u8]) -> Result<bool, Memory>
    ensures { IfOk result (λ are. IsTrue are → EndsAt bytes.now Place.Line) }
{
    let [.., last] = bytes else {
        return Ok(false);
    };
    if *last != b'\n' {
        return Ok(false);
    }
    let ended = with_newline(alloc, bytes)?;
    Ok(is_head(&ended))
}

/// Where bytes end whose last whole line is one of a head.
fn place_in_fields(alloc: Global, bytes: &[u8]) -> Result<Option<Place>, Memory>
    ensures { IfOk result (λ place. IfSome place (EndsAt bytes.now)) }
{
    let end = line_end(bytes);
    if !are_lines(alloc, &bytes[..end])? {
        return Ok(None);
    }
    Ok(after(Place::Line, &bytes[end..]))
}

/// Where bytes end with which a head can begin, as far as that is found.
pub(crate) fn place_in(alloc: Global, bytes: &[u8]) -> Result<Option<Place>, Memory>
    ensures { IfOk result (λ place. IfSome place (EndsAt bytes.now)) }
{
    match after(Place::Empty, bytes) {
        Some(place) => Ok(Some(place)),
        None => place_in_fields(alloc, bytes),
    }
}

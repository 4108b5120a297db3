//! What stands at the front of a stream: a whole head, too few bytes, or a bad place.
ghost use Rattle.std.specs.Prelude.{◌≡◌, ◌≢◌, ◌↔◌, ℕ, ◌+◌, ◌/◌, ◌≤◌, ◌<◌, List, ◌++◌, take, length, All, IsTrue, IfOk};
ghost use Rattle.httparse.specs.Grammar.{HasNoRequest, NeverHasRequest};
ghost use Rattle.httparse.specs.Spans.{IsRequestWithin, IsRequestOf, RequestOverflows, IsHeaderWithin};
ghost use Rattle.wk_wire_rules.specs.Heads.{most_headers};
ghost use Rattle.wk_wire_rules.specs.Messages.{most_head, CanBegin, EndsWithinTarget};
ghost use Rattle.wk_http.specs.Front.{IsFront};

use crate::fields::{Judged, asks_to_close, is_multipart, judge, method_of};
use crate::target::ends_within_target;
use httparse::spans::{EMPTY_HEADER_SPAN, HeaderSpan, RequestSpans, Span, parse_request};
use httparse::{Error, Status};
use std::alloc::Global;
use wk_memory::Memory;
use wk_wire_rules::Method;

/// The bytes in which a head must be whole.
pub(crate) const MOST_HEAD: usize = 65536;

/// How many headers a head has at most.
pub(crate) const MOST_HEADERS: usize = 100;

/// What is kept of a whole head that isn't refused.
#[derive(Clone, Copy)]
pub(crate) struct Accepted {
    pub head_len: usize,
    pub body_len: usize,
    pub method: Method,
    pub target: Span,
    pub multipart: bool,
    pub last: bool,
}

/// What stands at the front.
#[derive(Clone, Copy)]
pub(crate) enum Front {
    Accepted(Accepted),
    /// No head is whole yet.
    Open,
    Bad(u16),
}

fn is_about_room(error: Error) -> bool
    ensures { IsTrue result ↔ (error ≡ Error.TooManyHeaders) }
{
    matches!(error, Error::TooManyHeaders)
}

/// The first bytes, in which a head must be whole.
fn window(bytes: &[u8]) -> &[u8]
    ensures { result.now ≡ take most_head bytes.now }
{
    if bytes.len() > MOST_HEAD {
        &bytes[..MOST_HEAD]
    } else {
        bytes
    }
}

/// The answer where no head is whole in the first bytes.
fn without_head(bytes: &[u8]) -> Front
    requires none { HasNoRequest (take most_head bytes.now) }
    requires open { length bytes.now < most_head → CanBegin bytes.now }
    ensures { IsFront bytes.now result }
{
    if bytes.len() < MOST_HEAD {
        Front::Open
    } else {
        Front::Bad(400)
    }
}

/// The answer at a whole head in the window, whose headers are these.
fn at_head(
    alloc: Global,
    window: &[u8],
    head: &RequestSpans,
    headers: &[HeaderSpan],
) -> Result<Front, Memory>
    requires within { IsRequestWithin window.now headers.now head.now }
    requires reads { IsRequestOf window.now headers.now head.now }
    requires few { length headers.now ≤ most_headers }
    requires short { length window.now ≤ most_head }
    ensures { IfOk result (λ front. (more : List ℕ) → IsFront (window.now ++ more) front) }
{
    let headers = &headers[..head.headers];
    let method = method_of(head.method.of(window));
    match judge(alloc, window, method, headers)? {
        Judged::Refused(status) => Ok(Front::Bad(status)),
        Judged::Accepted(length) => {
            let multipart = is_multipart(alloc, window, headers)?;
            let closes = asks_to_close(alloc, window, headers)?;
            Ok(Front::Accepted(Accepted {
                head_len: head.len,
                body_len: length as usize,
                method,
                target: head.path,
                multipart,
                last: head.version == 0 || closes,
            }))
        }
    }
}

/// The answer where a head has more headers than are taken, and there is room for all that the window can hold.
/// They are bad once the head is whole.
fn in_room(bytes: &[u8], window: &[u8], headers: &mut [HeaderSpan]) -> Front
    requires window { window.now ≡ take most_head bytes.now }
    requires many { RequestOverflows most_headers window.now }
    requires target { ¬ (EndsWithinTarget window.now) }
    requires room { length headers.old ≡ length window.now / 3 }
    ensures { IsFront bytes.now result }
{
    match parse_request(window, headers) {
        Ok(Status::Complete(_)) => Front::Bad(400),
        Ok(Status::Partial) => without_head(bytes),
        Err(_) => Front::Bad(400),
    }
}

/// The answer where a head has more headers than are taken.
fn with_many_headers(alloc: Global, bytes: &[u8], window: &[u8]) -> Result<Front, Memory>
    requires window { window.now ≡ take most_head bytes.now }
    requires many { RequestOverflows most_headers window.now }
    requires target { ¬ (EndsWithinTarget window.now) }
    ensures { IfOk result (IsFront bytes.now) }
{
    // A header line has at least three bytes.
    let mut headers = vec![in alloc; EMPTY_HEADER_SPAN; window.len() / 3]?;
    Ok(in_room(bytes, window, &mut headers))
}

/// The answer at an error of the parser.
fn at_error(alloc: Global, bytes: &[u8], window: &[u8], error: Error) -> Result<Front, Memory>
    requires window { window.now ≡ take most_head bytes.now }
    requires target { ¬ (EndsWithinTarget window.now) }
    requires invalid { error ≢ Error.TooManyHeaders → NeverHasRequest window.now }
    requires many { RequestOverflows most_headers window.now }
    ensures { IfOk result (IsFront bytes.now) }
{
    if is_about_room(error) {
        with_many_headers(alloc, bytes, window)
    } else {
        Ok(Front::Bad(400))
    }
}

/// What stands at the front of the bytes.
pub(crate) fn front_of(alloc: Global, bytes: &[u8]) -> Result<Front, Memory>
    ensures { IfOk result (IsFront bytes.now) }
{
    let window = window(bytes);
    if ends_within_target(window) {
        return Ok(without_head(bytes));
    }
    let mut headers = [EMPTY_HEADER_SPAN; MOST_HEADERS];
    match parse_request(window, &mut headers) {
        Ok(Status::Complete(head)) => at_head(alloc, window, &head, &headers),
        Ok(Status::Partial) => Ok(without_head(bytes)),
        Err(error) => at_error(alloc, bytes, window, error),
    }
}

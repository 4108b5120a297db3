//! A stream of bytes, read as requests however the bytes come.
ghost use Rattle.std.specs.Prelude.{◌≡◌, ◌+◌, ◌≤◌, [], ◌++◌, length, drop, IsTrue, ◌↔◌, IfSome, IfOk, OnOk, OnErr};
ghost use Rattle.std.specs.List.{before_first, after_first};
ghost use Rattle.httparse.specs.Spans.{span_bytes};
ghost use Rattle.wk_wire_rules.specs.Heads.{is_question_mark};
ghost use Rattle.wk_wire_rules.specs.Messages.{IsMessage, IsOpen};
ghost use Rattle.wk_http.specs.Feed.{IsKnown, IsStep};
ghost use Rattle.wk_http.specs.Front.{IsAccepted};
ghost use Rattle.wk_http.specs.Requests.{message_in, Gives};

use crate::front::{Accepted, Front, MOST_HEAD, front_of};
use crate::places::{Place, after, place_in};
use crate::request::{HttpRequest, Next};
use std::alloc::Global;
use std::marker::Model;
use std::str;
use wk_memory::Memory;

/// What is known of the bytes that are left.
#[derive(Clone, Copy)]
enum Known {
    /// Fewer bytes than these hold no whole message and no bad place.
    OpenBelow(usize),
    /// A bad place stands at the front, with this status.
    Bad(u16),
    /// The first bytes, so many, end at this place, where a head can begin with them.
    At(Place, usize),
}

/// The path and the query of a target.
fn split_target(target: &str) -> (&str, &str)
    ensures path { result.0.now ≡ before_first is_question_mark target.now }
    ensures query { result.1.now ≡ after_first is_question_mark target.now }
{
    match target.split_once('?') {
        Some(parts) => parts,
        None => (target, ""),
    }
}

fn target_of<'b>(bytes: &'b [u8], head: &Accepted) -> &'b str
    requires { IsAccepted bytes.now head.now }
    ensures { result.now ≡ span_bytes bytes.now head.now.target }
{
    match str::from_utf8(head.target.of(bytes)) {
        Ok(target) => target,
        Err(_) => unreachable!("the grammar has UTF-8 in a target"),
    }
}

/// The request whose head was accepted and whose body is whole.
fn request_of(alloc: Global, bytes: &[u8], head: &Accepted) -> Result<HttpRequest, Memory>
    requires accepted { IsAccepted bytes.now head.now }
    requires whole { head.now.head_len + head.now.body_len ≤ length bytes.now }
    ensures { IfOk result (λ request.
        IsMessage bytes.now (message_in request) (drop (head.now.head_len + head.now.body_len) bytes.now)) }
{
    let (path, query) = split_target(target_of(bytes, head));
    let body = &bytes[head.head_len..head.head_len + head.body_len];
    Ok(HttpRequest {
        method: head.method,
        path: String::from_str(alloc, path)?,
        query: Vec::from_slice(alloc, query.as_bytes())?,
        body: Vec::from_slice(alloc, body)?,
        multipart: head.multipart,
        last: head.last,
    })
}

/// An answer, the bytes from the front that it takes, and what is known of those behind them.
#[derive(Drop)]
struct Step {
    next: Next,
    count: usize,
    known: Known,
}

/// The answer at a whole head that isn't refused.
fn step_at_head(alloc: Global, left: &[u8], head: &Accepted) -> Result<Step, Memory>
    requires { IsAccepted left.now head.now }
    ensures { IfOk result (IsStep left.now) }
{
    let count = head.head_len + head.body_len;
    if left.len() < count {
        return Ok(Step {
            next: Next::More,
            count: 0,
            known: Known::OpenBelow(count),
        });
    }
    let request = request_of(alloc, left, head)?;
    Ok(Step {
        next: Next::Whole(request),
        count,
        known: Known::OpenBelow(0),
    })
}

/// What is known of bytes that hold no whole message and no bad place: where in a head they end, as far as that is found.
fn known_open(alloc: Global, left: &[u8]) -> Result<Known, Memory>
    requires { IsOpen left.now }
    ensures { IfOk result (IsKnown left.now) }
{
    match place_in(alloc, left)? {
        Some(place) => Ok(Known::At(place, left.len())),
        None => Ok(Known::OpenBelow(left.len() + 1)),
    }
}

/// The answer at bytes that hold no whole message and no bad place.
fn open_step(alloc: Global, left: &[u8]) -> Result<Step, Memory>
    requires { IsOpen left.now }
    ensures { IfOk result (IsStep left.now) }
{
    let known = known_open(alloc, left)?;
    Ok(Step {
        next: Next::More,
        count: 0,
        known,
    })
}

/// The answer at the bytes that are left.
fn next_step(alloc: Global, left: &[u8]) -> Result<Step, Memory>
    ensures { IfOk result (IsStep left.now) }
{
    match front_of(alloc, left)? {
        Front::Accepted(head) => step_at_head(alloc, left, &head),
        Front::Open => open_step(alloc, left),
        Front::Bad(status) => Ok(Step {
            next: Next::Bad(status),
            count: 0,
            known: Known::Bad(status),
        }),
    }
}

/// The answer where the first bytes, so many, end at this place of a head. `None` where they are to be read anew.
fn step_at(place: Place, count: usize, left: &[u8]) -> Option<Step>
    requires { IsKnown left.now (Known.At place count) }
    ensures { IfSome result (IsStep left.now) }
{
    if MOST_HEAD <= left.len() {
        return None;
    }
    match after(place, &left[count..]) {
        Some(next) => Some(Step {
            next: Next::More,
            count: 0,
            known: Known::At(next, left.len()),
        }),
        None => None,
    }
}

/// The answer that is known where only bytes that came since are looked at, if there is one.
fn known_step(known: Known, left: &[u8]) -> Option<Step>
    requires { IsKnown left.now known }
    ensures { IfSome result (IsStep left.now) }
{
    match known {
        Known::Bad(status) => Some(Step {
            next: Next::Bad(status),
            count: 0,
            known,
        }),
        Known::OpenBelow(most) => {
            if left.len() < most {
                Some(Step {
                    next: Next::More,
                    count: 0,
                    known,
                })
            } else {
                None
            }
        }
        Known::At(place, count) => step_at(place, count, left),
    }
}

/// A stream of bytes that comes in pieces and is read as requests.
///
/// The checks of a head, the limits and the statuses are those of RFC 9112 in this project's profile. It is seen as the
/// bytes that are left: those that were pushed and don't belong to a message that was given. What it
/// answers depends on these alone, so the requests are the same however the stream is cut into pieces. Of the messages
/// that were given it keeps at most as many bytes as are left.
#[derive(Drop)]
pub struct Feed {
    buffer: Vec<u8>,
    start: usize,
    known: Known,
}

impl Model for Feed {
    ghost use Rattle.std.specs.Prelude.{ℕ, ◌+◌, ◌≤◌, List, length, drop};
    ghost use Rattle.wk_http.specs.Feed.{IsKnown};

    ghost Value = { List ℕ };

    ghost view = { λ f. drop f.start f.buffer.items };

    ghost invariant = { λ f. (f.start + f.start ≤ length f.buffer.items) × IsKnown (drop f.start f.buffer.items) f.known };
}

impl Feed {
    /// A feed that holds no bytes. Takes no memory.
    pub fn new(alloc: Global) -> Feed
        ensures { result ≡ [] }
    {
        Feed {
            buffer: Vec::new(alloc),
            start: 0,
            known: Known::OpenBelow(0),
        }
    }

    /// Whether no pushed byte is left, so that the stream may end here. Takes no memory.
    pub fn is_between(&self) -> bool
        ensures { IsTrue result ↔ (self.now ≡ []) }
    {
        self.start == self.buffer.len()
    }

    /// Takes the next piece of the stream. After an `Err` the piece isn't taken.
    pub fn push(&mut self, piece: &[u8]) -> Result<(), Memory>
        ensures ok { OnOk result (self.new ≡ self.old ++ piece.now) }
        ensures err { OnErr result (self.new ≡ self.old) }
    {
        self.buffer.extend_from_slice(piece)?;
        Ok(())
    }

    /// The next whole message, which then isn't left, or that more bytes are needed, or the bad place at the front,
    /// which stays there: the answer is the same from then on. After `More` or `Bad` no byte is looked at again until
    /// more are pushed. After an `Err` the feed is as it was.
    pub fn next(&mut self) -> Result<Next, Memory>
        ensures ok { IfOk result (λ next. Gives self.old next self.new) }
        ensures err { OnErr result (self.new ≡ self.old) }
    {
        let left = &self.buffer[self.start..];
        let step = match known_step(self.known, left) {
            Some(step) => step,
            None => next_step(*self.buffer.allocator(), left)?,
        };
        self.start = compact(&mut self.buffer, self.start + step.count);
        self.known = step.known;
        Ok(step.next)
    }
}

/// Takes so many bytes from the front.
fn drop_front(bytes: &mut Vec<u8>, count: usize)
    requires { count ≤ length bytes.old.items }
    ensures { bytes.new.items ≡ drop count bytes.old.items }
{
    bytes.rotate_left(count);
    bytes.truncate(bytes.len() - count);
}

/// Moves the bytes from `start` on to the front of the buffer, where they are fewer than those before them, and answers
/// where they begin then. Each move goes over fewer bytes than twice those that it takes away, so all moves together are
/// linear in the bytes that were pushed.
fn compact(buffer: &mut Vec<u8>, start: usize) -> usize
    requires { start ≤ length buffer.old.items }
    ensures left { drop result buffer.new.items ≡ drop start buffer.old.items }
    ensures few { result + result ≤ length buffer.new.items }
{
    if start <= buffer.len() - start {
        return start;
    }
    drop_front(buffer, start);
    0
}

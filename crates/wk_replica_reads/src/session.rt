//! A session over a connection with a replica.
ghost use Rattle.std.specs.Prelude.{◌≡◌, ◌≢◌, ◌≤◌, []};
ghost use Rattle.wk_base.specs.Faults.{Rose};
ghost use Rattle.wk_replica_reads.specs.Looks.{IsFree, seen_by};
ghost use Rattle.wk_sending.specs.Sending.{IsCounted};
ghost use Rattle.wk_replica_reads.specs.Sessions.{IsReadSession};

use crate::desk::look;
use crate::serving::reply_to;
use std::alloc::Global;
use std::sync::Wait;
use wk_base::Gate;
use wk_expand::Trees;
use wk_http::{SessionEnd, SessionReport, a_message_is_short};
use wk_link::Link;
use wk_messages::MessageReader;
use wk_replica::Replica;
use wk_sending::end_reading;
use wk_turn::{Pass, Turn};

/// Serves the messages of a connection, of which none was read yet. It waits.
fn serve_all<R: Wait, L: Link, G: Gate>(
    rt: &R,
    shared: &Turn<Replica>,
    alloc: Global,
    pass: &mut Pass<Replica>,
    trees: &mut Trees,
    link: &mut L,
    gate: &mut G,
    points: &mut Vec<u64>,
) -> SessionEnd
    requires free { IsFree shared.now pass.old }
    requires no_point { points.old.items ≡ [] }
    ensures free { IsFree shared.now pass.new }
    ensures session { IsReadSession (seen_by shared.now pass.old) (seen_by shared.now pass.new)
        (record { rest = L.Source.rest link.old; taken = L.Sink.taken link.old })
        (record { rest = L.Source.rest link.new; taken = L.Sink.taken link.new })
        result points.new.items 0 [] }
    ensures counted { IsCounted result (L.Source.faults link.old) (L.Source.faults link.new) (L.Sink.faults link.old) (L.Sink.faults link.new) }
{
    a_message_is_short();
    let mut messages = MessageReader::new(alloc);
    'messages: loop {
        let message = match messages.next(link) {
            Ok(message) => message,
            Err(end) => return end_reading(alloc, link, end),
        };
        match reply_to(rt, shared, alloc, pass, &message, trees, link, gate, points) {
            Ok(()) => {
                if message.last {
                    return SessionEnd::Closed;
                }
            }
            Err(end) => return end,
        }
    }
}

/// Serves a connection on a replica that threads share (RFC 9112 in this project's profile), as `serve_session` serves one on a
/// wiki: the messages that come in are answered in their order, each before the next one is looked at.
///
/// - A method other than GET and POST is answered by 405, a path other than `/api.php` by 404, a body of parts by 415, each
///   without a body; every other message by 200 with the reply of the API, also where that is an error. The session goes on.
/// - A reply shows a point that the pass has seen, no older than what it had seen before; so the points never fall. It is
///   `Replica::answer` in the state at that point: an edit and a deletion are refused as `readonly`. Where memory is wanting, or the
///   replica is stopped, it is that error.
/// - What a page or a text expands to is drafted without the turn, and the gate is passed between two reads; it is answered where
///   each of its reads is current then, and after three drafts of which that isn't so, with the turn held. What the replica keeps
///   of a page is looked at first, and it keeps what was drafted of one. `trees` keeps parsed texts.
/// - A reply is sent in one piece, as far as the link takes it so.
/// - It ends at a message that is the last (`Closed`), at the input's end (`PeerEnd`, or `Cut` within a message), or at a bad
///   place, to which its status is sent (`Bad`); with `ReadFault` or `WriteFault` only where that count of the link rose, or
///   stands at its end; with `Bound` only where 2^40 bytes were read; or with `Memory`.
///
/// No entry is made, no refresh is done, and the report tells of none. The pass is of this shared replica and hasn't taken it. It
/// waits.
pub fn serve_reads<R: Wait, L: Link, G: Gate>(
    rt: &R,
    shared: &Turn<Replica>,
    pass: &mut Pass<Replica>,
    trees: &mut Trees,
    link: &mut L,
    gate: &mut G,
) -> SessionReport
    requires { IsFree shared.now pass.old }
    ensures free { IsFree shared.now pass.new }
    ensures session { IsReadSession (seen_by shared.now pass.old) (seen_by shared.now pass.new)
        (record { rest = L.Source.rest link.old; taken = L.Sink.taken link.old })
        (record { rest = L.Source.rest link.new; taken = L.Sink.taken link.new })
        result.end result.points.items result.jobs_run result.refreshes.items }
    ensures reads_never_fall { L.Source.faults link.old ≤ L.Source.faults link.new }
    ensures no_read_fault { result.end ≢ SessionEnd.ReadFault → L.Source.faults link.new ≡ L.Source.faults link.old }
    ensures read_fault { result.end ≡ SessionEnd.ReadFault → Rose (L.Source.faults link.old) (L.Source.faults link.new) }
    ensures writes_never_fall { L.Sink.faults link.old ≤ L.Sink.faults link.new }
    ensures no_write_fault { result.end ≢ SessionEnd.WriteFault → L.Sink.faults link.new ≡ L.Sink.faults link.old }
    ensures write_fault { result.end ≡ SessionEnd.WriteFault → Rose (L.Sink.faults link.old) (L.Sink.faults link.new) }
{
    let (alloc, _point) = look(rt, shared, pass);
    let mut points = Vec::new(alloc);
    let end = serve_all(rt, shared, alloc, pass, trees, link, gate, &mut points);
    SessionReport {
        end,
        points,
        jobs_run: 0,
        refreshes: Vec::new(alloc),
    }
}

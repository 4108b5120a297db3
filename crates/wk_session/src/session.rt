//! A session over a connection.
ghost use Rattle.std.specs.Prelude.{◌≡◌, ◌≢◌, ◌≤◌, [], None};
ghost use Rattle.wk_base.specs.Faults.{Rose};
ghost use Rattle.wk_wiki_laws.specs.Kept.{IsKept};
ghost use Rattle.wk_shared.specs.Calls.{IsFree, MayFail, seen_by};
ghost use Rattle.wk_session_rules.specs.Exchanges.{is_done, jobs_done};
ghost use Rattle.wk_session_rules.specs.Sessions.{IsSession};
ghost use Rattle.wk_sending.specs.Sending.{IsCounted};

use crate::serving::serve_one;
use std::alloc::Global;
use std::sync::Wait;
use wk_base::{Clock, Gate};
use wk_core::Keeper;
use wk_expand::Trees;
use wk_http::{Refresh, SessionEnd, SessionReport, a_message_is_short};
use wk_link::Link;
use wk_messages::MessageReader;
use wk_readers::Worker;
use wk_sending::end_reading;
use wk_shared::Shared;

fn is_done(refresh: Refresh) -> bool
    ensures { result ≡ is_done refresh }
{
    match refresh {
        Refresh::Done => true,
        _ => false,
    }
}

/// How many refreshes were done.
fn jobs_done(refreshes: &[(u64, Refresh)]) -> u64
    ensures { result ≡ jobs_done refreshes.now }
{
    refreshes
        .iter()
        .filter(|refresh| is_done(refresh.1))
        .count() as u64
}

/// Serves the messages of a connection, of which none was read yet. It waits.
fn serve_all<K: Keeper, R: Wait, L: Link, C: Clock, G: Gate>(
    shared: &Shared<K>,
    rt: &R,
    alloc: Global,
    worker: &mut Worker<K, G>,
    link: &mut L,
    clock: &mut C,
    trees: &mut Trees,
    points: &mut Vec<u64>,
    refreshes: &mut Vec<(u64, Refresh)>,
) -> SessionEnd
    requires free { IsFree shared.now worker.old.reader.pass }
    requires unsealed { shared.now.start.sealed ≡ None }
    requires kept { IsKept shared.now.start.state }
    requires no_point { points.old.items ≡ [] }
    requires no_refresh { refreshes.old.items ≡ [] }
    ensures free { IsFree shared.now worker.new.reader.pass }
    ensures session { IsSession (MayFail shared.now.start)
        (seen_by shared.now.start worker.old.reader.pass) (seen_by shared.now.start worker.new.reader.pass)
        (record { rest = L.Source.rest link.old; moments = C.left clock.old; taken = L.Sink.taken link.old })
        (record { rest = L.Source.rest link.new; moments = C.left clock.new; taken = L.Sink.taken link.new })
        result points.new.items (jobs_done refreshes.new.items) refreshes.new.items }
    ensures counted { IsCounted result (L.Source.faults link.old) (L.Source.faults link.new) (L.Sink.faults link.old) (L.Sink.faults link.new) }
{
    a_message_is_short();
    let mut messages = MessageReader::new(alloc);
    'messages: loop {
        let message = match messages.next(link) {
            Ok(message) => message,
            Err(end) => return end_reading(alloc, link, end),
        };
        match serve_one(
            shared, rt, alloc, worker, &message, link, clock, trees, points, refreshes,
        ) {
            Ok(()) => {
                if message.last {
                    return SessionEnd::Closed;
                }
            }
            Err(end) => return end,
        }
    }
}

/// Serves a connection on a shared wiki (RFC 9112 in this project's profile): the messages that come in are answered in their
/// order, each before the next one is looked at.
///
/// - A method other than GET and POST is answered by 405, a path other than `/api.php` by 404, a body of parts by 415, each
///   without a body; every other message by 200 with the reply of the API, also where that is an error. The session goes on.
/// - A reply shows a point that the worker's pass has seen, no older than what it had seen before; so the points never fall. It is
///   what the rules answer in the state at that point; or an edit or a deletion made the event that stands at that point, which
///   is the pass's own. A moment of the clock is taken for each message whose request is an edit or a deletion. Where memory is
///   wanting, or the store fails at an event, the reply is that error.
/// - The text of an edit with the flag `subst` is transformed before it is judged (MediaWiki's Help:Substitution): without the
///   turn, while others may save, and saved where all that was read for it is current then; after three transforms of which that
///   isn't so, with the turn held. What is stored is so the transform in the state at the point before the event. The moment is
///   taken once, before the first transform.
/// - A reply is sent in one piece, as far as the link takes it so. Behind each that was sent in full one step is made
///   (`refresh_one`), and put to the report with the length of the journal that the pass has seen then. What is refused there
///   doesn't end the session. Where the turn of the reply told that no job is to be done, the step is `Idle` at that point, and
///   takes no turn.
/// - No turn is taken before the first message. What the worker keeps of a page isn't served before the wiki was looked at in this
///   session.
/// - It ends at a message that is the last (`Closed`), at the input's end (`PeerEnd`, or `Cut` within a message), or at a bad
///   place, to which its status is sent (`Bad`); with `ReadFault` or `WriteFault` only where that count of the link rose, or
///   stands at its end; with `Bound` only where 2^40 bytes were read; or with `Memory`.
///
/// The pass is of this shared wiki and hasn't taken it, and the wiki isn't sealed. It waits.
pub fn serve_session<K: Keeper, R: Wait, L: Link, C: Clock, G: Gate>(
    shared: &Shared<K>,
    rt: &R,
    worker: &mut Worker<K, G>,
    link: &mut L,
    clock: &mut C,
) -> SessionReport
    requires free { IsFree shared.now worker.old.reader.pass }
    requires unsealed { shared.now.start.sealed ≡ None }
    ensures free { IsFree shared.now worker.new.reader.pass }
    ensures session { IsSession (MayFail shared.now.start)
        (seen_by shared.now.start worker.old.reader.pass) (seen_by shared.now.start worker.new.reader.pass)
        (record { rest = L.Source.rest link.old; moments = C.left clock.old; taken = L.Sink.taken link.old })
        (record { rest = L.Source.rest link.new; moments = C.left clock.new; taken = L.Sink.taken link.new })
        result.end result.points.items result.jobs_run result.refreshes.items }
    ensures reads_never_fall { L.Source.faults link.old ≤ L.Source.faults link.new }
    ensures no_read_fault { result.end ≢ SessionEnd.ReadFault → L.Source.faults link.new ≡ L.Source.faults link.old }
    ensures read_fault { result.end ≡ SessionEnd.ReadFault → Rose (L.Source.faults link.old) (L.Source.faults link.new) }
    ensures writes_never_fall { L.Sink.faults link.old ≤ L.Sink.faults link.new }
    ensures no_write_fault { result.end ≢ SessionEnd.WriteFault → L.Sink.faults link.new ≡ L.Sink.faults link.old }
    ensures write_fault { result.end ≡ SessionEnd.WriteFault → Rose (L.Sink.faults link.old) (L.Sink.faults link.new) }
{
    shared.facts();
    worker.reader.begin_session();
    let alloc = worker.reader.allocator();
    let mut points = Vec::new(alloc);
    let mut refreshes = Vec::new(alloc);
    let Ok(mut trees) = Trees::new(alloc, 0) else {
        return SessionReport {
            end: SessionEnd::Memory,
            points,
            jobs_run: 0,
            refreshes,
        };
    };
    let end = serve_all(
        shared,
        rt,
        alloc,
        worker,
        link,
        clock,
        &mut trees,
        &mut points,
        &mut refreshes,
    );
    let jobs_run = jobs_done(&refreshes);
    SessionReport {
        end,
        points,
        jobs_run,
        refreshes,
    }
}

//! A message of a session, from its bytes to its step.
ghost use Rattle.std.specs.Prelude.{◌≡◌, ◌≢◌, ◌≤◌, ◌<◌, ◌++◌, None, Err, vec_capacity, vec_len};
ghost use Rattle.std.specs.Option.{option_to_list};
ghost use Rattle.wk_base.specs.Faults.{Rose};
ghost use Rattle.wk_http.specs.Requests.{message_in};
ghost use Rattle.wk_wiki_laws.specs.Kept.{IsKept};
ghost use Rattle.wk_shared.specs.Calls.{IsFree, MayFail, seen_by};
ghost use Rattle.wk_session.specs.Serving.{IsReplied, IsServed};

use crate::replies::answer_message;
use crate::steps::step;
use std::alloc::Global;
use std::sync::Wait;
use wk_base::{Clock, Gate};
use wk_core::Keeper;
use wk_expand::Trees;
use wk_http::{HttpRequest, Refresh, SessionEnd};
use wk_link::Link;
use wk_readers::Worker;
use wk_sending::send_answer;
use wk_shared::Shared;

/// Puts a point to the others, if there is one. Takes no memory.
fn note(points: &mut Vec<u64>, point: Option<u64>)
    requires { vec_len points.old < vec_capacity points.old }
    ensures { points.new.items ≡ points.old.items ++ option_to_list point }
{
    if let Some(point) = point {
        points.push_reserved(point);
    }
}

/// Replies to a message, and puts the point of the reply to the others, if it shows one. It waits.
fn reply_to<K: Keeper, R: Wait, L: Link, C: Clock, G: Gate>(
    shared: &Shared<K>,
    rt: &R,
    alloc: Global,
    worker: &mut Worker<K, G>,
    message: &HttpRequest,
    link: &mut L,
    clock: &mut C,
    trees: &mut Trees,
    points: &mut Vec<u64>,
) -> Result<(), SessionEnd>
    requires free { IsFree shared.now worker.old.reader.pass }
    requires unsealed { shared.now.start.sealed ≡ None }
    requires kept { IsKept shared.now.start.state }
    ensures free { IsFree shared.now worker.new.reader.pass }
    ensures replied { IsReplied (MayFail shared.now.start)
        (seen_by shared.now.start worker.old.reader.pass) (seen_by shared.now.start worker.new.reader.pass) (message_in message.now)
        (record { rest = L.Source.rest link.old; moments = C.left clock.old; taken = L.Sink.taken link.old })
        (record { rest = L.Source.rest link.new; moments = C.left clock.new; taken = L.Sink.taken link.new })
        points.old.items points.new.items result }
    ensures never_falls { L.Sink.faults link.old ≤ L.Sink.faults link.new }
    ensures no_fault { result ≢ Err SessionEnd.WriteFault → L.Sink.faults link.new ≡ L.Sink.faults link.old }
    ensures cause { result ≡ Err SessionEnd.WriteFault → Rose (L.Sink.faults link.old) (L.Sink.faults link.new) }
    ensures read_faults { L.Source.faults link.new ≡ L.Source.faults link.old }
{
    if let Err(_) = points.reserve(1) {
        return Err(SessionEnd::Memory);
    }
    let answer = answer_message(shared, rt, alloc, worker, message, clock, trees);
    note(points, answer.point);
    send_answer(alloc, link, &answer, message.last)
}

/// Replies to a message, and then makes one step. Where the reply isn't sent in full, no step is made. It waits.
pub fn serve_one<K: Keeper, R: Wait, L: Link, C: Clock, G: Gate>(
    shared: &Shared<K>,
    rt: &R,
    alloc: Global,
    worker: &mut Worker<K, G>,
    message: &HttpRequest,
    link: &mut L,
    clock: &mut C,
    trees: &mut Trees,
    points: &mut Vec<u64>,
    refreshes: &mut Vec<(u64, Refresh)>,
) -> Result<(), SessionEnd>
    requires free { IsFree shared.now worker.old.reader.pass }
    requires unsealed { shared.now.start.sealed ≡ None }
    requires kept { IsKept shared.now.start.state }
    ensures free { IsFree shared.now worker.new.reader.pass }
    ensures served { IsServed (MayFail shared.now.start)
        (seen_by shared.now.start worker.old.reader.pass) (seen_by shared.now.start worker.new.reader.pass) (message_in message.now)
        (record { rest = L.Source.rest link.old; moments = C.left clock.old; taken = L.Sink.taken link.old })
        (record { rest = L.Source.rest link.new; moments = C.left clock.new; taken = L.Sink.taken link.new })
        points.old.items points.new.items refreshes.old.items refreshes.new.items result }
    ensures never_falls { L.Sink.faults link.old ≤ L.Sink.faults link.new }
    ensures no_fault { result ≢ Err SessionEnd.WriteFault → L.Sink.faults link.new ≡ L.Sink.faults link.old }
    ensures cause { result ≡ Err SessionEnd.WriteFault → Rose (L.Sink.faults link.old) (L.Sink.faults link.new) }
    ensures read_faults { L.Source.faults link.new ≡ L.Source.faults link.old }
{
    if let Err(_) = refreshes.reserve(1) {
        return Err(SessionEnd::Memory);
    }
    match reply_to(
        shared, rt, alloc, worker, message, link, clock, trees, points,
    ) {
        Ok(()) => {
            let refresh = step(shared, rt, worker);
            refreshes.push_reserved((worker.reader.point(), refresh));
            Ok(())
        }
        Err(end) => Err(end),
    }
}

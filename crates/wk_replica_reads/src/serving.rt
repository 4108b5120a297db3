//! A message of a session, from its bytes to its reply.
ghost use Rattle.std.specs.Prelude.{◌≡◌, ◌≢◌, ◌≤◌, ◌<◌, ◌++◌, Err, vec_capacity, vec_len};
ghost use Rattle.std.specs.Option.{option_to_list};
ghost use Rattle.wk_base.specs.Faults.{Rose};
ghost use Rattle.wk_http.specs.Requests.{message_in};
ghost use Rattle.wk_replica_reads.specs.Looks.{IsFree, seen_by};
ghost use Rattle.wk_replica_reads.specs.Serving.{IsReplied};

use crate::messages::answer_message;
use std::alloc::Global;
use std::sync::Wait;
use wk_base::Gate;
use wk_expand::Trees;
use wk_http::{HttpRequest, SessionEnd};
use wk_link::Link;
use wk_replica::Replica;
use wk_sending::send_answer;
use wk_turn::{Pass, Turn};

/// Puts a point to the others, if there is one. Takes no memory.
fn note(points: &mut Vec<u64>, point: Option<u64>)
    requires { vec_len points.old < vec_capacity points.old }
    ensures { points.new.items ≡ points.old.items ++ option_to_list point }
{
    if let Some(point) = point {
        points.push_reserved(point);
    }
}

/// Replies to a message, and puts the point of the reply to the others, if it shows one. It waits.
pub fn reply_to<R: Wait, L: Link, G: Gate>(
    rt: &R,
    shared: &Turn<Replica>,
    alloc: Global,
    pass: &mut Pass<Replica>,
    message: &HttpRequest,
    trees: &mut Trees,
    link: &mut L,
    gate: &mut G,
    points: &mut Vec<u64>,
) -> Result<(), SessionEnd>
    requires { IsFree shared.now pass.old }
    ensures free { IsFree shared.now pass.new }
    ensures replied { IsReplied (seen_by shared.now pass.old) (seen_by shared.now pass.new) (message_in message.now)
        (record { rest = L.Source.rest link.old; taken = L.Sink.taken link.old })
        (record { rest = L.Source.rest link.new; taken = L.Sink.taken link.new })
        points.old.items points.new.items result }
    ensures never_falls { L.Sink.faults link.old ≤ L.Sink.faults link.new }
    ensures no_fault { result ≢ Err SessionEnd.WriteFault → L.Sink.faults link.new ≡ L.Sink.faults link.old }
    ensures cause { result ≡ Err SessionEnd.WriteFault → Rose (L.Sink.faults link.old) (L.Sink.faults link.new) }
    ensures read_faults { L.Source.faults link.new ≡ L.Source.faults link.old }
{
    if let Err(_) = points.reserve(1) {
        return Err(SessionEnd::Memory);
    }
    let answer = answer_message(rt, shared, alloc, pass, message, trees, gate);
    note(points, answer.point);
    send_answer(alloc, link, &answer, message.last)
}

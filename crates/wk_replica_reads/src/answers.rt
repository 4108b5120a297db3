//! What is answered under one turn.
ghost use Rattle.wk_request.specs.Asked.{request_asked};
ghost use Rattle.wk_request.specs.Refusals.{Refuses};
ghost use Rattle.wk_request_rules.specs.Requests.{ParsedRequest, valid};
ghost use Rattle.wk_replica_reads.specs.Looks.{IsFree};
ghost use Rattle.wk_replica_reads.specs.Telling.{AnswersOn};

use crate::desk::{give, look, take};
use crate::replicas::answered;
use crate::telling::{Told, no_memory};
use std::sync::Wait;
use wk_answer::declined;
use wk_expand::Trees;
use wk_replica::Replica;
use wk_request::{Request, RequestRefusal};
use wk_turn::{Pass, Turn};

/// Answers a request under one turn: an edit and a deletion are refused. It waits.
pub fn answer_now<R: Wait>(
    rt: &R,
    shared: &Turn<Replica>,
    pass: &mut Pass<Replica>,
    request: &Request,
    trees: &mut Trees,
) -> Told
    requires { IsFree shared.now pass.old }
    ensures { AnswersOn shared.now pass.old pass.new (valid (request_asked request.now)) result }
{
    let held = take(rt, shared, pass);
    let answer = answered(&held.value, request, trees);
    let alloc = held.value.allocator();
    let point = held.value.taken();
    give(shared, pass, held);
    match answer {
        Ok(value) => Told {
            value: Ok(value),
            point,
        },
        Err(_) => no_memory(alloc, point),
    }
}

/// Answers that memory is wanting, at the present point. It waits.
pub fn starve<R: Wait>(rt: &R, shared: &Turn<Replica>, pass: &mut Pass<Replica>) -> Told
    requires { IsFree shared.now pass.old }
    ensures { (parsed : ParsedRequest) → AnswersOn shared.now pass.old pass.new parsed result }
{
    let (alloc, point) = look(rt, shared, pass);
    no_memory(alloc, point)
}

/// Answers parameters that ask nothing, or for which memory is wanting, at the present point. It waits.
pub fn decline<R: Wait>(
    rt: &R,
    shared: &Turn<Replica>,
    pass: &mut Pass<Replica>,
    refusal: &RequestRefusal,
) -> Told
    requires { IsFree shared.now pass.old }
    ensures { (parsed : ParsedRequest) → Refuses parsed refusal.now → AnswersOn shared.now pass.old pass.new parsed result }
{
    let (alloc, point) = look(rt, shared, pass);
    let value = declined(alloc, refusal, point);
    Told { value, point }
}

//! What a message asks, which call answers it, and the reply to it.
ghost use Rattle.wk_http.specs.Requests.{message_in};
ghost use Rattle.wk_request.specs.Asked.{request_asked};
ghost use Rattle.wk_request_rules.specs.Requests.{valid};
ghost use Rattle.wk_replica_reads.specs.Looks.{IsFree};
ghost use Rattle.wk_session_rules.specs.Replies.{asked};
ghost use Rattle.wk_replica_reads.specs.Telling.{AnswersMessage, AnswersOn};

use crate::answers::{answer_now, decline};
use crate::reads::expand_now;
use crate::telling::Told;
use std::alloc::Global;
use std::sync::Wait;
use wk_base::Gate;
use wk_expand::Trees;
use wk_http::HttpRequest;
use wk_replica::Replica;
use wk_request::{Asked, Request};
use wk_sending::{Answer, request_in, status_of};
use wk_turn::{Pass, Turn};

/// Answers what a request asks. It waits.
fn answer_request<R: Wait, G: Gate>(
    rt: &R,
    shared: &Turn<Replica>,
    alloc: Global,
    pass: &mut Pass<Replica>,
    request: &Request,
    trees: &mut Trees,
    gate: &mut G,
) -> Told
    requires { IsFree shared.now pass.old }
    ensures { AnswersOn shared.now pass.old pass.new (valid (request_asked request.now)) result }
{
    match request.ask.asked() {
        Asked::Read(read) => expand_now(rt, shared, alloc, pass, request, &read, trees, gate),
        _ => answer_now(rt, shared, pass, request, trees),
    }
}

/// Answers what a message asks of the API. It waits.
fn answer_asked<R: Wait, G: Gate>(
    rt: &R,
    shared: &Turn<Replica>,
    alloc: Global,
    pass: &mut Pass<Replica>,
    message: &HttpRequest,
    trees: &mut Trees,
    gate: &mut G,
) -> Told
    requires { IsFree shared.now pass.old }
    ensures { AnswersOn shared.now pass.old pass.new (asked (message_in message.now)) result }
{
    match request_in(alloc, message) {
        Ok(request) => answer_request(rt, shared, alloc, pass, &request, trees, gate),
        Err(refusal) => decline(rt, shared, pass, &refusal),
    }
}

/// The reply to a message. It waits.
pub fn answer_message<R: Wait, G: Gate>(
    rt: &R,
    shared: &Turn<Replica>,
    alloc: Global,
    pass: &mut Pass<Replica>,
    message: &HttpRequest,
    trees: &mut Trees,
    gate: &mut G,
) -> Answer
    requires { IsFree shared.now pass.old }
    ensures { AnswersMessage shared.now pass.old pass.new (message_in message.now) result }
{
    let status = status_of(message);
    if status != 200 {
        return Answer::bare(alloc, status);
    }
    let told = answer_asked(rt, shared, alloc, pass, message, trees, gate);
    let Told { value, point } = told;
    Answer::told(alloc, value, point)
}

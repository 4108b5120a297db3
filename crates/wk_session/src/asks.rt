//! What a message asks, and which call answers it.
ghost use Rattle.std.specs.Prelude.{◌≡◌, None};
ghost use Rattle.wk_wiki_laws.specs.Kept.{IsKept};
ghost use Rattle.wk_http.specs.Requests.{message_in};
ghost use Rattle.wk_request.specs.Asked.{request_asked};
ghost use Rattle.wk_request_rules.specs.Requests.{valid};
ghost use Rattle.wk_shared.specs.Calls.{IsFree, MayFail};
ghost use Rattle.wk_session_rules.specs.Replies.{asked};
ghost use Rattle.wk_session.specs.Telling.{AnswersAsked};

use crate::acts::{answer_now, decline};
use crate::reads::expand_now;
use crate::saves::save_now;
use crate::telling::Told;
use std::alloc::Global;
use std::sync::Wait;
use wk_base::{Clock, Gate};
use wk_core::Keeper;
use wk_expand::Trees;
use wk_http::HttpRequest;
use wk_readers::Worker;
use wk_request::{Asked, Request};
use wk_sending::request_in;
use wk_shared::Shared;

/// Does what a request asks. A moment is taken where a save is asked for. It waits.
fn carry_out<K: Keeper, R: Wait, C: Clock, G: Gate>(
    shared: &Shared<K>,
    rt: &R,
    alloc: Global,
    worker: &mut Worker<K, G>,
    request: &Request,
    clock: &mut C,
    trees: &mut Trees,
) -> Told
    requires free { IsFree shared.now worker.old.reader.pass }
    requires unsealed { shared.now.start.sealed ≡ None }
    requires kept { IsKept shared.now.start.state }
    ensures { AnswersAsked shared.now (MayFail shared.now.start) worker.old.reader.pass worker.new.reader.pass
        (valid (request_asked request.now)) (C.left clock.old) (C.left clock.new) result }
{
    match request.ask.asked() {
        Asked::Save(save) => {
            let moment = clock.now();
            save_now(shared, rt, alloc, worker, request, &save, moment, trees)
        }
        Asked::Read(read) => expand_now(shared, rt, alloc, worker, request, &read, trees),
        Asked::List(_) => answer_now(shared, rt, &mut worker.reader, request, trees),
        Asked::Site(_) => answer_now(shared, rt, &mut worker.reader, request, trees),
    }
}

/// Does what a message asks of the API. It waits.
pub fn answer_asked<K: Keeper, R: Wait, C: Clock, G: Gate>(
    shared: &Shared<K>,
    rt: &R,
    alloc: Global,
    worker: &mut Worker<K, G>,
    message: &HttpRequest,
    clock: &mut C,
    trees: &mut Trees,
) -> Told
    requires free { IsFree shared.now worker.old.reader.pass }
    requires unsealed { shared.now.start.sealed ≡ None }
    requires kept { IsKept shared.now.start.state }
    ensures { AnswersAsked shared.now (MayFail shared.now.start) worker.old.reader.pass worker.new.reader.pass
        (asked (message_in message.now)) (C.left clock.old) (C.left clock.new) result }
{
    match request_in(alloc, message) {
        Ok(request) => carry_out(shared, rt, alloc, worker, &request, clock, trees),
        Err(refusal) => decline(shared, rt, &mut worker.reader, &refusal),
    }
}

//! The reply to a message.
ghost use Rattle.std.specs.Prelude.{◌≡◌, None};
ghost use Rattle.wk_http.specs.Requests.{message_in};
ghost use Rattle.wk_wiki_laws.specs.Kept.{IsKept};
ghost use Rattle.wk_shared.specs.Calls.{IsFree, MayFail};
ghost use Rattle.wk_session.specs.Telling.{AnswersMessage};

use crate::asks::answer_asked;
use crate::telling::Told;
use std::alloc::Global;
use std::sync::Wait;
use wk_base::{Clock, Gate};
use wk_core::Keeper;
use wk_expand::Trees;
use wk_http::HttpRequest;
use wk_readers::Worker;
use wk_sending::{Answer, status_of};
use wk_shared::Shared;

/// The reply to a message. It waits.
pub fn answer_message<K: Keeper, R: Wait, C: Clock, G: Gate>(
    shared: &Shared<K>,
    rt: &R,
    alloc: Global,
    worker: &mut Worker<K, G>,
    message: &HttpRequest,
    clock: &mut C,
    trees: &mut Trees,
) -> Answer
    requires free { IsFree shared.now worker.old.reader.pass }
    requires unsealed { shared.now.start.sealed ≡ None }
    requires kept { IsKept shared.now.start.state }
    ensures { AnswersMessage shared.now (MayFail shared.now.start) worker.old.reader.pass worker.new.reader.pass
        (message_in message.now) (C.left clock.old) (C.left clock.new) result }
{
    let status = status_of(message);
    if status != 200 {
        return Answer::bare(alloc, status);
    }
    let told = answer_asked(shared, rt, alloc, worker, message, clock, trees);
    let Told { value, point } = told;
    Answer::told(alloc, value, point)
}

//! What is answered under one turn.
ghost use Rattle.std.specs.Prelude.{◌≡◌, ℕ, List, ◌∷◌, [], None, Some, false, true};
ghost use Rattle.wk_request.specs.Asked.{ask_of, request_asked};
ghost use Rattle.wk_request.specs.Refusals.{Refuses};
ghost use Rattle.wk_request_rules.specs.Requests.{ParsedRequest, text_to_transform, valid};
ghost use Rattle.wk_answer_rules.specs.Answers.{asks_to_save};
ghost use Rattle.wk_read_laws.specs.Points.{AreReadSince};
ghost use Rattle.wk_shared.specs.Calls.{IsFree, MayFail};
ghost use Rattle.wk_session_rules.specs.Replies.{AreMomentsOf};
ghost use Rattle.wk_session.specs.Telling.{AnswersOn, IsTried};

use crate::desk::{give, look, take};
use crate::telling::{Told, no_memory};
use std::sync::Wait;
use wk_answer::{act, act_with, answer, declined};
use wk_core::Keeper;
use wk_expand::Trees;
use wk_readers::Reader;
use wk_request::{Request, RequestRefusal};
use wk_shared::Shared;
use wk_subst::Substituted;

/// Makes the save that a request asks for at this moment, under one turn: where the text of an edit is to be transformed, it
/// is transformed with the turn held. It waits.
pub fn act_now<K: Keeper, R: Wait>(
    shared: &Shared<K>,
    rt: &R,
    reader: &mut Reader<K>,
    request: &Request,
    moment: u64,
    trees: &mut Trees,
) -> Told
    requires free { IsFree shared.now reader.old.pass }
    requires unsealed { shared.now.start.sealed ≡ None }
    requires asks { asks_to_save (ask_of request.now.ask) ≡ true }
    ensures { AnswersOn shared.now (MayFail shared.now.start) reader.old.pass reader.new.pass
        (valid (request_asked request.now)) (moment ∷ []) result }
{
    let mut held = take(shared, rt, reader);
    let acted = act(&mut held.value, request, moment, trees);
    let alloc = held.value.allocator();
    let point = give(shared, reader, held);
    match acted {
        Ok(value) => Told {
            value: Ok(value),
            point,
        },
        Err(_) => no_memory(alloc, point),
    }
}

/// Makes the save of an edit at this moment, under one turn, by what its text became before; none where a read of that isn't
/// current any more, and nothing has happened then. It waits.
pub fn act_made<K: Keeper, R: Wait>(
    shared: &Shared<K>,
    rt: &R,
    reader: &mut Reader<K>,
    request: &Request,
    made: &Substituted,
    moment: u64,
) -> Option<Told>
    requires free { IsFree shared.now reader.old.pass }
    requires unsealed { shared.now.start.sealed ≡ None }
    requires asks { asks_to_save (ask_of request.now.ask) ≡ true }
    requires given { text_to_transform (request_asked request.now) ≡ Some made.now.saved }
    requires since { (from : ℕ) × AreReadSince shared.now.start reader.old.pass.seen from made.now.reads }
    ensures { IsTried shared.now (MayFail shared.now.start) reader.old.pass reader.new.pass
        (valid (request_asked request.now)) moment result }
{
    let mut held = take(shared, rt, reader);
    let acted = act_with(&mut held.value, request, made, moment);
    let alloc = held.value.allocator();
    let point = give(shared, reader, held);
    match acted {
        Ok(answer) => match answer {
            Some(value) => Some(Told {
                value: Ok(value),
                point,
            }),
            None => None,
        },
        Err(_) => Some(no_memory(alloc, point)),
    }
}

/// Answers a request that asks for no save, under one turn. It waits.
pub fn answer_now<K: Keeper, R: Wait>(
    shared: &Shared<K>,
    rt: &R,
    reader: &mut Reader<K>,
    request: &Request,
    trees: &mut Trees,
) -> Told
    requires free { IsFree shared.now reader.old.pass }
    requires asks { asks_to_save (ask_of request.now.ask) ≡ false }
    ensures { AnswersOn shared.now (MayFail shared.now.start) reader.old.pass reader.new.pass
        (valid (request_asked request.now)) [] result }
{
    let held = take(shared, rt, reader);
    let answered = answer(&held.value, request, trees);
    let alloc = held.value.allocator();
    let point = give(shared, reader, held);
    match answered {
        Ok(value) => Told {
            value: Ok(value),
            point,
        },
        Err(_) => no_memory(alloc, point),
    }
}

/// Answers that memory is wanting, at the present point: also where it was wanting before it was known whether a moment is to be
/// taken. It waits.
pub fn starve<K: Keeper, R: Wait>(shared: &Shared<K>, rt: &R, reader: &mut Reader<K>) -> Told
    requires { IsFree shared.now reader.old.pass }
    ensures unread { (parsed : ParsedRequest) → AnswersOn shared.now (MayFail shared.now.start)
        reader.old.pass reader.new.pass parsed [] result }
    ensures timed { (parsed : ParsedRequest) (moments : List ℕ) → AreMomentsOf parsed moments
        → AnswersOn shared.now (MayFail shared.now.start) reader.old.pass reader.new.pass parsed moments result }
{
    let (alloc, point) = look(shared, rt, reader);
    no_memory(alloc, point)
}

/// Answers parameters that ask nothing, or for which memory is wanting, at the present point. It waits.
pub fn decline<K: Keeper, R: Wait>(
    shared: &Shared<K>,
    rt: &R,
    reader: &mut Reader<K>,
    refusal: &RequestRefusal,
) -> Told
    requires { IsFree shared.now reader.old.pass }
    ensures { (parsed : ParsedRequest) → Refuses parsed refusal.now
        → AnswersOn shared.now (MayFail shared.now.start) reader.old.pass reader.new.pass parsed [] result }
{
    let (alloc, point) = look(shared, rt, reader);
    let value = declined(alloc, refusal, point);
    Told { value, point }
}

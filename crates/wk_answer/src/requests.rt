//! The answers to requests.
ghost use Rattle.std.specs.Prelude.{◌≡◌, ℕ, true, false, None, Some, length, nat_lt, IfOk, IfSome, IsSome, OnErr};
ghost use Rattle.serde_json.specs.View.{view};
ghost use Rattle.wk_page_rules.specs.History.{text_of_revision};
ghost use Rattle.wk_view_rules.specs.Worlds.{IsHonest};
ghost use Rattle.wk_wiki_rules.specs.States.{world_of};
ghost use Rattle.wk_wiki_rules.specs.Staleness.{first_stale};
ghost use Rattle.wk_request_rules.specs.Requests.{text_to_transform};
ghost use Rattle.wk_request.specs.Asked.{ask_of, request_asked};
ghost use Rattle.wk_core.specs.Steps.{GoesOn, HasMadeNothing};
ghost use Rattle.wk_answer_rules.specs.Answers.{answer_to_request, asks_to_save};
ghost use Rattle.wk_saving.specs.Saved.{IsActed};

use crate::reading::{list_answer, read_answer, site_answer};
use serde_json::Value;
use wk_core::{Keeper, Wiki};
use wk_expand::Trees;
use wk_memory::Memory;
use wk_replies::future_point;
use wk_request::{Ask, Asked, Request};
use wk_saving::{edit_with, save_asked, save_substituted};
use wk_subst::Substituted;

/// Whether the least point that the request asks for is above this one.
fn is_early(request: &Request, point: u64) -> bool
    ensures { result ≡ nat_lt point request.now.least }
{
    point < request.least
}

/// What is answered to a request that asks for no save, in the present state and at the present point (MediaWiki's
/// API:Main page and the page of each module); an error where that point is below the least one that the request asks
/// for. `trees` keeps parsed texts.
pub fn answer<K: Keeper>(
    wiki: &Wiki<K>,
    request: &Request,
    trees: &mut Trees,
) -> Result<Value, Memory>
    requires { asks_to_save (ask_of request.now.ask) ≡ false }
    ensures { (moment : ℕ) → IfOk result (λ v. view v
        ≡ (answer_to_request wiki.now.start.limits wiki.now.state (length wiki.now.journal) moment (request_asked request.now)).reply.value) }
{
    let alloc = wiki.allocator();
    let point = wiki.point();
    if is_early(request, point) {
        return Ok(future_point(alloc, point, point)?);
    }
    let live = wiki.live();
    match request.ask.asked() {
        Asked::Save(_) => unreachable!(),
        Asked::Read(asked) => read_answer(alloc, live, point, &asked, trees),
        Asked::List(asked) => list_answer(alloc, live, point, &asked),
        Asked::Site(asked) => site_answer(alloc, live, point, asked),
    }
}

/// Does what a request asks, at this many seconds since 1970, and gives the answer (MediaWiki's API:Main page and the page
/// of each module). An edit and a deletion make the event of their save, where they aren't refused and change something;
/// nothing else makes an event. The text of an edit that asks for it is transformed in the present state before it is judged
/// (MediaWiki's Help:Substitution). Where the store fails at such an event its count of faults rose, nothing happened, and the
/// answer is that error. Where a save is asked for, the wiki isn't sealed.
///
/// All memory is taken before the save: after `Memory` the wiki is as before, and the store hasn't failed. `trees` keeps parsed texts; a save takes none.
pub fn act<K: Keeper>(
    wiki: &mut Wiki<K>,
    request: &Request,
    now: u64,
    trees: &mut Trees,
) -> Result<Value, Memory>
    requires unsealed { asks_to_save (ask_of request.now.ask) ≡ true → wiki.old.start.sealed ≡ None }
    ensures acted { IfOk result (λ v. IsActed K.told K.faults wiki.old wiki.new
        (answer_to_request wiki.old.start.limits wiki.old.state (length wiki.old.journal) now (request_asked request.now)) (view v)) }
    ensures memory { OnErr result (HasMadeNothing K.told wiki.old wiki.new) }
    ensures no_fault { OnErr result (K.faults wiki.new.keeper ≡ K.faults wiki.old.keeper) }
    ensures keeper { GoesOn K.told K.faults wiki.old wiki.new }
{
    let Asked::Save(asked) = request.ask.asked() else {
        return answer(wiki, request, trees);
    };
    let point = wiki.point();
    if is_early(request, point) {
        return Ok(future_point(wiki.allocator(), point, point)?);
    }
    if request.subst {
        return save_substituted(wiki, &asked, now);
    }
    save_asked(wiki, &asked, now)
}

/// Makes the edit that a request asks for, whose text was transformed before by texts of revisions that the wiki has, at this
/// many seconds since 1970, and gives the answer. It is that of `act`, with the same event, where each read of the transform is
/// current; so it is where an error comes before the transform: that the least point isn't reached, that the title names no page,
/// or that the text as it was given is too long. Else it is none, and nothing has happened. The wiki isn't sealed.
///
/// All memory is taken before the save: after `Memory` the wiki is as before, and the store hasn't failed.
pub fn act_with<K: Keeper>(
    wiki: &mut Wiki<K>,
    request: &Request,
    made: &Substituted,
    now: u64,
) -> Result<Option<Value>, Memory>
    requires unsealed { wiki.old.start.sealed ≡ None }
    requires asked { text_to_transform (request_asked request.now) ≡ Some made.now.saved }
    requires honest { IsHonest (text_of_revision wiki.old.state.history) made.now.reads }
    ensures acted { IfOk result (λ answer. IfSome answer (λ v. IsActed K.told K.faults wiki.old wiki.new
        (answer_to_request wiki.old.start.limits wiki.old.state (length wiki.old.journal) now (request_asked request.now)) (view v))) }
    ensures stale { IfOk result (λ answer. answer ≡ None
        → HasMadeNothing K.told wiki.old wiki.new × IsSome (first_stale (world_of wiki.old.state) made.now.reads)) }
    ensures memory { OnErr result (HasMadeNothing K.told wiki.old wiki.new) }
    ensures no_fault { OnErr result (K.faults wiki.new.keeper ≡ K.faults wiki.old.keeper) }
    ensures keeper { GoesOn K.told K.faults wiki.old wiki.new }
{
    let point = wiki.point();
    if is_early(request, point) {
        return Ok(Some(future_point(wiki.allocator(), point, point)?));
    }
    match &request.ask {
        Ask::Edit(edit) => edit_with(wiki, edit, made, now),
        _ => unreachable!(),
    }
}

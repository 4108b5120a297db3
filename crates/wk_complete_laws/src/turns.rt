//! Calls of a wiki that many callers share, and that began over a whole store.
ghost use Rattle.std.specs.Prelude.{◌≡◌, None};
ghost use Rattle.wk_wiki_rules.specs.SaveOutcomes.{deletion};
ghost use Rattle.wk_revs.specs.Edit.{edit_asked};
ghost use Rattle.wk_shared.specs.Calls.{HasSeen, HoldsDraft, HoldsTicket, IsFree, IsMadeAt};
ghost use Rattle.wk_complete_laws.specs.Complete.{BeganOverAWholeStore, IsFinishInTurn, IsSaveInTurn};

use std::sync::Wait;
use wk_shared::{Draft, Edit, Finished, Keeper, Pass, SaveRefusal, Saved, Shared, Ticket, Wiki};

/// Saves an edit under the turn. In the state in which the call was made it is Ok exactly where the verdict on the edit is that
/// it is accepted, or that it changes nothing, and else the verdict's refusal; or it is `Memory`. It waits.
pub fn granted_edits_are_saved_in_turn<K: Keeper, R: Wait>(
    rt: &R,
    shared: &Shared<K>,
    pass: &mut Pass<Wiki<K>>,
    edit: &Edit,
    now: u64,
) -> (Result<Saved, SaveRefusal>, u64)
    requires free { IsFree shared.now pass.old }
    requires unsealed { shared.now.start.sealed ≡ None }
    requires whole { BeganOverAWholeStore shared.now.start }
    ensures pass { HasSeen shared.now pass.old pass.new result.1 }
    ensures call { IsMadeAt shared.now.start pass.old pass.new (IsSaveInTurn (edit_asked edit.now) now result.0) }
{
    shared.save(rt, pass, edit, now)
}

/// Deletes a page under the turn: the same of the verdict on a deletion. It waits.
pub fn granted_deletions_are_made_in_turn<K: Keeper, R: Wait>(
    rt: &R,
    shared: &Shared<K>,
    pass: &mut Pass<Wiki<K>>,
    title: &str,
    base: Option<u64>,
    now: u64,
) -> (Result<Saved, SaveRefusal>, u64)
    requires free { IsFree shared.now pass.old }
    requires unsealed { shared.now.start.sealed ≡ None }
    requires whole { BeganOverAWholeStore shared.now.start }
    ensures pass { HasSeen shared.now pass.old pass.new result.1 }
    ensures call { IsMadeAt shared.now.start pass.old pass.new (IsSaveInTurn (deletion title.now base) now result.0) }
{
    shared.remove(rt, pass, title, base, now)
}

/// Finishes a refresh under the turn. In the state in which the call was made it is done exactly where each read of the draft
/// is current, and else the first that isn't is told; or it is `Memory`. It waits.
pub fn current_reads_are_finished_in_turn<K: Keeper, R: Wait>(
    rt: &R,
    shared: &Shared<K>,
    pass: &mut Pass<Wiki<K>>,
    ticket: Ticket,
    draft: Draft,
) -> (Finished, u64)
    requires free { IsFree shared.now pass.old }
    requires ticket { HoldsTicket shared.now.start pass.old ticket }
    requires draft { HoldsDraft shared.now.start pass.old ticket draft }
    requires whole { BeganOverAWholeStore shared.now.start }
    ensures pass { HasSeen shared.now pass.old pass.new result.1 }
    ensures call { IsMadeAt shared.now.start pass.old pass.new (IsFinishInTurn ticket.ticket draft.reads result.0) }
{
    shared.finish_job(rt, pass, ticket, draft)
}

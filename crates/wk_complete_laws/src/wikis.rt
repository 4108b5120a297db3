//! Calls of a wiki over a whole store, which it is over behind each of them too.
ghost use Rattle.std.specs.Prelude.{◌≡◌, ◌≢◌, Err, None};
ghost use Rattle.wk_wiki_rules.specs.States.{world_of};
ghost use Rattle.wk_wiki_rules.specs.Events.{Back};
ghost use Rattle.wk_wiki_rules.specs.Verdicts.{event_of};
ghost use Rattle.wk_wiki_rules.specs.SaveOutcomes.{deletion};
ghost use Rattle.wk_wiki_rules.specs.Staleness.{event_of_finish};
ghost use Rattle.wk_revs.specs.Edit.{edit_asked};
ghost use Rattle.wk_core.specs.Seen.{verdict_now};
ghost use Rattle.wk_core.specs.Steps.{HasMade, HasMadeAtMost, HasMadeNothing};
ghost use Rattle.wk_core.specs.Tickets.{IsDraftFor, IsOut};
ghost use Rattle.wk_complete_laws.specs.Complete.{IsFinishAnswer, IsOverAWholeStore, IsSaveAnswer};

use wk_core::{Draft, Edit, Finished, Keeper, SaveRefusal, Saved, Ticket, Wiki};

/// Saves an edit over a whole store. It is Ok exactly where the verdict on the edit is that it is accepted, or that it changes
/// nothing, and else the verdict's refusal; with the event of an accepted one, and no other. Or it is `Memory`, and nothing
/// happened.
pub fn granted_edits_are_saved<K: Keeper>(
    wiki: &mut Wiki<K>,
    edit: &Edit,
    now: u64,
) -> Result<Saved, SaveRefusal>
    requires unsealed { wiki.old.start.sealed ≡ None }
    requires whole { IsOverAWholeStore K.faults wiki.old }
    ensures answered { result ≢ Err SaveRefusal.Memory
        → IsSaveAnswer wiki.old.state.history (verdict_now wiki.old (edit_asked edit.now)) result }
    ensures event { result ≢ Err SaveRefusal.Memory
        → HasMadeAtMost K.told wiki.old wiki.new (event_of (verdict_now wiki.old (edit_asked edit.now)) now) }
    ensures memory { result ≡ Err SaveRefusal.Memory → HasMadeNothing K.told wiki.old wiki.new }
    ensures start { wiki.new.start ≡ wiki.old.start }
    ensures whole { IsOverAWholeStore K.faults wiki.new }
{
    wiki.save(edit, now)
}

/// Deletes a page over a whole store: the same of the verdict on a deletion.
pub fn granted_deletions_are_made<K: Keeper>(
    wiki: &mut Wiki<K>,
    title: &str,
    base: Option<u64>,
    now: u64,
) -> Result<Saved, SaveRefusal>
    requires unsealed { wiki.old.start.sealed ≡ None }
    requires whole { IsOverAWholeStore K.faults wiki.old }
    ensures answered { result ≢ Err SaveRefusal.Memory
        → IsSaveAnswer wiki.old.state.history (verdict_now wiki.old (deletion title.now base)) result }
    ensures event { result ≢ Err SaveRefusal.Memory
        → HasMadeAtMost K.told wiki.old wiki.new (event_of (verdict_now wiki.old (deletion title.now base)) now) }
    ensures memory { result ≡ Err SaveRefusal.Memory → HasMadeNothing K.told wiki.old wiki.new }
    ensures start { wiki.new.start ≡ wiki.old.start }
    ensures whole { IsOverAWholeStore K.faults wiki.new }
{
    wiki.remove(title, base, now)
}

/// Finishes a refresh over a whole store. It is done exactly where each read of the draft is current, and else the first that
/// isn't is told; with the event of that. Or it is `Memory`, and the ticket is given back.
pub fn current_reads_are_finished<K: Keeper>(
    wiki: &mut Wiki<K>,
    ticket: Ticket,
    draft: Draft,
) -> Finished
    requires out { IsOut wiki.old.state ticket }
    requires draft { IsDraftFor wiki.old.state ticket draft }
    requires whole { IsOverAWholeStore K.faults wiki.old }
    ensures answered { result ≢ Finished.Memory → IsFinishAnswer (world_of wiki.old.state) draft.reads result }
    ensures event { result ≢ Finished.Memory
        → HasMade wiki.old wiki.new (event_of_finish (world_of wiki.old.state) draft.reads ticket.ticket) }
    ensures memory { result ≡ Finished.Memory → HasMade wiki.old wiki.new (Back ticket.ticket) }
    ensures start { wiki.new.start ≡ wiki.old.start }
    ensures whole { IsOverAWholeStore K.faults wiki.new }
{
    wiki.finish(ticket, draft)
}

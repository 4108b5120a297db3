//! Refreshes on one thread.
ghost use Rattle.std.specs.Prelude.{◌≡◌, ◌≢◌, ◌⊎◌, ◌+◌, ◌∷◌, [], true, false, None, IsSome, length, OnOk};
ghost use Rattle.wk_base.specs.Faults.{Rose};
ghost use Rattle.wk_wiki_rules.specs.Jobs.{first_queued};
ghost use Rattle.wk_wiki_rules.specs.Events.{Back, Claim, Done};
ghost use Rattle.wk_wiki_laws.specs.Tickets.{tickets_of};
ghost use Rattle.wk_core.specs.Answers.{event_of_answer, told_stale};
ghost use Rattle.wk_core.specs.Seen.{is_claim_refused_now};
ghost use Rattle.wk_core.specs.Steps.{GoesOn, HasMade};
ghost use Rattle.wk_core.specs.Tickets.{IsOut};
ghost use Rattle.wk_tools.specs.Lived.{HasMadeEach};

use thiserror::Error;
use wk_core::{ClaimRefusal, Finished, Keeper, Ticket, Wiki, a_draft_stays_fit};
use wk_expand::{Root, Trees};
use wk_life_laws::refreshes::present_answers_have_present_marks;
use wk_live::draft_now;

/// Why no page was refreshed.
#[derive(Clone, Copy, Debug, PartialEq, Eq, Error)]
pub enum RefreshRefusal {
    /// The journal has no room for the claim and for the event by which its ticket comes in again.
    #[error("the journal is full")]
    JournalFull,
    /// The store failed.
    #[error("the store failed")]
    StoreFault,
    /// Memory ran out.
    #[error("out of memory")]
    Memory,
}

/// Drafts the page of a ticket that is out, and brings the ticket in: with the draft, or, where memory runs out for it, by
/// giving it back.
fn bring_in<K: Keeper>(wiki: &mut Wiki<K>, ticket: Ticket, trees: &mut Trees) -> Finished
    requires out { IsOut wiki.old.state ticket }
    ensures event { HasMade wiki.old wiki.new (event_of_answer ticket.ticket result) }
    ensures not_stale { told_stale result ≡ None }
    ensures tables { result ≢ Finished.Done → K.told wiki.new.keeper ≡ K.told wiki.old.keeper }
    ensures keeper { GoesOn K.told K.faults wiki.old wiki.new }
    ensures fault { result ≡ Finished.StoreFault → Rose (K.faults wiki.old.keeper) (K.faults wiki.new.keeper) }
    ensures no_fault { result ≢ Finished.StoreFault → K.faults wiki.new.keeper ≡ K.faults wiki.old.keeper }
{
    let drafted = draft_now(
        wiki.allocator(),
        wiki.live(),
        ticket.title(),
        &Root::Page,
        trees,
    );
    match drafted {
        Ok(draft) => {
            a_draft_stays_fit();
            present_answers_have_present_marks();
            wiki.finish(ticket, draft)
        }
        Err(_) => {
            wiki.give_back(ticket);
            Finished::Memory
        }
    }
}

/// Refreshes one page on one thread: claims the first refresh job that is queued, drafts its page, and finishes, so that the
/// page's link rows are those that it has in the present world and its job is gone. `trees` keeps parsed texts.
///
/// `Ok(false)` exactly where no refresh job is queued. `JournalFull` exactly where one is and the journal has no room for
/// the claim and for the event by which its ticket comes in; the wiki is then as before. `StoreFault` comes only where the
/// keeper's count of faults rose, and at each other answer that count is as it was; `Memory` may come: behind a claim, the
/// job is then queued again. Whatever is answered, the tickets that are out are those that were: none is left out. What was
/// drafted is never stale, since nothing comes between.
pub fn refresh_here<K: Keeper>(
    wiki: &mut Wiki<K>,
    trees: &mut Trees,
) -> Result<bool, RefreshRefusal>
    ensures done { result ≡ Ok true → HasMadeEach wiki.old wiki.new (Claim ∷ Done (length wiki.old.journal + 1) ∷ []) }
    ensures queued { result ≡ Ok true → IsSome (first_queued wiki.old.state.jobs) × (is_claim_refused_now wiki.old ≡ false) }
    ensures none { result ≡ Ok false → (first_queued wiki.old.state.jobs ≡ None) × (wiki.new ≡ wiki.old) }
    ensures full { result ≡ Err RefreshRefusal.JournalFull
        → IsSome (first_queued wiki.old.state.jobs) × (is_claim_refused_now wiki.old ≡ true) × (wiki.new ≡ wiki.old) }
    ensures failed { result ≡ Err RefreshRefusal.StoreFault
        → HasMadeEach wiki.old wiki.new (Claim ∷ Back (length wiki.old.journal + 1) ∷ []) }
    ensures memory { result ≡ Err RefreshRefusal.Memory
        → (wiki.new ≡ wiki.old) ⊎ HasMadeEach wiki.old wiki.new (Claim ∷ Back (length wiki.old.journal + 1) ∷ []) }
    ensures tickets { tickets_of wiki.new.state.jobs ≡ tickets_of wiki.old.state.jobs }
    ensures tables { result ≢ Ok true → K.told wiki.new.keeper ≡ K.told wiki.old.keeper }
    ensures keeper { GoesOn K.told K.faults wiki.old wiki.new }
    ensures fault { result ≡ Err RefreshRefusal.StoreFault → Rose (K.faults wiki.old.keeper) (K.faults wiki.new.keeper) }
    ensures no_fault { result ≢ Err RefreshRefusal.StoreFault → K.faults wiki.new.keeper ≡ K.faults wiki.old.keeper }
{
    wiki.facts();
    match wiki.claim() {
        Ok(Some(ticket)) => match bring_in(wiki, ticket, trees) {
            Finished::Done => Ok(true),
            Finished::Stale { .. } => unreachable!(),
            Finished::StoreFault => Err(RefreshRefusal::StoreFault),
            Finished::Memory => Err(RefreshRefusal::Memory),
        },
        Ok(None) => Ok(false),
        Err(ClaimRefusal::JournalFull) => Err(RefreshRefusal::JournalFull),
        Err(ClaimRefusal::Memory) => Err(RefreshRefusal::Memory),
    }
}

//! The lines of refreshes that were done: the page is drafted anew, in the present world, and its link rows are set.
ghost use Rattle.std.specs.Prelude.{◌≡◌, None, Some};
ghost use Rattle.wk_view_rules.specs.Worlds.{Agrees, of_world};
ghost use Rattle.wk_wiki_rules.specs.States.{world_of};
ghost use Rattle.wk_wiki_rules.specs.Claims.{ClaimOutcome};
ghost use Rattle.wk_core.specs.Tickets.{IsOut, ticket_out};
ghost use Rattle.wk_feed_rules.specs.Lines.{done};
ghost use Rattle.wk_replica.specs.Followed.{IsFollowed};

use crate::events::EventRefusal;
use wk_core::{Draft, Finished, Ticket, Wiki, a_draft_stays_fit};
use wk_expand::{Root, Trees};
use wk_keeper::MemKeeper;
use wk_life_laws::refreshes::present_answers_have_present_marks;
use wk_live::draft_now;

/// Finishes the refresh of a ticket that is out with a draft of its page, each of whose reads is current. Where memory runs out its
/// job is queued again, which is another event.
fn finish_drafted(
    wiki: &mut Wiki<MemKeeper>,
    ticket: Ticket,
    draft: Draft,
) -> Result<(), EventRefusal>
    requires out { IsOut wiki.old.state ticket }
    requires page { draft.page ≡ ticket.title }
    requires own_text { draft.given ≡ None }
    requires current { Agrees (of_world (world_of wiki.old.state)) draft.reads }
    ensures { IsFollowed wiki.old (done ticket.ticket) wiki.new result }
{
    a_draft_stays_fit();
    present_answers_have_present_marks();
    match wiki.finish(ticket, draft) {
        Finished::Done => Ok(()),
        Finished::Memory => Err(EventRefusal::Lost),
        Finished::Stale { .. } => unreachable!(),
        Finished::StoreFault => unreachable!(),
    }
}

/// Drafts the page of a ticket that is out in the present world, and finishes its refresh.
fn finish_now(
    wiki: &mut Wiki<MemKeeper>,
    ticket: Ticket,
    trees: &mut Trees,
) -> Result<(), EventRefusal>
    requires out { IsOut wiki.old.state ticket }
    ensures { IsFollowed wiki.old (done ticket.ticket) wiki.new result }
{
    let alloc = wiki.allocator();
    match draft_now(alloc, wiki.live(), ticket.title(), &Root::Page, trees) {
        Ok(draft) => finish_drafted(wiki, ticket, draft),
        Err(_) => {
            let _number = ticket.let_go();
            Err(EventRefusal::Memory)
        }
    }
}

/// Finishes the refresh with this ticket in the present world. `trees` keeps parsed texts.
pub fn follow_done(
    wiki: &mut Wiki<MemKeeper>,
    number: u64,
    trees: &mut Trees,
) -> Result<(), EventRefusal>
    ensures { IsFollowed wiki.old (done number) wiki.new result }
{
    match wiki.ticket(number) {
        Ok(Some(ticket)) => finish_now(wiki, ticket, trees),
        Ok(None) => Err(EventRefusal::Bad),
        Err(_) => Err(EventRefusal::Memory),
    }
}

/// Finishes the refresh with this ticket with a draft that was made before: of the ticket's page, if it is out, and each of its
/// reads is current.
pub fn follow_drafted(
    wiki: &mut Wiki<MemKeeper>,
    number: u64,
    draft: Draft,
) -> Result<(), EventRefusal>
    requires page { (out : ClaimOutcome) → ticket_out wiki.old.state number ≡ Some out → draft.page ≡ out.title }
    requires own_text { draft.given ≡ None }
    requires current { Agrees (of_world (world_of wiki.old.state)) draft.reads }
    ensures { IsFollowed wiki.old (done number) wiki.new result }
{
    match wiki.ticket(number) {
        Ok(Some(ticket)) => finish_drafted(wiki, ticket, draft),
        Ok(None) => Err(EventRefusal::Bad),
        Err(_) => Err(EventRefusal::Memory),
    }
}

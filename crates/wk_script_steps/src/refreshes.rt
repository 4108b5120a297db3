//! The line `finish`.
ghost use Rattle.std.specs.Prelude.{◌≡◌, IfOk, List, Some, find};
ghost use Rattle.serde_json.specs.View.{view};
ghost use Rattle.wk_view_rules.specs.Plans.{done};
ghost use Rattle.wk_script_rules.specs.ScriptLines.{finish_line};
ghost use Rattle.wk_script_rules.specs.WikiScripts.{TicketDraft, drafted};
ghost use Rattle.wk_script_steps.specs.Drafts.{has_number, others};
ghost use Rattle.wk_script_steps.specs.Outcomes.{finish_reply};
ghost use Rattle.wk_script_steps.specs.Seen.{Holds, IsFit};
ghost use Rattle.wk_script_steps.specs.Told.{Answers};

use crate::{OpenTicket, place};
use serde_json::Value;
use std::alloc::Global;
use wk_core::{Finished, Wiki};
use wk_expand::{Draft, Step, Trees};
use wk_keeper::Keeper;
use wk_memory::Memory;
use wk_script_lines::{done, needs_read, no_memory, no_ticket, stale, store_fault};

/// What is told of how a refresh came in.
fn told_finish(alloc: Global, finished: &Finished, point: u64) -> Result<Value, Memory>
    ensures { IfOk result (λ v. view v ≡ (finish_reply finished.now point).value) }
{
    match finished {
        Finished::Done => done(alloc, point),
        Finished::Stale {
            title,
            kind,
            read,
            now,
        } => stale(alloc, title, *kind, *read, *now, point),
        Finished::StoreFault => store_fault(alloc, point),
        Finished::Memory => no_memory(alloc, point),
    }
}

/// Brings in the refresh of a ticket, one of these, whose draft needs nothing more.
fn bring_in<K: Keeper>(
    wiki: &mut Wiki<K>,
    ticket: OpenTicket,
    draft: Draft,
) -> Result<Value, Memory>
    requires fit { IsFit wiki.old.state ticket }
    requires page { draft.page ≡ ticket.title }
    requires own_text { draft.given ≡ None }
    requires drafted { drafted ticket ≡ done draft.expanded draft.reads }
    ensures { (drafts : List TicketDraft) → Holds wiki.old.state drafts → find (has_number ticket.ticket) drafts ≡ Some ticket
        → Answers K.told K.faults 0 (finish_line ticket.ticket) wiki.old wiki.new drafts (others ticket.ticket drafts) result }
{
    wiki.facts();
    let finished = wiki.finish(ticket.into_ticket(), draft);
    told_finish(wiki.allocator(), &finished, wiki.point())
}

/// Gives a ticket, one of these, back, for whose draft memory is wanting.
fn refuse<K: Keeper>(wiki: &mut Wiki<K>, ticket: OpenTicket) -> Result<Value, Memory>
    requires fit { IsFit wiki.old.state ticket }
    ensures { (drafts : List TicketDraft) → Holds wiki.old.state drafts → find (has_number ticket.ticket) drafts ≡ Some ticket
        → Answers K.told K.faults 0 (finish_line ticket.ticket) wiki.old wiki.new drafts (others ticket.ticket drafts) result }
{
    wiki.facts();
    let alloc = wiki.allocator();
    wiki.give_back(ticket.into_ticket());
    no_memory(alloc, wiki.point())
}

/// Brings in the refresh of the ticket of this number, where its draft needs nothing more: the reply's value. `trees` keeps
/// parsed texts.
///
/// It tells `done`, or `stale` with the first read that isn't current any more; `storefault`, only where the store's count
/// of faults rose; `nomemory`. At each of these the ticket comes in, and at each but `done` its job is queued again, behind
/// all others. `needsread` with what the draft needs next, and `notticket` where no ticket that is out has this number,
/// leave all as it was. It shows the point behind the line. `Memory` where there is none for the value: what came in has
/// come in.
pub fn finish<K: Keeper>(
    wiki: &mut Wiki<K>,
    tickets: &mut Vec<OpenTicket>,
    trees: &mut Trees,
    number: u64,
) -> Result<Value, Memory>
    requires holds { Holds wiki.old.state tickets.old.items }
    ensures { Answers K.told K.faults 0 (finish_line number) wiki.old wiki.new tickets.old.items tickets.new.items result }
{
    let alloc = wiki.allocator();
    let Some(at) = place(tickets.as_slice(), number) else {
        return no_ticket(alloc, wiki.point());
    };
    let ticket = &mut tickets[at];
    match ticket.step(alloc, trees) {
        Ok(Step::Done(draft)) => bring_in(wiki, tickets.remove(at), draft),
        Ok(Step::Needs(title, kind)) => needs_read(alloc, &title, kind, wiki.point()),
        Err(Memory) => refuse(wiki, tickets.remove(at)),
    }
}

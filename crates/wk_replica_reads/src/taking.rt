//! Lines of a feed that are taken of a shared replica, while sessions go on.
ghost use Rattle.std.specs.Prelude.{◌≡◌, ◌++◌, ℕ, false, IfOk, IfSome, IsSome, IsTrue, None, Some};
ghost use mathlib.Core.List.{IsPrefix};
ghost use Rattle.wk_wiki_rules.specs.Claims.{ClaimOutcome};
ghost use Rattle.wk_feed_rules.specs.Lines.{done};
ghost use Rattle.wk_feed_lines.specs.Said.{line_of};
ghost use Rattle.wk_core.specs.Tickets.{ticket_out};
ghost use Rattle.wk_turn.specs.Journal.{added};
ghost use Rattle.wk_turn.specs.Told.{IsOf};
ghost use Rattle.wk_read_laws.specs.Points.{AreReadSince};
ghost use Rattle.wk_replica.specs.Taken.{IsTaken, IsTakenLine};
ghost use Rattle.wk_replica_reads.specs.Looks.{HasRead, IsFree};
ghost use Rattle.wk_replica_reads.specs.Taking.{AreRunning, FitsTicket, TakesLine, TakesSaidLine};

use crate::apart::draft_apart;
use crate::desk::{give, look, take};
use crate::replicas::found_here;
use std::alloc::Global;
use std::sync::Wait;
use wk_base::Gate;
use wk_core::{Draft, Wiki};
use wk_expand::{Root, Trees};
use wk_memory::Memory;
use wk_replica::{EventLine, FeedLine, MemKeeper, Replica, TakeRefusal, read_line};
use wk_title::Title;
use wk_turn::{Held, Pass, Turn};

/// Gives back a replica of which a line was taken. No memory.
fn give_taken(shared: &Turn<Replica>, pass: &mut Pass<Replica>, held: Held<Replica>)
    requires turn { IsOf shared.now pass.old }
    requires entered { pass.old.held ≡ Some held.before.value.journal }
    requires start { held.value.start ≡ shared.now.start }
    requires journal { IsPrefix held.before.value.journal held.value.journal }
    ensures { pass.new ≡ record pass.old {
      seen = held.value.journal;
      own = pass.old.own ++ added held.before.value.journal held.value.journal;
      held = None;
    } }
{
    shared.leave(pass, held);
}

/// Takes a line, unless the replica is stopped.
fn take_here(replica: &mut Replica, line: &[u8]) -> Result<(), TakeRefusal>
    ensures taken { IsTakenLine replica.old line.now replica.new result }
    ensures running { AreRunning replica.old replica.new result }
{
    if replica.stopped() {
        return Err(TakeRefusal::Memory);
    }
    replica.facts();
    let taken = replica.take(line);
    replica.facts();
    taken
}

/// Takes a line with the turn held. It waits.
fn take_held<R: Wait>(
    rt: &R,
    shared: &Turn<Replica>,
    pass: &mut Pass<Replica>,
    line: &[u8],
) -> Result<(), TakeRefusal>
    requires free { IsFree shared.now pass.old }
    requires begun { IsSome shared.now.start.line }
    ensures free { IsFree shared.now pass.new }
    ensures taken { TakesLine shared.now pass.old pass.new line.now result }
{
    let mut held = take(rt, shared, pass);
    let taken = take_here(&mut held.value, line);
    give_taken(shared, pass, held);
    taken
}

/// Takes what a line says, unless the replica is stopped.
fn take_said_here(replica: &mut Replica, said: FeedLine) -> Result<(), TakeRefusal>
    ensures taken { IsTaken replica.old (line_of said) replica.new result }
    ensures running { AreRunning replica.old replica.new result }
{
    if replica.stopped() {
        return Err(TakeRefusal::Memory);
    }
    replica.facts();
    let taken = replica.take_said(said);
    replica.facts();
    taken
}

/// Takes what a line says, under one turn. It waits.
fn take_said<R: Wait>(
    rt: &R,
    shared: &Turn<Replica>,
    pass: &mut Pass<Replica>,
    said: FeedLine,
) -> Result<(), TakeRefusal>
    requires free { IsFree shared.now pass.old }
    requires begun { IsSome shared.now.start.line }
    ensures free { IsFree shared.now pass.new }
    ensures taken { TakesSaidLine shared.now pass.old pass.new (line_of said) result }
{
    let mut held = take(rt, shared, pass);
    let taken = take_said_here(&mut held.value, said);
    give_taken(shared, pass, held);
    taken
}

/// Whether the draft is of the page whose refresh has this ticket. False where memory runs out, or no refresh has the ticket.
fn is_of_ticket(wiki: &Wiki<MemKeeper>, ticket: u64, draft: &Draft) -> bool
    ensures { IsTrue result → (out : ClaimOutcome) → ticket_out wiki.now.state ticket ≡ Some out → draft.now.page ≡ out.title }
{
    match wiki.ticket(ticket) {
        Ok(Some(out)) => {
            let same = *draft.page() == *out.title();
            let _number = out.let_go();
            same
        }
        Ok(None) => false,
        Err(_) => false,
    }
}

/// Whether the draft is of the page whose refresh has this ticket, and each of its reads is current, in a replica that isn't
/// stopped.
fn fits_here(replica: &Replica, ticket: u64, draft: &Draft) -> bool
    requires going { replica.now.stopped ≡ false }
    requires since { (from : ℕ) × AreReadSince replica.now.start.wiki replica.now.journal from draft.now.reads }
    ensures { IsTrue result → FitsTicket replica.now.state ticket draft.now }
{
    let found = found_here(replica, draft);
    if !found.current {
        return false;
    }
    is_of_ticket(replica.wiki(), ticket, draft)
}

/// Takes the line that the refresh with this ticket was done: by a draft that was made before, where it is of the ticket's page and
/// each of its reads is current; else the page is drafted now.
fn finish_going(replica: &mut Replica, ticket: u64, draft: Draft) -> Result<(), TakeRefusal>
    requires going { replica.old.stopped ≡ false }
    requires own_text { draft.given ≡ None }
    requires since { (from : ℕ) × AreReadSince replica.old.start.wiki replica.old.journal from draft.reads }
    ensures { IsTaken replica.old (done ticket) replica.new result }
{
    if fits_here(replica, ticket, &draft) {
        return replica.take_done(ticket, draft);
    }
    replica.take_said(FeedLine::Event(EventLine::Done(ticket)))
}

/// The same, unless the replica is stopped.
fn finish_here(replica: &mut Replica, ticket: u64, draft: Draft) -> Result<(), TakeRefusal>
    requires own_text { draft.given ≡ None }
    requires since { (from : ℕ) × AreReadSince replica.old.start.wiki replica.old.journal from draft.reads }
    ensures taken { IsTaken replica.old (done ticket) replica.new result }
    ensures running { AreRunning replica.old replica.new result }
{
    if replica.stopped() {
        return Err(TakeRefusal::Memory);
    }
    replica.facts();
    let taken = finish_going(replica, ticket, draft);
    replica.facts();
    taken
}

/// Takes the line that the refresh with this ticket was done, under one turn, by a draft that was made before. It waits.
fn finish<R: Wait>(
    rt: &R,
    shared: &Turn<Replica>,
    pass: &mut Pass<Replica>,
    ticket: u64,
    draft: Draft,
) -> Result<(), TakeRefusal>
    requires free { IsFree shared.now pass.old }
    requires begun { IsSome shared.now.start.line }
    requires own_text { draft.given ≡ None }
    requires since { (from : ℕ) × AreReadSince shared.now.start.wiki pass.old.seen from draft.reads }
    ensures free { IsFree shared.now pass.new }
    ensures taken { TakesSaidLine shared.now pass.old pass.new (done ticket) result }
{
    let mut held = take(rt, shared, pass);
    let taken = finish_here(&mut held.value, ticket, draft);
    give_taken(shared, pass, held);
    taken
}

/// The title of the page whose refresh has this ticket, if one has.
fn title_here(replica: &Replica, ticket: u64) -> Result<Option<Title>, Memory> {
    if replica.stopped() {
        return Err(Memory);
    }
    let Some(out) = replica.wiki().ticket(ticket)? else {
        return Ok(None);
    };
    let title = out.title().share();
    let _number = out.let_go();
    Ok(Some(title?))
}

/// The title of the page whose refresh has this ticket, if one has. It waits.
fn title_of<R: Wait>(
    rt: &R,
    shared: &Turn<Replica>,
    pass: &mut Pass<Replica>,
    ticket: u64,
) -> Result<Option<Title>, Memory>
    requires { IsFree shared.now pass.old }
    ensures { HasRead shared.now pass.old pass.new }
{
    let held = take(rt, shared, pass);
    let title = title_here(&held.value, ticket);
    give(shared, pass, held);
    title
}

/// A draft of the page whose refresh has this ticket, if one has. It is made without the turn. It waits.
fn draft_for<R: Wait, G: Gate>(
    rt: &R,
    shared: &Turn<Replica>,
    alloc: Global,
    pass: &mut Pass<Replica>,
    trees: &mut Trees,
    ticket: u64,
    gate: &mut G,
) -> Result<Option<Draft>, Memory>
    requires { IsFree shared.now pass.old }
    ensures pass { HasRead shared.now pass.old pass.new }
    ensures own_text { IfOk result (λ draft. IfSome draft (λ d. d.given ≡ None)) }
    ensures since { IfOk result (λ draft. IfSome draft (λ d. (from : ℕ) × AreReadSince shared.now.start.wiki pass.new.seen from d.reads)) }
{
    let Some(title) = title_of(rt, shared, pass, ticket)? else {
        return Ok(None);
    };
    let draft = draft_apart(rt, shared, alloc, pass, trees, &title, &Root::Page, gate)?;
    Ok(Some(draft))
}

/// Takes the line that the refresh with this ticket was done. Its page is drafted without the turn. It waits.
fn take_done<R: Wait, G: Gate>(
    rt: &R,
    shared: &Turn<Replica>,
    alloc: Global,
    pass: &mut Pass<Replica>,
    trees: &mut Trees,
    ticket: u64,
    gate: &mut G,
) -> Result<(), TakeRefusal>
    requires free { IsFree shared.now pass.old }
    requires begun { IsSome shared.now.start.line }
    ensures free { IsFree shared.now pass.new }
    ensures taken { TakesSaidLine shared.now pass.old pass.new (done ticket) result }
{
    match draft_for(rt, shared, alloc, pass, trees, ticket, gate) {
        Ok(Some(draft)) => finish(rt, shared, pass, ticket, draft),
        Ok(None) => {
            let said = FeedLine::Event(EventLine::Done(ticket));
            take_said(rt, shared, pass, said)
        }
        Err(_) => Err(TakeRefusal::Memory),
    }
}

/// Takes what a line says. The page of a refresh that was done is drafted without the turn. It waits.
fn take_read<R: Wait, G: Gate>(
    rt: &R,
    shared: &Turn<Replica>,
    alloc: Global,
    pass: &mut Pass<Replica>,
    trees: &mut Trees,
    said: FeedLine,
    gate: &mut G,
) -> Result<(), TakeRefusal>
    requires free { IsFree shared.now pass.old }
    requires begun { IsSome shared.now.start.line }
    ensures free { IsFree shared.now pass.new }
    ensures taken { TakesSaidLine shared.now pass.old pass.new (line_of said) result }
{
    match said {
        FeedLine::Event(EventLine::Done(ticket)) => {
            take_done(rt, shared, alloc, pass, trees, ticket, gate)
        }
        _ => take_said(rt, shared, pass, said),
    }
}

/// Takes the next line of a feed, without its newline, of a replica that threads share, as `Replica::take` does. The replica has taken
/// the line of the start.
///
/// The line is read without the turn. The page of a refresh that was done is drafted without it too, and the gate is passed
/// between two reads; the draft is taken under one turn where each of its reads is current, and else the page is drafted with the
/// turn held. All else is taken under one turn. The event that was taken is the pass's own. `trees` keeps parsed texts.
///
/// `BadLine` comes exactly where the line is bad behind those that were taken, with its number; the replica is as before. `Memory`
/// leaves it as before, or stopped; it comes where the replica is stopped already, which is left so. At each other answer its journal
/// leads to its state, before the line and behind it. It waits.
pub fn take_apart<R: Wait, G: Gate>(
    rt: &R,
    shared: &Turn<Replica>,
    pass: &mut Pass<Replica>,
    trees: &mut Trees,
    line: &[u8],
    gate: &mut G,
) -> Result<(), TakeRefusal>
    requires free { IsFree shared.now pass.old }
    requires begun { IsSome shared.now.start.line }
    ensures free { IsFree shared.now pass.new }
    ensures taken { TakesLine shared.now pass.old pass.new line.now result }
{
    let (alloc, _point) = look(rt, shared, pass);
    match read_line(alloc, line) {
        Ok(Some(said)) => take_read(rt, shared, alloc, pass, trees, said, gate),
        Ok(None) => take_held(rt, shared, pass, line),
        Err(_) => Err(TakeRefusal::Memory),
    }
}

//! One step of a worker.
ghost use Rattle.std.specs.Prelude.{◌≡◌, IfOk, None};
ghost use Rattle.wk_shared.specs.Calls.{HoldsTicket, IsFree};
ghost use Rattle.wk_shared.specs.Apart.{IsDraftSince};
ghost use Rattle.wk_shared.specs.Looks.{HasRead, KeepsTickets};
ghost use Rattle.wk_readers.specs.Refreshes.{IsBroughtIn, IsRefreshed, refreshed_by};

use crate::beginning::{Beginning, begin};
use crate::outcome::Refreshed;
use std::alloc::Global;
use std::sync::Wait;
use wk_base::Gate;
use wk_core::{Draft, Finished, Keeper, Ticket, Wiki};
use wk_expand::{Root, Trees};
use wk_memory::Memory;
use wk_shared::{Pass, Shared, draft_apart};
use wk_title::Title;

/// Drafts the page without the turn; with its title. It waits.
fn drafted<K: Keeper, R: Wait, G: Gate>(
    shared: &Shared<K>,
    rt: &R,
    alloc: Global,
    pass: &mut Pass<Wiki<K>>,
    trees: &mut Trees,
    title: &Title,
    gate: &mut G,
) -> Result<(Title, Draft), Memory>
    requires { IsFree shared.now pass.old }
    ensures pass { HasRead shared.now pass.old pass.new }
    ensures tickets { KeepsTickets shared.now.start pass.old pass.new }
    ensures title { IfOk result (λ drafted. drafted.0 ≡ title.now) }
    ensures draft { IfOk result (λ drafted. IsDraftSince shared.now.start pass.old pass.new title.now None drafted.1) }
{
    let own = title.share()?;
    let draft = draft_apart(shared, rt, alloc, pass, trees, title, &Root::Page, gate)?;
    Ok((own, draft))
}

/// What a step did whose refresh of this page came in so.
fn came_in(title: Title, answer: Finished) -> Refreshed
    ensures { result ≡ refreshed_by title answer }
{
    match answer {
        Finished::Done => Refreshed::Done(title),
        Finished::Stale {
            title,
            kind,
            read,
            now,
        } => Refreshed::Back {
            title,
            kind,
            read,
            now,
        },
        Finished::StoreFault => Refreshed::StoreFault,
        Finished::Memory => Refreshed::Memory,
    }
}

/// Drafts the page of a ticket that the pass holds without the turn, and brings the ticket in: its refresh is finished, or
/// the ticket is given back where memory ran out. It waits.
fn bring_in<K: Keeper, R: Wait, G: Gate>(
    shared: &Shared<K>,
    rt: &R,
    alloc: Global,
    pass: &mut Pass<Wiki<K>>,
    trees: &mut Trees,
    ticket: Ticket,
    gate: &mut G,
) -> Refreshed
    requires free { IsFree shared.now pass.old }
    requires ticket { HoldsTicket shared.now.start pass.old ticket }
    ensures { IsBroughtIn shared.now pass.old pass.new ticket result }
{
    match drafted(shared, rt, alloc, pass, trees, ticket.title(), gate) {
        Ok((title, draft)) => {
            let (answer, _point) = shared.finish_job(rt, pass, ticket, draft);
            came_in(title, answer)
        }
        Err(_) => {
            let _point = shared.give_back(rt, pass, ticket);
            Refreshed::Memory
        }
    }
}

/// One step of a worker (MediaWiki's Manual:Job queue). A fan job goes first. Where none stands, the first refresh job that
/// is queued is claimed; its page is drafted without the turn, and the gate is passed between two reads; then the refresh
/// comes in, and is accepted only where each read is still current.
///
/// - `Idle` exactly where no fan job stands and no refresh job is queued, or memory ran out.
/// - `Fanned` tells of the one fan that was made.
/// - `Done` carries the title of the page whose refresh was claimed and is done.
/// - `Back` carries the first read that isn't current any more: its mark at a point from the claim on, and another one, which
///   it has now. The ticket is given back.
/// - `JournalFull` as `Wiki::fan` and `Wiki::claim` have it. Nothing is made.
/// - `StoreFault` only where the keeper of the wiki's start isn't whole, or its count of faults stands at its end. Nothing is
///   made, or a claim and its return.
/// - `Memory` at any time. Nothing is made, or a claim and its return.
///
/// So no ticket that it claimed is out when it returns, and it makes no save. What it made is the pass's own. `trees` keeps
/// parsed texts. It waits.
pub fn refresh_with<K: Keeper, R: Wait, G: Gate>(
    shared: &Shared<K>,
    rt: &R,
    alloc: Global,
    pass: &mut Pass<Wiki<K>>,
    trees: &mut Trees,
    gate: &mut G,
) -> Refreshed
    requires { IsFree shared.now pass.old }
    ensures { IsRefreshed shared.now pass.old pass.new result }
{
    match begin(shared, rt, pass) {
        Beginning::Idle(claimed) => Refreshed::Idle { claimed },
        Beginning::Fanned(fanned) => Refreshed::Fanned(fanned),
        Beginning::Claimed(ticket) => bring_in(shared, rt, alloc, pass, trees, ticket, gate),
        Beginning::JournalFull => Refreshed::JournalFull,
        Beginning::StoreFault => Refreshed::StoreFault,
        Beginning::Memory => Refreshed::Memory,
    }
}

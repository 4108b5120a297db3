//! How a step begins: under one turn, so that what it is told to be idle at is one point.
ghost use Rattle.std.specs.Prelude.{◌≡◌, None};
ghost use Rattle.wk_wiki_rules.specs.Jobs.{first_fan};
ghost use Rattle.wk_shared.specs.Calls.{IsFree};
ghost use Rattle.wk_readers.specs.Beginnings.{HasBegun, IsBegunOn};

use crate::desk::{give, take};
use std::sync::Wait;
use wk_core::{ClaimRefusal, FanRefusal, Fanned, Keeper, Ticket, Wiki};
use wk_shared::{Pass, Shared};

/// How a step begins.
pub enum Beginning {
    /// No refresh job is queued and no fan job stands; so many refresh jobs are claimed.
    Idle(u64),
    /// A fan job was served.
    Fanned(Fanned),
    /// No fan job stands, and a refresh job was claimed.
    Claimed(Ticket),
    /// The journal has no room.
    JournalFull,
    /// The store failed.
    StoreFault,
    /// Memory ran out.
    Memory,
}

/// A claim, on a wiki in which no fan job stands.
fn claim_on<K: Keeper>(wiki: &mut Wiki<K>) -> Beginning
    requires { first_fan wiki.old.state.jobs ≡ None }
    ensures { IsBegunOn K.told K.faults wiki.old wiki.new result }
{
    match wiki.claim() {
        Ok(Some(ticket)) => Beginning::Claimed(ticket),
        Ok(None) => Beginning::Idle(wiki.left().claimed),
        Err(ClaimRefusal::JournalFull) => Beginning::JournalFull,
        Err(ClaimRefusal::Memory) => Beginning::Memory,
    }
}

/// A fan goes first, then a claim.
fn begin_on<K: Keeper>(wiki: &mut Wiki<K>) -> Beginning
    ensures { IsBegunOn K.told K.faults wiki.old wiki.new result }
{
    match wiki.fan() {
        Ok(Some(fanned)) => Beginning::Fanned(fanned),
        Ok(None) => claim_on(wiki),
        Err(FanRefusal::JournalFull) => Beginning::JournalFull,
        Err(FanRefusal::StoreFault) => Beginning::StoreFault,
        Err(FanRefusal::Memory) => Beginning::Memory,
    }
}

/// Begins a step: serves the first fan job, or claims the first refresh job that is queued where no fan job stands. It
/// waits.
pub fn begin<K: Keeper, R: Wait>(shared: &Shared<K>, rt: &R, pass: &mut Pass<Wiki<K>>) -> Beginning
    requires { IsFree shared.now pass.old }
    ensures { HasBegun shared.now pass.old pass.new result }
{
    let mut held = take(shared, rt, pass);
    let beginning = begin_on(&mut held.value);
    let _point = give(shared, pass, held);
    beginning
}

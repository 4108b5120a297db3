//! Draining a wiki by many threads.
ghost use Rattle.std.specs.Prelude.{◌≡◌, None};
ghost use mathlib.Core.List.{IsPrefix};
ghost use Rattle.wk_refresh.specs.Drained.{IsFree};
ghost use Rattle.wk_tool_laws.specs.Sealed.{IsSealedAt};
ghost use Rattle.wk_serving.specs.Drains.{IsDrainedBy};

use crate::hands::{gather, hired};
use std::alloc::Global;
use std::sync::Wait;
use std::thread::Threads;
use wk_base::Gate;
use wk_core::{Keeper, Wiki};
use wk_refresh::{DrainRefusal, drain};
use wk_shared::{Pass, Shared};
use wk_tools::{DrainEnd, drain_here};

/// A wiki that workers have drained, and the first refusal that one of them met.
#[derive(Drop)]
struct Drained<K: Keeper> {
    wiki: Wiki<K>,
    end: Result<(), DrainRefusal>,
}

/// Drains a shared wiki by so many workers, and joins their passes.
fn drain_shared<K: Keeper + Send, G: Gate + Copy + Send, R: Threads + Wait + Sync>(
    shared: &Shared<K>,
    rt: &R,
    alloc: Global,
    pass: &mut Pass<Wiki<K>>,
    gate: G,
    procs: u64,
) -> Result<(), DrainRefusal>
    requires { IsFree shared.now pass.old }
    ensures free { IsFree shared.now pass.new }
    ensures seen { IsPrefix pass.old.seen pass.new.seen }
{
    let Ok(mut workers) = hired(alloc, shared, pass, gate, procs) else {
        return Err(DrainRefusal::Memory);
    };
    let end = drain(shared, rt, &mut workers);
    gather(shared, pass, workers);
    end
}

/// Seals a wiki, shares it, drains it by so many workers, and takes it back.
fn drain_sealed<K: Keeper + Send, G: Gate + Copy + Send, R: Threads + Wait + Sync>(
    rt: &R,
    wiki: Wiki<K>,
    gate: G,
    procs: u64,
) -> Drained<K>
    requires unsealed { wiki.start.sealed ≡ None }
    ensures { IsSealedAt wiki.start result.wiki.start wiki.journal result.wiki.journal }
{
    let alloc = wiki.allocator();
    let mut wiki = wiki;
    wiki.seal();
    match Shared::new(wiki) {
        Ok((shared, pass)) => {
            let mut pass = pass;
            let end = drain_shared(&shared, rt, alloc, &mut pass, gate, procs);
            Drained {
                wiki: shared.finish(rt, pass),
                end,
            }
        }
        Err((wiki, _)) => Drained {
            wiki,
            end: Err(DrainRefusal::Memory),
        },
    }
}

/// Does all jobs of a wiki, which isn't sealed, by so many workers, each on a thread of its own (`drain`), and what they leave
/// on this thread (`drain_here`), also where the journal was full for them or the store failed. The wiki is sealed before, so
/// nothing is saved.
///
/// `Done`: no job is left. `JournalFull` only where a job was left at the call, and the journal's limit is below 2, or the
/// number of the next job, with the pages above the cursors of all fan jobs, is above 2^62. `StoreFault` only where the store
/// failed on this thread too, so the keeper's count of faults isn't 0. `Memory` may come. It waits.
pub fn drain_wiki<K: Keeper + Send, G: Gate + Copy + Send, R: Threads + Wait + Sync>(
    rt: &R,
    wiki: Wiki<K>,
    gate: G,
    procs: u64,
) -> (Wiki<K>, DrainEnd)
    requires unsealed { wiki.start.sealed ≡ None }
    ensures { IsDrainedBy K.faults wiki result.0 result.1 }
{
    wiki.facts();
    let Drained { wiki, end } = drain_sealed(rt, wiki, gate, procs);
    wiki.facts();
    match end {
        Err(DrainRefusal::Memory) => (wiki, DrainEnd::Memory),
        Ok(()) | Err(DrainRefusal::JournalFull) | Err(DrainRefusal::StoreFault) => {
            let mut wiki = wiki;
            let end = drain_here(&mut wiki);
            wiki.facts();
            (wiki, end)
        }
    }
}

//! The workers of a shared wiki.
ghost use Rattle.std.specs.Prelude.{◌≡◌, All, IfOk, max, vec_len};
ghost use mathlib.Core.List.{IsPrefix};
ghost use Rattle.wk_refresh.specs.Drained.{IsFree};

use std::alloc::Global;
use wk_base::Gate;
use wk_memory::Memory;
use wk_refresh::{Reader, Worker};
use wk_shared::{Keeper, Pass, Shared, Wiki};

/// A worker with a pass of its own, which has seen what `pass` has seen.
fn worker<K: Keeper, G: Gate>(
    alloc: Global,
    shared: &Shared<K>,
    pass: &mut Pass<Wiki<K>>,
    gate: G,
) -> Result<Worker<K, G>, Memory>
    requires { IsFree shared.now pass.old }
    ensures pass { pass.new ≡ pass.old }
    ensures free { IfOk result (λ w. IsFree shared.now w.reader.pass) }
{
    let own = shared.split(pass)?;
    match Reader::new(alloc, own) {
        Ok(reader) => Ok(Worker { reader, gate }),
        Err((_, memory)) => Err(memory),
    }
}

/// So many workers, at least one, each with a copy of the gate.
pub fn hired<K: Keeper, G: Gate + Copy>(
    alloc: Global,
    shared: &Shared<K>,
    pass: &mut Pass<Wiki<K>>,
    gate: G,
    count: u64,
) -> Result<Vec<Worker<K, G>>, Memory>
    requires { IsFree shared.now pass.old }
    ensures pass { pass.new ≡ pass.old }
    ensures free { IfOk result (λ v. All (λ w. IsFree shared.now w.reader.pass) v.items) }
    ensures number { IfOk result (λ v. vec_len v ≡ max 1 count) }
{
    let mut workers = Vec::new(alloc);
    'hiring: for _ in 0..count.max(1) {
        workers.push(worker(alloc, shared, pass, gate)?)?;
    }
    Ok(workers)
}

/// Joins the passes of the workers. It waits for nobody. No memory.
pub fn gather<K: Keeper, G: Gate>(
    shared: &Shared<K>,
    pass: &mut Pass<Wiki<K>>,
    mut workers: Vec<Worker<K, G>>,
)
    requires pass { IsFree shared.now pass.old }
    requires workers { All (λ w. IsFree shared.now w.reader.pass) workers.items }
    ensures free { IsFree shared.now pass.new }
    ensures seen { IsPrefix pass.old.seen pass.new.seen }
{
    'gathering: while let Some(worker) = workers.pop() {
        let Worker { reader, gate: _ } = worker;
        shared.join(pass, reader.into_pass());
    }
}

//! Draining.
ghost use Rattle.std.specs.Prelude.{◌≡◌, ◌<◌, ◌≤◌, [], All, OnOk, length, map, vec_capacity, vec_len};
ghost use Rattle.wk_refresh.specs.Drained.{HasDrained, IsFree, IsLeftEmpty, MayDrain};

use crate::hands::{Hand, dismiss, hire, work_all};
use crate::refusal::DrainRefusal;
use std::mem;
use std::sync::Wait;
use std::thread::Threads;
use wk_base::Gate;
use wk_readers::Worker;
use wk_shared::{Keeper, Shared};

/// Drains with these workers, whose hands and whose places to come back to are made. It waits. No memory.
fn drain_by<K: Keeper + Send, G: Gate + Send, R: Threads + Wait + Sync>(
    shared: &Shared<K>,
    rt: &R,
    workers: Vec<Worker<K, G>>,
    mut hands: Vec<Hand<K, G>>,
    back: &mut Vec<Worker<K, G>>,
) -> Result<(), DrainRefusal>
    requires free { All (λ w. IsFree shared.now w.reader.pass) workers.items }
    requires no_hand { hands.items ≡ [] }
    requires room { vec_len workers ≤ vec_capacity hands }
    requires none_back { back.old.items ≡ [] }
    requires room_back { vec_len workers ≤ vec_capacity back.old }
    ensures { HasDrained shared.now (map (λ w. w.reader.pass) workers.items) (map (λ w. w.reader.pass) back.new.items) result }
{
    hire(workers, &mut hands);
    work_all(shared, rt, hands.as_mut_slice());
    dismiss(hands, back)
}

/// Does the jobs that stand, with a thread for each worker, which makes one step after the other until it sees no job, or is
/// refused (MediaWiki's Manual:Job queue). There is at least one worker.
///
/// `Ok` tells that a worker has seen a point at which no job was queued, claimed or fanning. Else the refusal is that of the
/// first worker, in the order of the list, that met one: `JournalFull` and `StoreFault` as `refresh_with` has them, and
/// `Memory`, which may come too before anything is done. What a worker added is its own pass's: no save. No ticket of theirs
/// is out. It waits.
pub fn drain<K: Keeper + Send, G: Gate + Send, R: Threads + Wait + Sync>(
    shared: &Shared<K>,
    rt: &R,
    workers: &mut Vec<Worker<K, G>>,
) -> Result<(), DrainRefusal>
    requires some { 0 < length workers.old.items }
    requires free { All (λ w. IsFree shared.now w.reader.pass) workers.old.items }
    ensures free { All (λ w. IsFree shared.now w.reader.pass) workers.new.items }
    ensures drained { MayDrain shared.now (map (λ w. w.reader.pass) workers.old.items) (map (λ w. w.reader.pass) workers.new.items) result }
    ensures none_left { OnOk result (IsLeftEmpty shared.now.start (map (λ w. w.reader.pass) workers.new.items)) }
{
    let alloc = *workers.allocator();
    let count = workers.len();
    let Ok(hands) = Vec::with_capacity(alloc, count) else {
        return Err(DrainRefusal::Memory);
    };
    let Ok(back) = Vec::with_capacity(alloc, count) else {
        return Err(DrainRefusal::Memory);
    };
    let all = mem::replace(workers, back);
    drain_by(shared, rt, all, hands, workers)
}

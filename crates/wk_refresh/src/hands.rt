//! Workers, and how their steps end.
ghost use Rattle.std.specs.Prelude.{◌≡◌, ◌≢◌, ℕ, ◌+◌, ◌++◌, ◌<◌, ◌≤◌, All, IfNone, IfSome, length, map, slice_index_or, vec_capacity, vec_len};
ghost use Rattle.wk_refresh.specs.Drained.{End, HasEnded, IsFree, end_first, first_refusal, last_answer};

use crate::refusal::DrainRefusal;
use std::sync::Wait;
use std::thread::{Parker, Threads, for_each_mut};
use std::time::Duration;
use wk_base::Gate;
use wk_readers::{Refreshed, Worker, refresh_one};
use wk_shared::{Keeper, Shared};

/// For how long a worker sleeps that finds nothing to do while others work, in milliseconds.
const REST: u64 = 1;

/// A worker, and how its steps ended: where there was nothing left to do, or where it was refused.
#[derive(Drop)]
pub struct Hand<K: Keeper, G: Gate> {
    pub worker: Worker<K, G>,
    pub end: Result<(), DrainRefusal>,
}

/// How a worker's steps end with this answer; `None` where they go on.
fn end_of(answer: &Refreshed) -> Option<Result<(), DrainRefusal>>
    ensures end { IfSome result (λ end. answer.now ≡ last_answer end) }
    ensures goes_on { IfNone result ((end : End) → answer.now ≢ last_answer end) }
{
    match answer {
        Refreshed::Idle { claimed: 0 } => Some(Ok(())),
        Refreshed::JournalFull => Some(Err(DrainRefusal::JournalFull)),
        Refreshed::StoreFault => Some(Err(DrainRefusal::StoreFault)),
        Refreshed::Memory => Some(Err(DrainRefusal::Memory)),
        _ => None,
    }
}

/// Whether nothing was to be done.
fn is_idle(answer: &Refreshed) -> bool {
    match answer {
        Refreshed::Idle { claimed: _ } => true,
        _ => false,
    }
}

impl<K: Keeper, G: Gate> Hand<K, G> {
    /// Makes one step after the other until no job is left, nor in the hands of others, or one is refused. While others have
    /// all the jobs that are left it looks again now and then, since a job may come back. It waits.
    pub fn work<R: Wait>(&mut self, rt: &R, shared: &Shared<K>)
        requires { IsFree shared.now self.old.worker.reader.pass }
        ensures { HasEnded shared.now self.old.worker.reader.pass self.new.worker.reader.pass self.new.end }
    {
        let rest = Parker::new();
        'steps: for _ in rt.forever() {
            let answer = refresh_one(shared, rt, &mut self.worker.reader, &mut self.worker.gate);
            if let Some(end) = end_of(&answer) {
                self.end = end;
                return;
            }
            if is_idle(&answer) {
                rest.park_timeout(rt, Duration::from_millis(REST));
            }
        }
        unreachable!()
    }
}

/// Each worker makes its steps, on a thread of its own. It waits.
pub fn work_all<K: Keeper + Send, G: Gate + Send, R: Threads + Wait + Sync>(
    shared: &Shared<K>,
    rt: &R,
    hands: &mut [Hand<K, G>],
)
    requires { All (λ h. IsFree shared.now h.worker.reader.pass) hands.old }
    ensures { (k : ℕ) (d : _) → k < length hands.old → HasEnded shared.now (slice_index_or hands.old k d).worker.reader.pass
        (slice_index_or hands.new k d).worker.reader.pass (slice_index_or hands.new k d).end }
{
    let threads = hands.len().max(1);
    for_each_mut(
        rt,
        hands,
        threads,
        &|_, hand: &mut Hand<K, G>| { hand.work(rt, shared) },
    );
}

/// Appends a hand for each worker. Takes no memory.
pub fn hire<K: Keeper, G: Gate>(workers: Vec<Worker<K, G>>, hands: &mut Vec<Hand<K, G>>)
    requires room { vec_len hands.old + vec_len workers ≤ vec_capacity hands.old }
    ensures { map (λ h. h.worker) hands.new.items ≡ map (λ h. h.worker) hands.old.items ++ workers.items }
{
    'hiring: for worker in workers {
        hands.push_reserved(Hand {
            worker,
            end: Ok(()),
        });
    }
}

/// The first of two ends that is a refusal.
fn earlier(
    first: Result<(), DrainRefusal>,
    end: Result<(), DrainRefusal>,
) -> Result<(), DrainRefusal>
    ensures { result ≡ end_first first end }
{
    match first {
        Ok(()) => end,
        Err(refusal) => Err(refusal),
    }
}

/// Appends the workers of the hands, and tells the first refusal that one met. Takes no memory.
pub fn dismiss<K: Keeper, G: Gate>(
    hands: Vec<Hand<K, G>>,
    workers: &mut Vec<Worker<K, G>>,
) -> Result<(), DrainRefusal>
    requires room { vec_len workers.old + vec_len hands ≤ vec_capacity workers.old }
    ensures workers { workers.new.items ≡ workers.old.items ++ map (λ h. h.worker) hands.items }
    ensures refusal { result ≡ first_refusal (map (λ h. h.end) hands.items) }
{
    let mut first = Ok(());
    'dismissing: for hand in hands {
        let Hand { worker, end } = hand;
        workers.push_reserved(worker);
        first = earlier(first, end);
    }
    first
}

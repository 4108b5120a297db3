//! A replica that threads share, and what is told of it.
ghost use Rattle.std.specs.Prelude.{◌≡◌, All, IfOk, IsSome};
ghost use Rattle.wk_replica_reads.specs.Looks.{IsFree};

use crate::asked::Asked;
use crate::workers::{Worker, work};
use std::alloc::Global;
use std::rt::Clock;
use std::sync::Wait;
use std::thread::{Threads, for_each_mut};
use wk_memory::Memory;
use wk_replica_reads::{Pass, Replica, Turn};
use wk_turn::begin;

/// A worker that did nothing yet, and whose first request has this number.
fn worker(
    alloc: Global,
    shared: &Turn<Replica>,
    pass: &mut Pass<Replica>,
    first: u64,
) -> Result<Worker, Memory>
    requires { IsFree shared.now pass.old }
    ensures pass { pass.new ≡ pass.old }
    ensures free { IfOk result (λ w. IsFree shared.now w.pass) }
{
    Ok(Worker {
        pass: shared.split(pass)?,
        first,
        spans: Vec::new(alloc),
    })
}

/// Those who answer requests, and behind them one who takes lines.
fn hired(
    alloc: Global,
    shared: &Turn<Replica>,
    pass: &mut Pass<Replica>,
    asked: &Asked,
) -> Result<Vec<Worker>, Memory>
    requires { IsFree shared.now pass.old }
    ensures { IfOk result (λ v. All (λ w. IsFree shared.now w.pass) v.items) }
{
    let mut workers = Vec::new(alloc);
    'hiring: for at in 0..asked.workers.saturating_add(1) {
        let first = at.wrapping_mul(asked.reads);
        workers.push(worker(alloc, shared, pass, first)?)?;
    }
    Ok(workers)
}

/// Each does its work on a thread of its own. It waits.
fn work_all<R: Threads + Wait + Sync + Clock>(
    rt: &R,
    alloc: Global,
    shared: &Turn<Replica>,
    workers: &mut [Worker],
    lines: &str,
    asked: &Asked,
)
    requires free { All (λ w. IsFree shared.now w.pass) workers.old }
    requires begun { IsSome shared.now.start.line }
{
    let threads = workers.len().max(1);
    for_each_mut(
        rt,
        workers,
        threads,
        &|at, worker: &mut Worker| {
            let _done = work(rt, alloc, shared, worker, at as u64, lines, asked);
        },
    );
}

/// Tells how much a thread did, and when where that is asked for. None where a write fails.
fn tell<R: Print>(rt: &R, worker: &Worker, times: bool) -> Option<()> {
    println!(rt; "thread {}", worker.spans.len()).ok()?;
    'spans: for span in &worker.spans {
        if times {
            println!(rt; "{} {}", span.0, span.1).ok()?;
        }
    }
    Some(())
}

/// Tells it of each. None where a write fails.
fn tell_all<R: Print>(rt: &R, workers: &[Worker], times: bool) -> Option<()> {
    'workers: for worker in workers {
        tell(rt, worker, times)?;
    }
    Some(())
}

/// Threads share the replica that stands behind this turn, and it's told what each did. None where memory runs out, or a write
/// fails. It waits.
fn share_turn<R: Threads + Wait + Sync + Clock + Print>(
    rt: &R,
    alloc: Global,
    shared: &Turn<Replica>,
    pass: &mut Pass<Replica>,
    lines: &str,
    asked: &Asked,
) -> Option<()>
    requires free { IsFree shared.now pass.old }
    requires begun { IsSome shared.now.start.line }
{
    let Ok(mut workers) = hired(alloc, shared, pass, asked) else {
        return None;
    };
    work_all(rt, alloc, shared, workers.as_mut_slice(), lines, asked);
    let told = tell_all(rt, workers.as_slice(), asked.times);
    drop(workers);
    told
}

/// Threads share a replica, and it's told what each did. None where it hasn't taken the line of the start, memory runs out, or a write
/// fails. It waits.
pub fn share<R: Threads + Wait + Sync + Clock + Print>(
    rt: &R,
    alloc: Global,
    replica: Replica,
    lines: &str,
    asked: &Asked,
) -> Option<()> {
    let Some(_line) = replica.start_line() else {
        drop(replica);
        return None;
    };
    match begin(alloc, replica) {
        Ok((shared, pass)) => {
            let mut pass = pass;
            let told = share_turn(rt, alloc, &shared, &mut pass, lines, asked);
            drop(pass);
            drop(shared);
            told
        }
        Err((replica, _memory)) => {
            drop(replica);
            None
        }
    }
}

//! What each thread does that shares a replica: it answers requests, or takes lines.
ghost use Rattle.std.specs.Prelude.{IsSome};
ghost use Rattle.wk_replica_reads.specs.Looks.{IsFree};

use crate::asked::Asked;
use crate::links::{link_of, shows_page};
use std::alloc::Global;
use std::rt::Clock;
use std::sync::Wait;
use wk_expand::Trees;
use wk_replica_reads::{NoGate, Pass, Replica, Turn, serve_reads, take_apart};

/// Of how many texts a thread keeps the trees.
const MOST_TREES: usize = 64;

/// What a thread knows of the replica, and what it did.
#[derive(Drop)]
pub struct Worker {
    pub pass: Pass<Replica>,
    /// The number of its first request.
    pub first: u64,
    /// When each request was begun and answered, or each line begun and taken, in microseconds.
    pub spans: Vec<(u128, u128)>,
}

/// Answers the request with this number, and tells when. None where that shows no page, or memory runs out. It waits.
fn answer<R: Wait + Clock>(
    rt: &R,
    alloc: Global,
    shared: &Turn<Replica>,
    pass: &mut Pass<Replica>,
    trees: &mut Trees,
    number: u64,
    asked: &Asked,
) -> Option<(u128, u128)>
    requires { IsFree shared.now pass.old }
    ensures { IsFree shared.now pass.new }
{
    let mut link = link_of(alloc, asked.pages, number).ok()?;
    let mut gate = NoGate;
    let from = asked.passed(rt);
    drop(serve_reads(rt, shared, pass, trees, &mut link, &mut gate));
    let to = asked.passed(rt);
    let shown = shows_page(link.written());
    drop(link);
    if shown { Some((from, to)) } else { None }
}

/// Answers the requests of a thread, up to one that isn't answered with a page. It waits.
fn answer_all<R: Wait + Clock>(
    rt: &R,
    alloc: Global,
    shared: &Turn<Replica>,
    worker: &mut Worker,
    trees: &mut Trees,
    asked: &Asked,
) -> Option<()>
    requires { IsFree shared.now worker.old.pass }
{
    'requests: for at in 0..asked.reads {
        let number = worker.first.wrapping_add(at);
        let span = answer(rt, alloc, shared, &mut worker.pass, trees, number, asked)?;
        worker.spans.push(span).ok()?;
    }
    Some(())
}

/// Takes lines, up to one that is refused. It waits.
fn take_all<R: Wait + Clock>(
    rt: &R,
    shared: &Turn<Replica>,
    worker: &mut Worker,
    trees: &mut Trees,
    lines: &str,
    asked: &Asked,
) -> Option<()>
    requires free { IsFree shared.now worker.old.pass }
    requires begun { IsSome shared.now.start.line }
{
    let mut gate = NoGate;
    'lines: for line in lines.lines() {
        let from = asked.passed(rt);
        take_apart(
            rt,
            shared,
            &mut worker.pass,
            trees,
            line.as_bytes(),
            &mut gate,
        )
        .ok()?;
        worker.spans.push((from, asked.passed(rt))).ok()?;
    }
    Some(())
}

/// What the thread with this number, from 0, does: the last one takes lines. None where it stops before it is done. It waits.
pub fn work<R: Wait + Clock>(
    rt: &R,
    alloc: Global,
    shared: &Turn<Replica>,
    worker: &mut Worker,
    at: u64,
    lines: &str,
    asked: &Asked,
) -> Option<()>
    requires free { IsFree shared.now worker.old.pass }
    requires begun { IsSome shared.now.start.line }
{
    let mut trees = Trees::new(alloc, MOST_TREES).ok()?;
    let done = if at < asked.workers {
        answer_all(rt, alloc, shared, worker, &mut trees, asked)
    } else {
        take_all(rt, shared, worker, &mut trees, lines, asked)
    };
    drop(trees);
    done
}

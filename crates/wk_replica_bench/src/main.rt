//! The program `wk_replica_bench`, for whoever works on the engine: what `bench/replica` times. The first line of standard input is
//! `PAGES WORKERS READS`. Behind it stand lines of a feed, then an empty line, and then the lines that follow in the feed.
//!
//! A new replica takes the first lines, the start among them; `taken N` tells how many events it took. Then threads share it: each of
//! WORKERS threads answers READS requests for the pages `Page 1` to `Page PAGES`, each request over a connection of its own in
//! memory, and beside them one more takes the lines behind. A line `thread N` for each of them tells how many requests it answered;
//! the last one tells how many lines were taken. A thread stops at the first request that isn't answered with a page, or at the first
//! line that is refused.
//!
//! With `times` behind the numbers each `thread N` has N lines `FROM TO` behind it: when each of these was begun and done, in
//! microseconds since the input was read. Where the start isn't taken, or memory runs out before the threads begin, the program ends
//! with status 1.
#![tactic(auto)]

mod asked;
mod links;
mod shares;
mod workers;

use asked::Asked;
use shares::share;
use std::alloc::Global;
use std::io;
use std::process::ExitCode;
use std::rt::Clock;
use std::sync::Wait;
use std::thread::Threads;
use wk_replica_reads::Replica;

/// Takes the lines of a feed, up to one that is refused.
fn take_all(replica: &mut Replica, lines: &str) {
    'lines: for line in lines.lines() {
        if replica.stopped() {
            return;
        }
        if replica.take(line.as_bytes()).is_err() {
            return;
        }
    }
}

/// Does what the input asks. None where memory runs out, or something else fails.
fn run<R: Threads + Wait + Sync + Clock + Print>(rt: &R, alloc: Global, input: &str) -> Option<()> {
    let (line, feed) = input.split_once('\n').unwrap_or((input, ""));
    let (first, behind) = feed.split_once("\n\n").unwrap_or((feed, ""));
    let asked = Asked::of(rt, line)?;
    let mut replica = Replica::new(alloc).ok()?;
    take_all(&mut replica, first);
    let told = println!(rt; "taken {}", replica.taken());
    let shared = share(rt, alloc, replica, behind, &asked);
    told.ok()?;
    shared
}

fn main(rt: HostRuntime) -> io::Result<ExitCode> {
    let input = io::read_to_string(rt.alloc(), rt.reader())?;
    match run(&rt, rt.alloc(), input.as_str()) {
        Some(()) => Ok(ExitCode::from(0)),
        None => Ok(ExitCode::from(1)),
    }
}

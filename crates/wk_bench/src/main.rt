//! The program `wk_bench`, for whoever works on the engine: what `bench/run` times and no other program does alone. Each
//! line of standard input is answered with its first word and a count:
//!
//! - `turns N T` takes N turns on each of T threads, 64 at most: how many entries the list then has;
//! - `handoff N` lets two threads hand one word to and fro, N times each: how often it was handed on;
//! - `view TEXT` notes the text of the page that is drafted, and `include NAME=TEXT` that of a template: its bytes;
//! - `missing NAME` notes that a template is missing: the bytes of its name;
//! - `cold N` drafts the page N times and keeps nothing, `warm N` keeps the parsed texts: the bytes of the outputs;
//! - `substitute N TEXT` puts in N times what the text calls by `subst:`: the bytes of what it becomes.
//!
//! N is 10,000,000 at most. A line of another form ends the program with status 2, and want of memory with status 1.
#![tactic(auto)]

mod drafts;
mod handoff;
mod substitutions;
mod turns;

use drafts::{VIEWED, add, drafted, miss};
use std::alloc::Global;
use std::io;
use std::process::ExitCode;
use std::sync::Wait;
use std::thread::Threads;
use substitutions::substituted;
use wk_expand::{Kind, Seen};
use wk_memory::Memory;

/// How many parsed texts are kept: more than any page here has.
const MANY_TREES: usize = 1024;

/// The number, at most so much; 0 where the word is none.
fn number(word: &str, most: u64) -> u64 {
    match word.parse::<u64>() {
        Ok(number) => number.min(most),
        Err(_) => 0,
    }
}

/// Does what a word with others behind it asks. What is counted; None where it asks nothing.
fn worked<R: Threads + Wait + Sync>(
    rt: &R,
    alloc: Global,
    seen: &mut Seen,
    word: &str,
    behind: &str,
) -> Result<Option<u64>, Memory> {
    let (times, threads) = behind.split_once(' ').unwrap_or((behind, "1"));
    let times = number(times, 10_000_000);
    let count = match word {
        "turns" => turns::run(rt, alloc, times, number(threads, 64))?,
        "handoff" => handoff::run(rt, times),
        "view" => add(alloc, seen, VIEWED, Kind::View, behind)?,
        "include" => {
            let (name, text) = behind.split_once('=').unwrap_or((behind, ""));
            add(alloc, seen, name, Kind::Include, text)?
        }
        "missing" => miss(alloc, seen, behind)?,
        "cold" => drafted(alloc, seen, times, 0)?,
        "warm" => drafted(alloc, seen, times, MANY_TREES)?,
        "substitute" => {
            let (times, text) = behind.split_once(' ').unwrap_or((behind, ""));
            substituted(alloc, seen, number(times, 10_000_000), text)?
        }
        _ => return Ok(None),
    };
    Ok(Some(count))
}

fn main(rt: HostRuntime) -> io::Result<ExitCode> {
    let mut seen = Seen::new(rt.alloc());
    for line in rt.lines(rt.alloc()) {
        let line = line?;
        let (word, behind) = line.split_once(' ').unwrap_or((line.as_str(), ""));
        match worked(&rt, rt.alloc(), &mut seen, word, behind) {
            Ok(Some(count)) => println!(rt; "{word} {count}")?,
            Ok(None) => return Ok(ExitCode::from(2)),
            Err(Memory) => return Ok(ExitCode::from(1)),
        }
    }
    Ok(ExitCode::from(0))
}

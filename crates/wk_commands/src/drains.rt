//! The command `jobs`.
ghost use Rattle.std.specs.Prelude.{◌≡◌, ◌≢◌, ◌≤◌};
ghost use Rattle.wk_base.specs.Faults.{Rose};
ghost use Rattle.wk_core.specs.Loads.{HasOpened};
ghost use Rattle.wk_commands.specs.Drained.{EndsJobs, IsDrained};

use crate::ends::{CommandEnd, write_text};
use std::sync::Wait;
use std::thread::Threads;
use wk_base::{Gate, Sink};
use wk_core::{Keeper, Wiki};
use wk_serving::{DrainEnd, drain_wiki};

/// How `jobs` ends where its drain ended so: where no job is left, the line is written.
fn end_jobs<O: Sink>(end: DrainEnd, output: &mut O) -> CommandEnd
    ensures ended { EndsJobs end result (O.taken output.old) (O.taken output.new) }
    ensures never_falls { O.faults output.old ≤ O.faults output.new }
    ensures no_write_fault { result ≢ CommandEnd.WriteFault → O.faults output.new ≡ O.faults output.old }
    ensures write_fault { result ≡ CommandEnd.WriteFault → Rose (O.faults output.old) (O.faults output.new) }
{
    match end {
        DrainEnd::Done => write_text(output, "jobs 0\n", true),
        DrainEnd::JournalFull => CommandEnd::Full,
        DrainEnd::StoreFault => CommandEnd::StoreFault,
        DrainEnd::Memory => CommandEnd::Memory,
    }
}

/// Does the jobs of a wiki that was just opened until none is left, by so many workers (`drain_wiki`), and writes `jobs 0`. Nothing
/// is saved. Each worker has a copy of the gate.
///
/// `Done`: no job is left, and the line is written. `Full` only where a job was left at the call, and the journal's limit is
/// below 2, or the number of the next job, with the pages above the cursors of all fan jobs, is above 2^62. `StoreFault`
/// only where the keeper's count of faults isn't 0, and `WriteFault` only where the output's rose: no job is left then, and a
/// prefix of the line is written. `Memory` may come. At the others nothing is written. It waits.
pub fn drain_jobs<K: Keeper + Send, G: Gate + Copy + Send, O: Sink, R: Threads + Wait + Sync>(
    rt: &R,
    wiki: Wiki<K>,
    gate: G,
    procs: u64,
    output: &mut O,
) -> (Wiki<K>, CommandEnd)
    requires opened { HasOpened wiki wiki.start.limits }
    ensures drained { IsDrained K.is_whole K.faults wiki result.0 (O.taken output.old) (O.taken output.new) result.1 }
    ensures never_falls { O.faults output.old ≤ O.faults output.new }
    ensures no_write_fault { result.1 ≢ CommandEnd.WriteFault → O.faults output.new ≡ O.faults output.old }
    ensures write_fault { result.1 ≡ CommandEnd.WriteFault → Rose (O.faults output.old) (O.faults output.new) }
{
    wiki.facts();
    let (wiki, end) = drain_wiki(rt, wiki, gate, procs);
    wiki.facts();
    (wiki, end_jobs(end, output))
}

//! A script over a wiki.
ghost use Rattle.std.specs.Prelude.{◌≡◌, ◌≤◌, [], true, None, Ok, Some, is_some};
ghost use Rattle.wk_base.specs.Faults.{Rose};
ghost use Rattle.wk_core.specs.Limits.{AreWithinFull};
ghost use Rattle.wk_core.specs.Seen.{IsTold};
ghost use Rattle.wk_script_steps.specs.Seen.{Holds};
ghost use Rattle.wk_script.specs.Behind.{HasComeIn, IsBehindAll, stop_of};
ghost use Rattle.wk_script.specs.Report.{IsHandedAt, IsRunTo, bad_of, end_of_cause, end_of_stop};

use crate::run::{Next, Run, Told, restart, serve_last, serve_line};
use std::alloc::Global;
use wk_base::{Clock, Sink, Source};
use wk_core::{BadStore, LoadCause, Wiki};
use wk_expand::Trees;
use wk_keeper::Keeper;
use wk_lines::{LineReader, NextLine, Stop};
use wk_script_steps::give_all_back;

/// How a script ended.
#[derive(Clone, Copy, Debug, PartialEq, Eq)]
pub enum ScriptEnd {
    /// All lines of the input were answered, to its end.
    Done,
    /// A read of the input failed.
    ReadFault,
    /// A write of the output failed.
    WriteFault,
    /// The store failed when it was loaded at a restart.
    StoreFault,
    /// The tables that were loaded at a restart break a rule of a good store.
    BadStore(BadStore),
    /// 2^40 bytes were read.
    Bound,
    /// Memory ran out.
    Memory,
}

/// What is left of a script's run.
#[derive(Drop)]
pub struct ScriptReport<K: Keeper> {
    /// The wiki; its keeper alone where a restart didn't open the store again.
    pub wiki: Result<Wiki<K>, K>,
    /// How the run ended.
    pub end: ScriptEnd,
    /// The points of the replies, in order.
    pub points: Vec<u64>,
}

/// The bytes that a line has at most.
const MOST_LINE: usize = 8_388_608;

/// How many parsed texts are kept.
const MOST_TREES: usize = 16;

/// Answers the lines of the input to its end, and writes the answers. Each line is lent the run.
fn serve_all<K: Keeper, I: Source, O: Sink, C: Clock>(
    alloc: Global,
    run: Run<K>,
    input: &mut I,
    output: &mut O,
    clock: &mut C,
) -> Next<K>
    requires no_ticket { run.tickets.items ≡ [] }
    requires no_point { run.points.items ≡ [] }
    requires unsealed { run.wiki.start.sealed ≡ None }
    requires within { AreWithinFull run.wiki.start.limits }
    ensures next { IsBehindAll K.told K.faults run.wiki
        (record { rest = I.rest input.old; moments = C.left clock.old; taken = O.taken output.old })
        (record { rest = I.rest input.new; moments = C.left clock.new; taken = O.taken output.new }) result }
    ensures reads_never_fall { I.faults input.old ≤ I.faults input.new }
    ensures no_read_fault { stop_of result ≡ None → I.faults input.new ≡ I.faults input.old }
    ensures read_cause { stop_of result ≡ Some Stop.ReadFault → Rose (I.faults input.old) (I.faults input.new) }
    ensures writes_never_fall { O.faults output.old ≤ O.faults output.new }
    ensures no_write_fault { stop_of result ≡ None → O.faults output.new ≡ O.faults output.old }
    ensures write_cause { stop_of result ≡ Some Stop.WriteFault → Rose (O.faults output.old) (O.faults output.new) }
{
    let mut run = run;
    let mut reader = LineReader::new(alloc, MOST_LINE);
    'lines: loop {
        let next = match reader.next(input) {
            Ok(next) => next,
            Err(stop) => return Next::Stops(run, stop),
        };
        match next {
            NextLine::Inner(line) => match serve_line(&mut run, &line, output, clock) {
                Told::Goes => {}
                Told::Stops(stop) => return Next::Stops(run, stop),
                Told::Restarts => match restart(alloc, run, output) {
                    Next::Goes(opened) => {
                        run = opened;
                    }
                    Next::Stops(opened, stop) => return Next::Stops(opened, stop),
                    Next::Lost(keeper, points, cause) => return Next::Lost(keeper, points, cause),
                },
            },
            NextLine::Last(line) => return serve_last(alloc, run, &line, output, clock),
        }
    }
}

/// How a run that stopped for this ends.
fn end_of_stop(stop: Stop) -> ScriptEnd
    ensures { result ≡ end_of_stop stop }
{
    match stop {
        Stop::Memory => ScriptEnd::Memory,
        Stop::ReadFault => ScriptEnd::ReadFault,
        Stop::WriteFault => ScriptEnd::WriteFault,
        Stop::Bound => ScriptEnd::Bound,
    }
}

/// How a run ends that didn't open the store again for this.
fn end_of_cause(cause: LoadCause) -> ScriptEnd
    ensures { result ≡ end_of_cause cause }
{
    match cause {
        LoadCause::StoreFault => ScriptEnd::StoreFault,
        LoadCause::BadStore(bad) => ScriptEnd::BadStore(bad),
        LoadCause::Memory => ScriptEnd::Memory,
    }
}

/// The report of a run whose wiki is there: the tickets that are out come in.
fn report<K: Keeper>(run: Run<K>, end: ScriptEnd) -> ScriptReport<K>
    requires { Holds run.wiki.state run.tickets.items }
    ensures end { result.end ≡ end }
    ensures points { result.points.items ≡ run.points.items }
    ensures wiki { HasComeIn K.told run.wiki run.tickets.items result.wiki }
{
    let Run {
        wiki,
        tickets,
        trees: _,
        points,
    } = run;
    let mut wiki = wiki;
    give_all_back(&mut wiki, tickets);
    wiki.facts();
    ScriptReport {
        wiki: Ok(wiki),
        end,
        points,
    }
}

/// The report of a run that can't begin for want of memory.
fn unbegun<K: Keeper>(wiki: Wiki<K>) -> ScriptReport<K>
    ensures end { result.end ≡ ScriptEnd.Memory }
    ensures points { result.points.items ≡ [] }
    ensures wiki { result.wiki ≡ Ok wiki }
    ensures told { IsTold K.told wiki.state wiki.keeper }
{
    wiki.facts();
    let alloc = wiki.allocator();
    ScriptReport {
        wiki: Ok(wiki),
        end: ScriptEnd::Memory,
        points: Vec::new(alloc),
    }
}

/// Runs a script over a wiki whose journal is empty, so that no ticket is out, and which isn't sealed. Its lines have at most
/// 8,388,608 bytes; each that isn't empty is answered by a line of compact JSON, which is written before the next line is
/// looked at. In the end the tickets that are out are given back.
///
/// The run goes to the end of the input, or stops at the first read or write that fails, where a restart doesn't open the
/// store again, where 2^40 bytes were read, or for want of memory. Then what was written is a prefix of the replies to the
/// whole lines that were read; where the input failed or was too long it is all of them. A fault of the store at a line is
/// answered, and the run goes on.
///
/// Each line is answered as the rules have it (`WikiScriptRun`); with a whole keeper that tells its tables, and where memory
/// isn't wanting, all replies and the wiki in the end are a function of the store, the lines and the moments.
pub fn run_script<K: Keeper, I: Source, O: Sink, C: Clock>(
    wiki: Wiki<K>,
    input: &mut I,
    output: &mut O,
    clock: &mut C,
) -> ScriptReport<K>
    requires begun { wiki.journal ≡ [] }
    requires unsealed { wiki.start.sealed ≡ None }
    requires within { AreWithinFull wiki.start.limits }
    ensures run { IsRunTo K.told K.faults wiki
        (record { rest = I.rest input.old; moments = C.left clock.old; taken = O.taken output.old })
        (record { rest = I.rest input.new; moments = C.left clock.new; taken = O.taken output.new })
        result.end result.points.items result.wiki }
    ensures handed { IsHandedAt result.end result.wiki }
    ensures not_bad { is_some (K.told wiki.keeper) ≡ true → bad_of result.end ≡ None }

    ensures reads_never_fall { I.faults input.old ≤ I.faults input.new }
    ensures no_read_fault { result.end ≡ ScriptEnd.Done → I.faults input.new ≡ I.faults input.old }
    ensures read_fault { result.end ≡ ScriptEnd.ReadFault → Rose (I.faults input.old) (I.faults input.new) }
    ensures writes_never_fall { O.faults output.old ≤ O.faults output.new }
    ensures no_write_fault { result.end ≡ ScriptEnd.Done → O.faults output.new ≡ O.faults output.old }
    ensures write_fault { result.end ≡ ScriptEnd.WriteFault → Rose (O.faults output.old) (O.faults output.new) }
{
    let alloc = wiki.allocator();
    let Ok(trees) = Trees::new(alloc, MOST_TREES) else {
        return unbegun(wiki);
    };
    let run = Run {
        wiki,
        tickets: Vec::new(alloc),
        trees,
        points: Vec::new(alloc),
    };
    match serve_all(alloc, run, input, output, clock) {
        Next::Goes(run) => report(run, ScriptEnd::Done),
        Next::Stops(run, stop) => report(run, end_of_stop(stop)),
        Next::Lost(keeper, points, cause) => ScriptReport {
            wiki: Err(keeper),
            end: end_of_cause(cause),
            points,
        },
    }
}

//! A script's run, and what comes of one line. The run is lent to a line; a restart alone takes it, and gives another.
ghost use Rattle.std.specs.Prelude.{◌≡◌, ◌≤◌, ◌∷◌, ℕ, List, [], Option, None, Some};
ghost use Rattle.wk_base.specs.Faults.{Rose};
ghost use Rattle.wk_bytes.specs.Line.{line_in};
ghost use Rattle.wk_core.specs.Limits.{AreWithinFull};
ghost use Rattle.wk_script_rules.specs.ScriptLines.{restart_line, script_line};
ghost use Rattle.wk_script.specs.Behind.{IsBehind, IsRestartTold, IsServed, stop_at, stop_of};
ghost use Rattle.wk_script_steps.specs.Seen.{Holds};

use crate::serving::{serve, write_reply};
use std::alloc::Global;
use wk_base::{Clock, Sink};
use wk_bytes::Line;
use wk_core::{LoadCause, LoadRefusal, Wiki};
use wk_expand::Trees;
use wk_keeper::Keeper;
use wk_lines::Stop;
use wk_memory::Memory;
use wk_script_lines::{ScriptLine, script_line};
use wk_script_steps::{OpenTicket, reopen, told_restart};

/// A script's wiki, the tickets that are out, the parsed texts that are kept, and the points of the replies so far. It
/// can't be let go, since the tickets must come in.
pub struct Run<K: Keeper> {
    pub wiki: Wiki<K>,
    pub tickets: Vec<OpenTicket>,
    pub trees: Trees,
    pub points: Vec<u64>,
}

/// What comes of a line that the run was lent to.
#[derive(Clone, Copy)]
pub enum Told {
    /// The run goes on.
    Goes,
    /// It stops here.
    Stops(Stop),
    /// The line asks for a restart, and the run is as it was.
    Restarts,
}

/// What stands behind lines.
pub enum Next<K: Keeper> {
    /// The run goes on.
    Goes(Run<K>),
    /// It stops here.
    Stops(Run<K>, Stop),
    /// A restart didn't open the store, for this cause: the keeper, and the points so far.
    Lost(K, Vec<u64>, LoadCause),
}

/// Tells of a restart, whose point stands with the others. The wiki is the one that was opened.
fn tell_restart<K: Keeper, O: Sink>(run: Run<K>, output: &mut O) -> Next<K>
    ensures next { IsRestartTold run (O.taken output.old) (O.taken output.new) result }
    ensures never_falls { O.faults output.old ≤ O.faults output.new }
    ensures no_fault { stop_of result ≡ None → O.faults output.new ≡ O.faults output.old }
    ensures cause { stop_of result ≡ Some Stop.WriteFault → Rose (O.faults output.old) (O.faults output.new) }
{
    match told_restart(&run.wiki) {
        Err(Memory) => Next::Stops(run, Stop::Memory),
        Ok(value) => match write_reply(run.wiki.allocator(), &value, output) {
            Ok(()) => Next::Goes(run),
            Err(stop) => Next::Stops(run, stop),
        },
    }
}

/// Opens the wiki anew, and tells of it. The parsed texts stay. It stands apart from the loop over lines, so that no other
/// line costs anything of what is moved here.
#[cold]
#[inline(never)]
pub fn restart<K: Keeper, O: Sink>(alloc: Global, run: Run<K>, output: &mut O) -> Next<K>
    requires holds { Holds run.wiki.state run.tickets.items }
    requires within { AreWithinFull run.wiki.start.limits }
    ensures next { (raw : Option (List ℕ)) (left : Option (List ℕ)) → script_line raw ≡ restart_line
        → IsBehind K.told K.faults run (raw ∷ []) left left (O.taken output.old) (O.taken output.new) result }
    ensures never_falls { O.faults output.old ≤ O.faults output.new }
    ensures no_fault { stop_of result ≡ None → O.faults output.new ≡ O.faults output.old }
    ensures cause { stop_of result ≡ Some Stop.WriteFault → Rose (O.faults output.old) (O.faults output.new) }
{
    let Run {
        wiki,
        tickets,
        trees,
        points,
    } = run;
    let mut points = points;
    if let Err(_) = points.reserve(1) {
        let run = Run {
            wiki,
            tickets,
            trees,
            points,
        };
        return Next::Stops(run, Stop::Memory);
    }
    match reopen(wiki, tickets) {
        Err(LoadRefusal { keeper, cause }) => Next::Lost(keeper, points, cause),
        Ok(wiki) => {
            points.push_reserved(wiki.point());
            let run = Run {
                wiki,
                tickets: Vec::new(alloc),
                trees,
                points,
            };
            tell_restart(run, output)
        }
    }
}

/// Answers a line, if it has a reply, and writes the answer. A restart is left to the caller.
pub fn serve_line<K: Keeper, O: Sink, C: Clock>(
    run: &mut Run<K>,
    line: &Line,
    output: &mut O,
    clock: &mut C,
) -> Told
    requires holds { Holds run.old.wiki.state run.old.tickets.items }
    requires unsealed { run.old.wiki.start.sealed ≡ None }
    ensures served { IsServed K.told K.faults run.old run.new (line_in line.now) (C.left clock.old) (C.left clock.new) (O.taken output.old) (O.taken output.new) result }
    ensures never_falls { O.faults output.old ≤ O.faults output.new }
    ensures no_fault { stop_at result ≡ None → O.faults output.new ≡ O.faults output.old }
    ensures cause { stop_at result ≡ Some Stop.WriteFault → Rose (O.faults output.old) (O.faults output.new) }
{
    match script_line(line) {
        None => Told::Goes,
        Some(ScriptLine::Empty) => Told::Goes,
        Some(ScriptLine::Restart) => Told::Restarts,
        Some(line) => match serve(run, line, output, clock) {
            Ok(()) => Told::Goes,
            Err(stop) => Told::Stops(stop),
        },
    }
}

/// Answers the last line, if it has a reply, and writes the answer.
pub fn serve_last<K: Keeper, O: Sink, C: Clock>(
    alloc: Global,
    run: Run<K>,
    line: &Line,
    output: &mut O,
    clock: &mut C,
) -> Next<K>
    requires holds { Holds run.wiki.state run.tickets.items }
    requires unsealed { run.wiki.start.sealed ≡ None }
    requires within { AreWithinFull run.wiki.start.limits }
    ensures next { IsBehind K.told K.faults run (line_in line.now) (C.left clock.old) (C.left clock.new) (O.taken output.old) (O.taken output.new) result }
    ensures never_falls { O.faults output.old ≤ O.faults output.new }
    ensures no_fault { stop_of result ≡ None → O.faults output.new ≡ O.faults output.old }
    ensures cause { stop_of result ≡ Some Stop.WriteFault → Rose (O.faults output.old) (O.faults output.new) }
{
    let mut run = run;
    match serve_line(&mut run, line, output, clock) {
        Told::Goes => Next::Goes(run),
        Told::Stops(stop) => Next::Stops(run, stop),
        Told::Restarts => restart(alloc, run, output),
    }
}

//! The command `serve`.
ghost use Rattle.std.specs.Prelude.{◌≡◌, ◌≢◌, ◌⊎◌, ◌≤◌, ℕ, List, Err, IfErr, IfOk, OnOk, string_bytes};
ghost use Rattle.wk_base.specs.Faults.{Rose};
ghost use Rattle.wk_core.specs.Loads.{HasOpened};
ghost use Rattle.wk_door.specs.Told.{listening};
ghost use Rattle.wk_commands.specs.Fed.{HasServedSo};
ghost use Rattle.wk_commands.specs.Served.{EndsAsLine, EndsServing, GivesAtMost, HasBegun, HasServedAt, IsServedFrom, WritesLine};
ghost use Rattle.wk_commands.specs.Texts.{listening_line, served_line};

use crate::ends::CommandEnd;
use crate::feeds::serve_feeding;
use std::alloc::Global;
use std::sync::Wait;
use std::thread::Threads;
use wk_base::{Clock, Gate, Sink, write_all};
use wk_core::{Keeper, Wiki};
use wk_door::Door;
use wk_memory::Memory;
use wk_serving::{Served, Shut, Taken, serve_wiki};

/// What is asked of `serve`.
#[derive(Clone, Copy, PartialEq, Eq)]
pub struct Serving<'a> {
    /// The address at which connections come in.
    pub address: &'a str,
    /// How many workers serve them, at least one.
    pub workers: u64,
    /// After how many connections serving ends.
    pub most: u64,
    /// Whether the feed is written in the place of the lines.
    pub feed: bool,
}

/// The line that tells where the door listens.
fn listening_text(alloc: Global, address: &str) -> Result<String, Memory>
    ensures { IfOk result (λ text. string_bytes text ≡ listening_line address.now) }
{
    Ok(format!(in alloc; "listening on {address}\n")?)
}

/// The line that tells how many connections were served.
fn served_text(alloc: Global, count: u64) -> Result<String, Memory>
    ensures { IfOk result (λ text. string_bytes text ≡ served_line count) }
{
    Ok(format!(in alloc; "served {count}\n")?)
}

/// Writes the line that this makes; memory may be wanting for it. Answers how the command ends where it isn't written whole.
fn write_line<O: Sink>(text: Result<String, Memory>, output: &mut O) -> Result<(), CommandEnd>
    ensures line { (line : List ℕ) → IfOk text (λ t. string_bytes t ≡ line) → WritesLine line result (O.taken output.old) (O.taken output.new) }
    ensures never_falls { O.faults output.old ≤ O.faults output.new }
    ensures no_write_fault { result ≢ Err CommandEnd.WriteFault → O.faults output.new ≡ O.faults output.old }
    ensures write_fault { result ≡ Err CommandEnd.WriteFault → Rose (O.faults output.old) (O.faults output.new) }
{
    match text {
        Ok(text) => match write_all(output, text.as_bytes()) {
            Ok(()) => Ok(()),
            Err(_) => Err(CommandEnd::WriteFault),
        },
        Err(_) => Err(CommandEnd::Memory),
    }
}

/// The door listens at the address, and that is written. Answers how serving ends where it ends already here.
fn begin<D: Door, O: Sink>(
    alloc: Global,
    address: &str,
    door: &mut D,
    output: &mut O,
) -> Result<(), CommandEnd>
    ensures begun { OnOk result (HasBegun address.now (D.told door.old) (D.told door.new) (D.faults door.old) (D.faults door.new) (O.taken output.old) (O.taken output.new)) }
    ensures ended { IfErr result (λ end. (most : ℕ) → HasServedAt address.now most (D.told door.old) (D.told door.new) (D.faults door.old) (D.faults door.new) (O.taken output.old) (O.taken output.new) end) }
    ensures listens { (D.told door.new ≡ listening (D.told door.old) address.now) ⊎ (D.told door.new ≡ D.told door.old) }
    ensures never_falls { O.faults output.old ≤ O.faults output.new }
    ensures no_write_fault { result ≢ Err CommandEnd.WriteFault → O.faults output.new ≡ O.faults output.old }
    ensures write_fault { result ≡ Err CommandEnd.WriteFault → Rose (O.faults output.old) (O.faults output.new) }
    ensures door_never_falls { D.faults door.old ≤ D.faults door.new }
{
    match door.listen(address) {
        Ok(()) => write_line(listening_text(alloc, address), output),
        Err(_) => Err(CommandEnd::DoorFault),
    }
}

/// How serving ends where so many links were taken: the last line is written.
fn write_served<O: Sink>(alloc: Global, count: u64, output: &mut O) -> CommandEnd
    ensures ends { EndsAsLine (served_line count) result (O.taken output.old) (O.taken output.new) }
    ensures never_falls { O.faults output.old ≤ O.faults output.new }
    ensures no_write_fault { result ≢ CommandEnd.WriteFault → O.faults output.new ≡ O.faults output.old }
    ensures write_fault { result ≡ CommandEnd.WriteFault → Rose (O.faults output.old) (O.faults output.new) }
{
    match write_line(served_text(alloc, count), output) {
        Ok(()) => CommandEnd::Done,
        Err(end) => end,
    }
}

/// How serving ends where this was taken of the door: the last line is written, unless the door failed.
fn end_serving<O: Sink>(alloc: Global, end: Result<Taken, Memory>, output: &mut O) -> CommandEnd
    ensures ends { EndsServing end result (O.taken output.old) (O.taken output.new) }
    ensures never_falls { O.faults output.old ≤ O.faults output.new }
    ensures no_write_fault { result ≢ CommandEnd.WriteFault → O.faults output.new ≡ O.faults output.old }
    ensures write_fault { result ≡ CommandEnd.WriteFault → Rose (O.faults output.old) (O.faults output.new) }
{
    let Ok(taken) = end else {
        return CommandEnd::Memory;
    };
    match taken.shut {
        Some(Shut::Broken) => CommandEnd::DoorFault,
        Some(Shut::Empty) => write_served(alloc, taken.count, output),
        None => write_served(alloc, taken.count, output),
    }
}

/// Serves the connections that come in at an address, over a wiki that was just opened. The door listens at the address, and
/// `listening on ADDRESS` is written; then so many workers serve one connection after the other (`serve_wiki`), each with a copy of
/// the gate, until so many were accepted, or the door has none left; then `served N` is written. No more are accepted than that,
/// whatever the end.
///
/// `Done` only where so many were accepted or none is left. `DoorFault` only where a call of the door failed, `WriteFault` only
/// where a write did; `Memory` may come. It waits.
fn serve_plain<
    K: Keeper + Send,
    G: Gate + Copy + Send,
    D: Door + Send,
    C: Clock + Send,
    O: Sink,
    R: Threads + Wait + Sync,
>(
    rt: &R,
    wiki: Wiki<K>,
    gate: G,
    asked: Serving<'_>,
    door: &mut D,
    clock: &mut C,
    output: &mut O,
) -> (Wiki<K>, CommandEnd)
where
    D::Link: Send,
    requires opened { HasOpened wiki wiki.start.limits }
    ensures served { HasServedAt asked.entry.address.now asked.entry.most (D.told door.old) (D.told door.new) (D.faults door.old) (D.faults door.new) (O.taken output.old) (O.taken output.new) result.1 }
    ensures links { GivesAtMost asked.entry.address.now asked.entry.most (D.told door.old) (D.told door.new) }
    ensures wiki { IsServedFrom wiki result.0 }
    ensures never_falls { O.faults output.old ≤ O.faults output.new }
    ensures no_write_fault { result.1 ≢ CommandEnd.WriteFault → O.faults output.new ≡ O.faults output.old }
    ensures write_fault { result.1 ≡ CommandEnd.WriteFault → Rose (O.faults output.old) (O.faults output.new) }
    ensures door_never_falls { D.faults door.old ≤ D.faults door.new }
{
    wiki.facts();
    let alloc = wiki.allocator();
    match begin(alloc, asked.address, door, output) {
        Ok(()) => {
            let Served { wiki, end } = serve_wiki(
                rt,
                wiki,
                door,
                clock,
                gate,
                asked.workers,
                asked.most,
            );
            wiki.facts();
            let end = end_serving(alloc, end, output);
            (wiki, end)
        }
        Err(end) => (wiki, end),
    }
}

/// Serves the connections that come in at an address over a wiki that was just opened, and writes `listening on ADDRESS` before and
/// `served N` behind, or the wiki's feed in the place of both where that is asked. No more are accepted than is asked for, whatever the
/// end.
///
/// `Done` only where so many were accepted or none is left, and all was written. `DoorFault` only where a call of the door failed,
/// `WriteFault` only where a write did; `Memory` may come. It waits.
pub fn serve_links<
    K: Keeper + Send,
    G: Gate + Copy + Send,
    D: Door + Send,
    C: Clock + Send,
    O: Sink + Send,
    R: Threads + Wait + Sync,
>(
    rt: &R,
    wiki: Wiki<K>,
    gate: G,
    asked: Serving<'_>,
    door: &mut D,
    clock: &mut C,
    output: &mut O,
) -> (Wiki<K>, CommandEnd)
where
    D::Link: Send,
    requires opened { HasOpened wiki wiki.start.limits }
    ensures served { HasServedSo asked.entry.feed asked.entry.address.now asked.entry.most (D.told door.old) (D.told door.new) (D.faults door.old) (D.faults door.new)
        (O.taken output.old) (O.taken output.new) wiki.state result.0.journal result.1 }
    ensures links { GivesAtMost asked.entry.address.now asked.entry.most (D.told door.old) (D.told door.new) }
    ensures wiki { IsServedFrom wiki result.0 }
    ensures never_falls { O.faults output.old ≤ O.faults output.new }
    ensures no_write_fault { result.1 ≢ CommandEnd.WriteFault → O.faults output.new ≡ O.faults output.old }
    ensures write_fault { result.1 ≡ CommandEnd.WriteFault → Rose (O.faults output.old) (O.faults output.new) }
    ensures door_never_falls { D.faults door.old ≤ D.faults door.new }
{
    if asked.feed {
        serve_feeding(rt, wiki, gate, asked, door, clock, output)
    } else {
        serve_plain(rt, wiki, gate, asked, door, clock, output)
    }
}

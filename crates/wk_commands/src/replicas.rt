//! The command `replica`.
ghost use Rattle.std.specs.Prelude.{◌≡◌, ◌≢◌, ◌≤◌, ℕ, List, Option, IfOk, IsSome, false, string_bytes};
ghost use Rattle.wk_base.specs.Faults.{Rose};
ghost use Rattle.wk_replica.specs.Replicas.{lines_taken, so_far};
ghost use Rattle.wk_replica_serving.specs.Feeds.{HasTakenFeed};
ghost use Rattle.wk_commands.specs.Followed.{EndsAsText, EndsFollowing, EndsServed, HasFollowed, end_of_feed};
ghost use Rattle.wk_commands.specs.Served.{GivesAtMost};
ghost use Rattle.wk_commands.specs.Texts.{replica_line};

use std::alloc::Global;
use std::sync::Wait;
use std::thread::Threads;
use wk_base::{Sink, Source, write_all};
use wk_door::Door;
use wk_memory::Memory;
use wk_replica_serving::{
    Begun, FeedEnd, ServedReplica, Shut, Taken, begin_replica, serve_replica,
};

/// What is asked of `replica`.
#[derive(Clone, Copy, PartialEq, Eq)]
pub struct Following<'a> {
    /// The address at which connections come in.
    pub address: &'a str,
    /// How many workers serve them, at least one.
    pub workers: u64,
    /// After how many connections no further one is served.
    pub most: u64,
}

/// How `replica` ends.
#[derive(Clone, Copy, PartialEq, Eq)]
pub enum ReplicaEnd {
    /// The feed was taken to the input's end, the connections were served, and all was written.
    Done,
    /// The line of the feed with this number, counted from 1, is bad; or it isn't there, where the input ended before the start.
    BadFeed(u64),
    /// A read of the input failed.
    ReadFault,
    /// A write of the output failed.
    WriteFault,
    /// A call of the door failed.
    DoorFault,
    /// 2^40 bytes of the input were read.
    Bound,
    /// Memory ran out.
    Memory,
}

/// The line that tells how many events were taken.
fn replica_text(alloc: Global, events: u64) -> Result<String, Memory>
    ensures { IfOk result (λ text. string_bytes text ≡ replica_line events) }
{
    Ok(format!(in alloc; "replica {events}\n")?)
}

/// Writes a text whole, and answers how the command ends with it.
fn write_count<O: Sink>(output: &mut O, text: &str) -> ReplicaEnd
    ensures ends { EndsAsText text.now result (O.taken output.old) (O.taken output.new) }
    ensures never_falls { O.faults output.old ≤ O.faults output.new }
    ensures no_write_fault { result ≢ ReplicaEnd.WriteFault → O.faults output.new ≡ O.faults output.old }
    ensures write_fault { result ≡ ReplicaEnd.WriteFault → Rose (O.faults output.old) (O.faults output.new) }
{
    match write_all(output, text.as_bytes()) {
        Ok(()) => ReplicaEnd::Done,
        Err(_) => ReplicaEnd::WriteFault,
    }
}

/// Writes the line of so many events, and answers how the command ends with it.
fn end_taken<O: Sink>(alloc: Global, events: u64, output: &mut O) -> ReplicaEnd
    ensures ends { EndsAsText (replica_line events) result (O.taken output.old) (O.taken output.new) }
    ensures never_falls { O.faults output.old ≤ O.faults output.new }
    ensures no_write_fault { result ≢ ReplicaEnd.WriteFault → O.faults output.new ≡ O.faults output.old }
    ensures write_fault { result ≡ ReplicaEnd.WriteFault → Rose (O.faults output.old) (O.faults output.new) }
{
    match replica_text(alloc, events) {
        Ok(text) => write_count(output, &text),
        Err(_) => ReplicaEnd::Memory,
    }
}

/// How the command ends where the feed was taken to its end, behind so many events, and this was taken of the door: the line is written,
/// unless the door failed.
fn end_served<O: Sink>(
    alloc: Global,
    taken: Result<Taken, Memory>,
    events: u64,
    output: &mut O,
) -> ReplicaEnd
    ensures ends { EndsServed taken events result (O.taken output.old) (O.taken output.new) }
    ensures never_falls { O.faults output.old ≤ O.faults output.new }
    ensures no_write_fault { result ≢ ReplicaEnd.WriteFault → O.faults output.new ≡ O.faults output.old }
    ensures write_fault { result ≡ ReplicaEnd.WriteFault → Rose (O.faults output.old) (O.faults output.new) }
{
    let Ok(taken) = taken else {
        return ReplicaEnd::Memory;
    };
    match taken.shut {
        Some(Shut::Broken) => ReplicaEnd::DoorFault,
        Some(Shut::Empty) => end_taken(alloc, events, output),
        None => end_taken(alloc, events, output),
    }
}

/// How the command ends where the feed ended so, before its own end.
fn end_of_feed(end: FeedEnd) -> ReplicaEnd
    ensures { result ≡ end_of_feed end }
{
    match end {
        FeedEnd::Ended => ReplicaEnd::Done,
        FeedEnd::Bad(number) => ReplicaEnd::BadFeed(number),
        FeedEnd::ReadFault => ReplicaEnd::ReadFault,
        FeedEnd::Bound => ReplicaEnd::Bound,
        FeedEnd::Memory => ReplicaEnd::Memory,
    }
}

/// How the command ends behind its replica. How the feed ended counts first.
fn end_following<O: Sink>(alloc: Global, served: ServedReplica, output: &mut O) -> ReplicaEnd
    ensures ends { EndsFollowing served.end served.taken served.events result (O.taken output.old) (O.taken output.new) }
    ensures never_falls { O.faults output.old ≤ O.faults output.new }
    ensures no_write_fault { result ≢ ReplicaEnd.WriteFault → O.faults output.new ≡ O.faults output.old }
    ensures write_fault { result ≡ ReplicaEnd.WriteFault → Rose (O.faults output.old) (O.faults output.new) }
{
    let ServedReplica { taken, end, events } = served;
    match end {
        FeedEnd::Ended => end_served(alloc, taken, events, output),
        _ => end_of_feed(end),
    }
}

/// Lets a value go, of whatever type: so how a replica is let go isn't proved here once more.
fn let_go<T: Drop>(_value: T) {}

/// Listens at the address, and serves the connections that come in there from a replica that has taken the start, by so many workers,
/// while it takes the other lines of its feed ([`serve_replica`]). It waits.
fn follow_begun<I: Source, D: Door + Send, O: Sink, R: Threads + Wait + Sync>(
    rt: &R,
    alloc: Global,
    begun: Begun,
    asked: Following<'_>,
    input: &mut I,
    door: &mut D,
    output: &mut O,
) -> ReplicaEnd
where
    D::Link: Send,
    requires started { IsSome begun.replica.start.line }
    requires going { begun.replica.stopped ≡ false }
    ensures followed { (rest : Option (List ℕ)) → HasTakenFeed rest (I.rest input.old) begun.lines (so_far begun.replica) (lines_taken begun.replica)
        → HasFollowed asked.entry.address.now asked.entry.most (D.told door.old) (D.told door.new) (D.faults door.old) (D.faults door.new)
        rest (I.rest input.new) (O.taken output.old) (O.taken output.new) result }
    ensures links { GivesAtMost asked.entry.address.now asked.entry.most (D.told door.old) (D.told door.new) }
    ensures reads_never_fall { I.faults input.old ≤ I.faults input.new }
    ensures no_read_fault { result ≡ ReplicaEnd.Done → I.faults input.new ≡ I.faults input.old }
    ensures read_fault { result ≡ ReplicaEnd.ReadFault → Rose (I.faults input.old) (I.faults input.new) }
    ensures never_falls { O.faults output.old ≤ O.faults output.new }
    ensures no_write_fault { result ≢ ReplicaEnd.WriteFault → O.faults output.new ≡ O.faults output.old }
    ensures write_fault { result ≡ ReplicaEnd.WriteFault → Rose (O.faults output.old) (O.faults output.new) }
    ensures door_never_falls { D.faults door.old ≤ D.faults door.new }
{
    match door.listen(asked.address) {
        Ok(()) => end_following(
            alloc,
            serve_replica(rt, begun, input, door, asked.workers, asked.most),
            output,
        ),
        Err(_) => {
            let_go(begun);
            ReplicaEnd::DoorFault
        }
    }
}

/// Reads the feed of a wiki from the input, and answers what is read of that wiki on the connections that come in at an address meanwhile:
/// a replica takes the start; then the door listens, and so many workers serve one connection after the other, while the replica takes
/// the events as they come. What stands behind the input's last newline is no line. Once the input is at its end, and so many
/// connections were accepted or the door has none left, `replica N` is written, which tells how many events were taken.
///
/// `BadFeed` comes exactly where a line is bad, or the input is at its end before the start: no further connection is served then.
/// `ReadFault` comes only where a read failed, `WriteFault` where a write did, `DoorFault` where a call of the door failed, and `Bound`
/// where 2^40 bytes were read; `Memory` may come. At each of these but `WriteFault` nothing is written. It waits.
pub fn follow_feed<I: Source, D: Door + Send, O: Sink, R: Threads + Wait + Sync>(
    rt: &R,
    alloc: Global,
    asked: Following<'_>,
    input: &mut I,
    door: &mut D,
    output: &mut O,
) -> ReplicaEnd
where
    D::Link: Send,
    ensures followed { HasFollowed asked.entry.address.now asked.entry.most (D.told door.old) (D.told door.new) (D.faults door.old) (D.faults door.new)
        (I.rest input.old) (I.rest input.new) (O.taken output.old) (O.taken output.new) result }
    ensures links { GivesAtMost asked.entry.address.now asked.entry.most (D.told door.old) (D.told door.new) }
    ensures reads_never_fall { I.faults input.old ≤ I.faults input.new }
    ensures no_read_fault { result ≡ ReplicaEnd.Done → I.faults input.new ≡ I.faults input.old }
    ensures read_fault { result ≡ ReplicaEnd.ReadFault → Rose (I.faults input.old) (I.faults input.new) }
    ensures never_falls { O.faults output.old ≤ O.faults output.new }
    ensures no_write_fault { result ≢ ReplicaEnd.WriteFault → O.faults output.new ≡ O.faults output.old }
    ensures write_fault { result ≡ ReplicaEnd.WriteFault → Rose (O.faults output.old) (O.faults output.new) }
    ensures door_never_falls { D.faults door.old ≤ D.faults door.new }
{
    match begin_replica(alloc, input) {
        Ok(begun) => follow_begun(rt, alloc, begun, asked, input, door, output),
        Err(end) => end_of_feed(end),
    }
}

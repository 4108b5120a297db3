//! Serving the connections of a door from a replica, while it takes its feed.
ghost use Rattle.std.specs.Prelude.{◌≡◌, ◌≤◌, ℕ, List, Option, All, IsSome, Some, false, length};
ghost use Rattle.wk_base.specs.Faults.{Rose};
ghost use Rattle.wk_door.specs.Entrances.{IsEntered, IsOver};
ghost use Rattle.wk_door.specs.Told.{counts_of};
ghost use Rattle.wk_replica.specs.Replicas.{lines_taken, so_far};
ghost use Rattle.wk_replica_reads.specs.Looks.{IsFree};
ghost use Rattle.wk_replica_serving.specs.Feeds.{EndsFeed, HasTakenFeed};
ghost use Rattle.wk_replica_serving.specs.Served.{HasServedReads};
ghost use Rattle.wk_replica_serving.specs.Taken.{HasTakenShared};

use crate::begins::Begun;
use crate::ends::FeedEnd;
use crate::readers::{ReadCrew, Reader, hands};
use crate::taker::Taker;
use std::alloc::Global;
use std::marker::Brand;
use std::sync::atomic::AtomicBool;
use std::sync::{Mutex, Wait};
use std::thread::{Threads, join_mut};
use wk_base::Source;
use wk_crew::{Closed, Entrance, Entry, serve_all, serve_rounds};
use wk_door::{Door, Taken};
use wk_lines::LineReader;
use wk_memory::Memory;
use wk_replica_reads::{Pass, Replica, Turn};
use wk_turn::begin;

/// Serves connections by a thread for each reader, until no more are taken or served, and takes the lines of the feed on this thread
/// meanwhile, until no more are taken. It waits.
fn serve_beside<D: Door + Send, E: Entry + Send + Sync, I: Source, R: Threads + Wait + Sync>(
    rt: &R,
    crew: &ReadCrew<'_>,
    entrance: &Mutex<Entrance<'_, D, E>>,
    taker: &mut Taker,
    input: &mut I,
    readers: &mut [Reader],
) -> FeedEnd
where
    D::Link: Send,
    requires readers { All (λ r. IsFree crew.now.shared.now r.pass) readers.old }
    requires free { IsFree crew.now.shared.now taker.old.pass }
    requires begun { IsSome crew.now.shared.now.start.line }
    ensures readers { All (λ r. IsFree crew.now.shared.now r.pass) readers.new }
    ensures fed { (rest : Option (List ℕ)) → HasTakenShared crew.now.shared.now taker.old.pass taker.old.lines rest (I.rest input.old)
        → EndsFeed rest (I.rest input.new) (length taker.new.pass.seen) result }
    ensures never_falls { I.faults input.old ≤ I.faults input.new }
    ensures no_fault { result ≡ FeedEnd.Ended → I.faults input.new ≡ I.faults input.old }
    ensures fault { result ≡ FeedEnd.ReadFault → Rose (I.faults input.old) (I.faults input.new) }
{
    let shared = crew.shared;
    let stopped = crew.stopped;
    let (_, end) = join_mut(
        rt,
        &mut ||
            requires { All (λ r. IsFree crew.now.shared.now r.pass) readers.now }
        { serve_all(rt, crew, entrance, readers) },
        &mut || taker.take(rt, shared, input, stopped),
    );
    end
}

/// Goes on serving connections where the feed was taken to its end; else no more are served. It waits.
fn end_serving<'a, D: Door + Send, E: Entry + Send + Sync, R: Threads + Wait + Sync>(
    rt: &R,
    crew: &ReadCrew<'_>,
    entrance: Entrance<'a, D, E>,
    readers: &mut [Reader],
    end: FeedEnd,
) -> Closed<'a, D>
where
    D::Link: Send,
    requires { All (λ r. IsFree crew.now.shared.now r.pass) readers.old }
    ensures name { Some result.door.ghost_name ≡ E.name }
    ensures entered { IsEntered E.told (counts_of (D.told result.door.now)) E.faults (D.faults result.door.now) E.most result.taken.count result.taken.shut }
    ensures over { end ≡ FeedEnd.Ended → IsOver E.most result.taken.count result.taken.shut }
{
    match end {
        FeedEnd::Ended => serve_rounds(rt, crew, entrance, readers),
        _ => entrance.close(),
    }
}

/// A door of which no more links are taken, and a feed of which no more lines are.
#[derive(Drop)]
struct FedDoor<'a, D: Door> {
    closed: Closed<'a, D>,
    end: FeedEnd,
}

/// Serves the links of a door, at most so many, while the lines of the feed are taken. It waits.
fn serve_door<'a, D: Door + Send, E: Entry + Send + Sync, I: Source, R: Threads + Wait + Sync>(
    rt: &R,
    shared: &Turn<Replica>,
    readers: &mut [Reader],
    taker: &mut Taker,
    input: &mut I,
    door: &'a mut D,
    most: u64,
) -> FedDoor<'a, D>
where
    D::Link: Send,
    requires readers { All (λ r. IsFree shared.now r.pass) readers.old }
    requires free { IsFree shared.now taker.old.pass }
    requires begun { IsSome shared.now.start.line }
    requires told { counts_of (D.told door.old) ≡ E.told }
    requires faults { D.faults door.old ≡ E.faults }
    requires most { most ≡ E.most }
    requires name { Some door.ghost_name ≡ E.name }
    ensures same_reference { result.closed.door.ghost_name ≡ door.entry.ghost_name }
    ensures entered { IsEntered E.told (counts_of (D.told result.closed.door.now)) E.faults (D.faults result.closed.door.now) E.most
        result.closed.taken.count result.closed.taken.shut }
    ensures over { result.end ≡ FeedEnd.Ended → IsOver E.most result.closed.taken.count result.closed.taken.shut }
    ensures fed { (rest : Option (List ℕ)) → HasTakenShared shared.now taker.old.pass taker.old.lines rest (I.rest input.old)
        → EndsFeed rest (I.rest input.new) (length taker.new.pass.seen) result.end }
    ensures never_falls { I.faults input.old ≤ I.faults input.new }
    ensures no_fault { result.end ≡ FeedEnd.Ended → I.faults input.new ≡ I.faults input.old }
    ensures fault { result.end ≡ FeedEnd.ReadFault → Rose (I.faults input.old) (I.faults input.new) }
{
    let stopped = AtomicBool::new(false);
    let crew = ReadCrew {
        shared,
        stopped: &stopped,
    };
    let lock = Mutex::new(Entrance::<D, E>::new(door, most));
    let end = serve_beside::<D, E, I, R>(rt, &crew, &lock, taker, input, readers);
    let closed = end_serving(rt, &crew, lock.into_inner(), readers, end);
    FedDoor { closed, end }
}

/// What came of a replica that was served while it took its feed.
#[derive(Drop)]
pub struct ServedReplica {
    /// How many links were taken, and why the door gave no more, where it is shut; or memory ran out before the first was.
    pub taken: Result<Taken, Memory>,
    /// Why no more lines were taken.
    pub end: FeedEnd,
    /// How many events were taken.
    pub events: u64,
}

/// Serves the connections of a door from a shared replica, by so many readers, and takes the lines of its feed meanwhile. It waits.
fn serve_shared<D: Door + Send, I: Source, R: Threads + Wait + Sync>(
    rt: &R,
    alloc: Global,
    shared: &Turn<Replica>,
    pass: Pass<Replica>,
    lines: LineReader,
    input: &mut I,
    door: &mut D,
    workers: u64,
    most: u64,
) -> ServedReplica
where
    D::Link: Send,
    requires free { IsFree shared.now pass }
    requires begun { IsSome shared.now.start.line }
    ensures served { HasServedReads (counts_of (D.told door.old)) (counts_of (D.told door.new)) (D.faults door.old) (D.faults door.new) most result.taken result.end }
    ensures fed { (rest : Option (List ℕ)) → HasTakenShared shared.now pass lines rest (I.rest input.old)
        → EndsFeed rest (I.rest input.new) result.events result.end }
    ensures never_falls { I.faults input.old ≤ I.faults input.new }
    ensures no_fault { result.end ≡ FeedEnd.Ended → I.faults input.new ≡ I.faults input.old }
    ensures fault { result.end ≡ FeedEnd.ReadFault → Rose (I.faults input.old) (I.faults input.new) }
{
    let mut pass = pass;
    let Ok((mut readers, trees)) = hands(alloc, shared, &mut pass, workers) else {
        return ServedReplica {
            taken: Err(Memory),
            end: FeedEnd::Memory,
            events: pass.point(),
        };
    };
    let mut taker = Taker { pass, trees, lines };
    let FedDoor { closed, end } = serve_door::<D, Brand, I, R>(
        rt,
        shared,
        readers.as_mut_slice(),
        &mut taker,
        input,
        door,
        most,
    );
    let Closed { door, taken } = closed;
    // Here the door comes back.
    let _door = door;
    ServedReplica {
        taken: Ok(taken),
        end,
        events: taker.pass.point(),
    }
}

/// Serves the connections of a door from a replica, by so many workers, each on a thread of its own (`serve_reads`), at most so many
/// connections, and takes the other lines of the replica's feed meanwhile, on this thread (`take_apart`).
///
/// Where the input is at its end (`Ended`), what stands behind its last newline is no line, and the connections are served until so many
/// were taken, the door has none left, or an accept failed. `Bad` comes exactly where a line is bad; `ReadFault` where a read failed;
/// `Bound` where 2^40 bytes were read; `Memory` may come. At each of these no further connection is served: those that are open are
/// served to their end, and a worker that waits for one lets it go.
///
/// `Memory` may come before the first connection is accepted; the door's counts are then as they were. It waits.
pub fn serve_replica<D: Door + Send, I: Source, R: Threads + Wait + Sync>(
    rt: &R,
    begun: Begun,
    input: &mut I,
    door: &mut D,
    workers: u64,
    most: u64,
) -> ServedReplica
where
    D::Link: Send,
    requires started { IsSome begun.replica.start.line }
    requires going { begun.replica.stopped ≡ false }
    ensures served { HasServedReads (counts_of (D.told door.old)) (counts_of (D.told door.new)) (D.faults door.old) (D.faults door.new) most result.taken result.end }
    ensures fed { (rest : Option (List ℕ)) → HasTakenFeed rest (I.rest input.old) begun.lines (so_far begun.replica) (lines_taken begun.replica)
        → EndsFeed rest (I.rest input.new) result.events result.end }
    ensures never_falls { I.faults input.old ≤ I.faults input.new }
    ensures no_fault { result.end ≡ FeedEnd.Ended → I.faults input.new ≡ I.faults input.old }
    ensures fault { result.end ≡ FeedEnd.ReadFault → Rose (I.faults input.old) (I.faults input.new) }
{
    let Begun { replica, lines } = begun;
    let alloc = replica.allocator();
    replica.facts();
    match begin(alloc, replica) {
        Ok((shared, pass)) => serve_shared(
            rt, alloc, &shared, pass, lines, input, door, workers, most,
        ),
        Err((replica, memory)) => ServedReplica {
            taken: Err(memory),
            end: FeedEnd::Memory,
            events: replica.taken(),
        },
    }
}

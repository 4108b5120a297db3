//! Serving the connections that come in by a door, and sending the wiki's feed meanwhile.
ghost use Rattle.std.specs.Prelude.{◌≡◌, ◌≢◌, ◌≤◌, [], All, Err, IfOk, IsOk, None, Some, length};
ghost use Rattle.std.specs.Io.KnownBytes.{Appends};
ghost use Rattle.wk_base.specs.Faults.{Rose};
ghost use Rattle.wk_refresh.specs.Drained.{IsFree};
ghost use Rattle.wk_feeder.specs.Bytes.{event_bytes};
ghost use Rattle.wk_door.specs.Entrances.{IsEntered, IsOver};
ghost use Rattle.wk_door.specs.Told.{counts_of};
ghost use Rattle.wk_serving.specs.Returns.{ComesBack};
ghost use Rattle.wk_serving.specs.Serves.{HasServedFed};

use crate::hands::hired;
use crate::serves::{WikiCrew, serve_link};
use std::alloc::Global;
use std::marker::Brand;
use std::sync::{Mutex, Wait};
use std::thread::Threads;
use wk_base::{Clock, Gate, Sink};
use wk_core::{Keeper, Wiki};
use wk_crew::{Closed, Crew, Entrance, Entry, Link, serve_all};
use wk_door::{Door, Taken};
use wk_feeder::{Begins, Fed, FeedOutput, FeedRefusal, Feeder};
use wk_memory::Memory;
use wk_refresh::Worker;
use wk_shared::{Pass, Shared};

/// Workers that serve sessions on a shared wiki and send its events, with an output that they share.
#[derive(Drop)]
struct FedCrew<'a, 'c, 'o, K: Keeper, C: Clock, O: Sink, F: Begins> {
    wiki: WikiCrew<'a, 'c, K, C>,
    feed: &'a Mutex<FeedOutput<'o, K, O, F>>,
}

impl<K: Keeper, C: Clock, O: Sink, F: Begins, G: Gate, R: Wait> Crew<R, Worker<K, G>>
    for FedCrew<'_, '_, '_, K, C, O, F> {
    ghost use Rattle.std.specs.Prelude.{◌≡◌, None, Some};
    ghost use Rattle.wk_refresh.specs.Drained.{IsFree};

    ghost ready = { λ crew worker. IsFree crew.wiki.shared.now worker.reader.pass × (crew.wiki.shared.now.start.sealed ≡ None)
        × (F.turn ≡ Some crew.wiki.shared.now) };

    /// Whether no send was refused. It waits while another worker sends.
    fn goes_on(&self, rt: &R) -> bool {
        !self.feed.lock(rt).is_refused()
    }

    /// Serves a session on the link, and sends the events that there are since. It waits.
    fn serve<L: Link>(&self, rt: &R, worker: &mut Worker<K, G>, link: &mut L) {
        serve_link(&self.wiki, rt, worker, link);
        let _sent = self.feed.lock(rt).send_new(rt, self.wiki.shared);
    }
}

/// Each worker serves links, on a thread of its own, and sends the events since behind each, until no more links are taken, or nothing
/// more is sent. It waits.
fn serve_fed_round<
    K: Keeper + Send,
    G: Gate + Send,
    D: Door + Send,
    E: Entry + Send + Sync,
    F: Begins + Send + Sync,
    C: Clock + Send,
    O: Sink + Send,
    R: Threads + Wait + Sync,
>(
    shared: &Shared<K>,
    rt: &R,
    workers: &mut [Worker<K, G>],
    clock: &Mutex<&mut C>,
    links: &Mutex<Entrance<'_, D, E>>,
    feed: &Mutex<FeedOutput<'_, K, O, F>>,
)
where
    D::Link: Send,
    requires free { All (λ w. IsFree shared.now w.reader.pass) workers.old }
    requires unsealed { shared.now.start.sealed ≡ None }
    requires turn { F.turn ≡ Some shared.now }
    ensures { All (λ w. IsFree shared.now w.reader.pass) workers.new }
{
    let crew = FedCrew {
        wiki: WikiCrew { shared, clock },
        feed,
    };
    serve_all(rt, &crew, links, workers);
}

/// A door of which no more links are taken, and a feed that has ended.
#[derive(Drop)]
struct FedDoor<'a, 'o, K: Keeper, D: Door, O: Sink> {
    closed: Closed<'a, D>,
    fed: Fed<'o, K, O>,
}

/// Serves the links of a door, at most so many, in rounds, each of which ends when every worker has seen that no more links are taken or
/// that nothing more is sent, until one of both is so. Then the wiki is taken, and the rest of its events sent. It waits.
fn serve_fed_door<
    'a,
    'o,
    K: Keeper + Send,
    G: Gate + Send,
    D: Door + Send,
    E: Entry + Send + Sync,
    F: Begins + Send + Sync,
    C: Clock + Send,
    O: Sink + Send,
    R: Threads + Wait + Sync,
>(
    shared: Shared<K>,
    rt: &R,
    workers: &mut [Worker<K, G>],
    door: &'a mut D,
    clock: &Mutex<&mut C>,
    most: u64,
    feeder: Feeder<K>,
    output: &'o mut O,
) -> FedDoor<'a, 'o, K, D, O>
where
    D::Link: Send,
    requires free { All (λ w. IsFree shared w.reader.pass) workers.old }
    requires unsealed { shared.start.sealed ≡ None }
    requires told { counts_of (D.told door.old) ≡ E.told }
    requires faults { D.faults door.old ≡ E.faults }
    requires most { most ≡ E.most }
    requires name { Some door.ghost_name ≡ E.name }
    requires feeder { IsFree shared feeder.pass }
    requires none_sent { feeder.sent ≡ 0 }
    requires turn { F.turn ≡ Some shared }
    requires sink_told { O.taken output.old ≡ F.told }
    requires sink_faults { O.faults output.old ≡ F.faults }
    requires sink_name { Some output.ghost_name ≡ F.name }
    ensures same_door { result.closed.door.ghost_name ≡ door.entry.ghost_name }
    ensures same_output { result.fed.sink.ghost_name ≡ output.entry.ghost_name }
    ensures entered { IsEntered E.told (counts_of (D.told result.closed.door.now)) E.faults (D.faults result.closed.door.now) E.most
        result.closed.taken.count result.closed.taken.shut }
    ensures over { IsOk result.fed.sent → IsOver E.most result.closed.taken.count result.closed.taken.shut }
    ensures start { result.fed.wiki.start ≡ shared.start }
    ensures sent { IfOk result.fed.sent (λ n. (n ≡ length result.fed.wiki.journal)
        × Appends F.told (O.taken result.fed.sink.now) (event_bytes result.fed.wiki.journal)) }
    ensures never_falls { F.faults ≤ O.faults result.fed.sink.now }
    ensures no_fault { result.fed.sent ≢ Err FeedRefusal.WriteFault → O.faults result.fed.sink.now ≡ F.faults }
    ensures fault { result.fed.sent ≡ Err FeedRefusal.WriteFault → Rose F.faults (O.faults result.fed.sink.now) }
{
    let mut entrance = Entrance::<D, E>::new(door, most);
    let mut feed = FeedOutput::<K, O, F>::new(feeder, output);
    'rounds: for _ in rt.forever() {
        let links = Mutex::new(entrance);
        let lines = Mutex::new(feed);
        serve_fed_round(&shared, rt, workers, clock, &links, &lines);
        entrance = links.into_inner();
        feed = lines.into_inner();
        if entrance.is_over() {
            let fed = feed.finish(rt, shared);
            return FedDoor {
                closed: entrance.close(),
                fed,
            };
        }
        if feed.is_refused() {
            let fed = feed.finish(rt, shared);
            return FedDoor {
                closed: entrance.close(),
                fed,
            };
        }
    }
    unreachable!()
}

/// A wiki that was served and fed, and taken back; what was taken of the door, and what was sent.
#[derive(Drop)]
pub struct ServedFed<K: Keeper> {
    /// The wiki.
    pub wiki: Wiki<K>,
    /// How many links were taken, and why the door gave no more, where it is shut; or memory ran out before the first was.
    pub end: Result<Taken, Memory>,
    /// How many events were sent, all that the wiki has; or why not all were.
    pub sent: Result<u64, FeedRefusal>,
}

/// Serves a shared wiki by so many workers, and sends its events by a pass of its own. It waits.
fn serve_fed_shared<
    K: Keeper + Send,
    G: Gate + Copy + Send,
    D: Door + Send,
    C: Clock + Send,
    O: Sink + Send,
    R: Threads + Wait + Sync,
>(
    shared: Shared<K>,
    rt: &R,
    alloc: Global,
    pass: Pass<Wiki<K>>,
    door: &mut D,
    clock: &mut C,
    gate: G,
    workers: u64,
    most: u64,
    output: &mut O,
) -> ServedFed<K>
where
    D::Link: Send,
    requires free { IsFree shared pass }
    requires unsealed { shared.start.sealed ≡ None }
    ensures start { result.wiki.start ≡ shared.start }
    ensures served { HasServedFed (counts_of (D.told door.old)) (counts_of (D.told door.new)) (D.faults door.old) (D.faults door.new) most result.end result.sent }
    ensures fed { IfOk result.sent (λ n. (n ≡ length result.wiki.journal) × Appends (O.taken output.old) (O.taken output.new) (event_bytes result.wiki.journal)) }
    ensures never_falls { O.faults output.old ≤ O.faults output.new }
    ensures no_fault { result.sent ≢ Err FeedRefusal.WriteFault → O.faults output.new ≡ O.faults output.old }
    ensures fault { result.sent ≡ Err FeedRefusal.WriteFault → Rose (O.faults output.old) (O.faults output.new) }
{
    let mut pass = pass;
    let Ok(mut hands) = hired(alloc, &shared, &mut pass, gate, workers) else {
        return ServedFed {
            wiki: shared.finish(rt, pass),
            end: Err(Memory),
            sent: Err(FeedRefusal::Memory),
        };
    };
    let lock = Mutex::new(clock);
    let feeder = Feeder::new(alloc, pass);
    let FedDoor { closed, fed } = serve_fed_door::<K, G, D, Brand, Brand, C, O, R>(
        shared,
        rt,
        hands.as_mut_slice(),
        door,
        &lock,
        most,
        feeder,
        output,
    );
    let Closed { door, taken } = closed;
    let Fed { wiki, sink, sent } = fed;
    // Here the door and the output come back.
    let _door = door;
    let _sink = sink;
    ServedFed {
        wiki,
        end: Ok(taken),
        sent,
    }
}

/// Serves a wiki as `serve_wiki` does, and sends its events to an output meanwhile: each worker sends those that there are since behind
/// each session, under one lock, and in the end the rest is sent. No event has happened yet, and the lines of the wiki's start were
/// written before (`feed_start`).
///
/// Where a send is refused nothing more is sent and no worker serves a further link; the sessions that go on are served to their end.
/// `sent` tells it then, and else how many events the output has taken the lines of: all that the wiki has.
///
/// `Memory` may come before the first link is accepted; its counts are then as they were. It waits.
pub fn serve_fed<
    K: Keeper + Send,
    G: Gate + Copy + Send,
    D: Door + Send,
    C: Clock + Send,
    O: Sink + Send,
    R: Threads + Wait + Sync,
>(
    rt: &R,
    wiki: Wiki<K>,
    door: &mut D,
    clock: &mut C,
    gate: G,
    workers: u64,
    most: u64,
    output: &mut O,
) -> ServedFed<K>
where
    D::Link: Send,
    requires unsealed { wiki.start.sealed ≡ None }
    requires begun { wiki.journal ≡ [] }
    ensures wiki { ComesBack wiki result.wiki }
    ensures served { HasServedFed (counts_of (D.told door.old)) (counts_of (D.told door.new)) (D.faults door.old) (D.faults door.new) most result.end result.sent }
    ensures fed { IfOk result.sent (λ n. (n ≡ length result.wiki.journal) × Appends (O.taken output.old) (O.taken output.new) (event_bytes result.wiki.journal)) }
    ensures never_falls { O.faults output.old ≤ O.faults output.new }
    ensures no_fault { result.sent ≢ Err FeedRefusal.WriteFault → O.faults output.new ≡ O.faults output.old }
    ensures fault { result.sent ≡ Err FeedRefusal.WriteFault → Rose (O.faults output.old) (O.faults output.new) }
{
    let alloc = wiki.allocator();
    match Shared::new(wiki) {
        Ok((shared, pass)) => serve_fed_shared(
            shared, rt, alloc, pass, door, clock, gate, workers, most, output,
        ),
        Err((wiki, memory)) => ServedFed {
            wiki,
            end: Err(memory),
            sent: Err(FeedRefusal::Memory),
        },
    }
}

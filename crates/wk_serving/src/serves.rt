//! Serving the connections that come in by a door.
ghost use Rattle.std.specs.Prelude.{◌≡◌, All, IfOk, OnErr, None, Some};
ghost use mathlib.Core.List.{IsPrefix};
ghost use Rattle.wk_refresh.specs.Drained.{IsFree};
ghost use Rattle.wk_door.specs.Entrances.{IsEntered, IsOver};
ghost use Rattle.wk_door.specs.Told.{counts_of};
ghost use Rattle.wk_serving.specs.Returns.{ComesBack};
ghost use Rattle.wk_serving.specs.Serves.{HasServed};

use crate::hands::{gather, hired};
use std::alloc::Global;
use std::marker::Brand;
use std::sync::{Mutex, Wait};
use std::thread::Threads;
use wk_base::{Clock, Gate};
use wk_core::{Keeper, Wiki};
use wk_crew::{Closed, Crew, Entrance, Entry, Link, serve_rounds};
use wk_door::{Door, LockedClock, Taken};
use wk_memory::Memory;
use wk_refresh::Worker;
use wk_session::serve_session;
use wk_shared::{Pass, Shared};

/// Workers that serve sessions on a shared wiki, with a clock that they share.
#[derive(Drop)]
pub(crate) struct WikiCrew<'a, 'c, K: Keeper, C: Clock> {
    pub(crate) shared: &'a Shared<K>,
    pub(crate) clock: &'a Mutex<&'c mut C>,
}

/// Serves a session on a link, by a clock that workers share. It waits.
pub(crate) fn serve_link<K: Keeper, G: Gate, C: Clock, L: Link, R: Wait>(
    crew: &WikiCrew<'_, '_, K, C>,
    rt: &R,
    worker: &mut Worker<K, G>,
    link: &mut L,
)
    requires free { IsFree crew.now.shared.now worker.old.reader.pass }
    requires unsealed { crew.now.shared.now.start.sealed ≡ None }
    ensures { IsFree crew.now.shared.now worker.new.reader.pass }
{
    let mut clock = LockedClock::new(rt, crew.clock);
    let _report = serve_session(crew.shared, rt, worker, link, &mut clock);
}

impl<K: Keeper, C: Clock, G: Gate, R: Wait> Crew<R, Worker<K, G>> for WikiCrew<'_, '_, K, C> {
    ghost use Rattle.std.specs.Prelude.{◌≡◌, None};
    ghost use Rattle.wk_refresh.specs.Drained.{IsFree};

    ghost ready = { λ crew worker. IsFree crew.shared.now worker.reader.pass × (crew.shared.now.start.sealed ≡ None) };

    fn goes_on(&self, _rt: &R) -> bool {
        true
    }

    /// Serves a session on the link. It waits.
    fn serve<L: Link>(&self, rt: &R, worker: &mut Worker<K, G>, link: &mut L) {
        serve_link(self, rt, worker, link);
    }
}

/// Serves the links of a door, at most so many, until no more are taken. It waits.
fn serve_door<
    'a,
    K: Keeper + Send,
    G: Gate + Send,
    D: Door + Send,
    E: Entry + Send + Sync,
    C: Clock + Send,
    R: Threads + Wait + Sync,
>(
    shared: &Shared<K>,
    rt: &R,
    workers: &mut [Worker<K, G>],
    door: &'a mut D,
    clock: &Mutex<&mut C>,
    most: u64,
) -> Closed<'a, D>
where
    D::Link: Send,
    requires free { All (λ w. IsFree shared.now w.reader.pass) workers.old }
    requires unsealed { shared.now.start.sealed ≡ None }
    requires told { counts_of (D.told door.old) ≡ E.told }
    requires faults { D.faults door.old ≡ E.faults }
    requires most { most ≡ E.most }
    requires name { Some door.ghost_name ≡ E.name }
    ensures free { All (λ w. IsFree shared.now w.reader.pass) workers.new }
    ensures same_reference { result.door.ghost_name ≡ door.entry.ghost_name }
    ensures entered { IsEntered E.told (counts_of (D.told result.door.now)) E.faults (D.faults result.door.now) E.most result.taken.count result.taken.shut }
    ensures over { IsOver E.most result.taken.count result.taken.shut }
{
    let crew = WikiCrew { shared, clock };
    let entrance = Entrance::<D, E>::new(door, most);
    serve_rounds(rt, &crew, entrance, workers)
}

/// Serves a shared wiki by so many workers, and joins their passes. It waits.
fn serve_shared<
    K: Keeper + Send,
    G: Gate + Copy + Send,
    D: Door + Send,
    C: Clock + Send,
    R: Threads + Wait + Sync,
>(
    shared: &Shared<K>,
    rt: &R,
    alloc: Global,
    pass: &mut Pass<Wiki<K>>,
    door: &mut D,
    clock: &mut C,
    gate: G,
    workers: u64,
    most: u64,
) -> Result<Taken, Memory>
where
    D::Link: Send,
    requires free { IsFree shared.now pass.old }
    requires unsealed { shared.now.start.sealed ≡ None }
    ensures free { IsFree shared.now pass.new }
    ensures seen { IsPrefix pass.old.seen pass.new.seen }
    ensures served { HasServed (counts_of (D.told door.old)) (counts_of (D.told door.new)) (D.faults door.old) (D.faults door.new) most result }
{
    let mut workers = hired(alloc, shared, pass, gate, workers)?;
    let lock = Mutex::new(clock);
    let closed = serve_door::<K, G, D, Brand, C, R>(
        shared,
        rt,
        workers.as_mut_slice(),
        door,
        &lock,
        most,
    );
    let taken = closed.taken;
    gather(shared, pass, workers);
    Ok(taken)
}

/// A wiki that was served and taken back, and what was taken of the door.
#[derive(Drop)]
pub struct Served<K: Keeper> {
    /// The wiki.
    pub wiki: Wiki<K>,
    /// How many links were taken, and why the door gave no more, where it is shut; or memory ran out before the first was.
    pub end: Result<Taken, Memory>,
}

/// Serves a wiki, which isn't sealed, by so many workers, each on a thread of its own: each accepts a link and serves it to its
/// end (`serve_session`), and then the next one, until so many were accepted, the door has none left, or an accept failed.
/// Links are accepted one at a time.
///
/// `Memory` may come before the first link is accepted; its counts are then as they were. It waits.
pub fn serve_wiki<
    K: Keeper + Send,
    G: Gate + Copy + Send,
    D: Door + Send,
    C: Clock + Send,
    R: Threads + Wait + Sync,
>(rt: &R, wiki: Wiki<K>, door: &mut D, clock: &mut C, gate: G, workers: u64, most: u64) -> Served<K>
where
    D::Link: Send,
    requires unsealed { wiki.start.sealed ≡ None }
    ensures wiki { ComesBack wiki result.wiki }
    ensures served { HasServed (counts_of (D.told door.old)) (counts_of (D.told door.new)) (D.faults door.old) (D.faults door.new) most result.end }
{
    let alloc = wiki.allocator();
    match Shared::new(wiki) {
        Ok((shared, pass)) => {
            let mut pass = pass;
            let end = serve_shared(
                &shared, rt, alloc, &mut pass, door, clock, gate, workers, most,
            );
            Served {
                wiki: shared.finish(rt, pass),
                end,
            }
        }
        Err((wiki, memory)) => Served {
            wiki,
            end: Err(memory),
        },
    }
}

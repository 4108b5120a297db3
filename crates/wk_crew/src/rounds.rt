//! The links of a door, served by many threads.
ghost use Rattle.std.specs.Prelude.{◌≡◌, All, Some};
ghost use Rattle.wk_door.specs.Entrances.{IsEntered, IsOver};
ghost use Rattle.wk_door.specs.Told.{counts_of};

use crate::crew::Crew;
use std::sync::{Mutex, Wait};
use std::thread::{Threads, for_each_mut};
use wk_door::{Closed, Door, Entrance, Entry};

/// The next link, if one is served yet and more are taken. That is asked once the door is there, so of all who wait for it one alone may
/// still wait for a link that isn't served. It waits while another thread takes one.
fn next_link<D: Door, E: Entry, W, S: Crew<R, W>, R: Wait>(
    rt: &R,
    crew: &S,
    entrance: &Mutex<Entrance<'_, D, E>>,
) -> Option<D::Link> {
    let mut entrance = entrance.lock(rt);
    if !crew.goes_on(rt) {
        return None;
    }
    entrance.next_link()
}

/// Takes one link after the other and serves each to its end, until no more are taken or served. A link that comes where none is served
/// any more is let go. It waits.
fn serve_links<D: Door, E: Entry, W, S: Crew<R, W>, R: Wait>(
    rt: &R,
    crew: &S,
    entrance: &Mutex<Entrance<'_, D, E>>,
    worker: &mut W,
)
    requires { S.ready crew.now worker.old }
    ensures { S.ready crew.now worker.new }
{
    'links: for _ in rt.forever() {
        let Some(link) = next_link::<D, E, W, S, R>(rt, crew, entrance) else {
            return;
        };
        if !crew.goes_on(rt) {
            return;
        }
        let mut link = link;
        crew.serve(rt, worker, &mut link);
    }
}

/// Each worker serves links, on a thread of its own, until no more are taken or the crew goes on no more. It waits.
pub fn serve_all<
    D: Door + Send,
    E: Entry + Send + Sync,
    W: Send,
    S: Crew<R, W> + Sync,
    R: Threads + Wait + Sync,
>(rt: &R, crew: &S, entrance: &Mutex<Entrance<'_, D, E>>, workers: &mut [W])
where
    D::Link: Send,
    requires { All (λ w. S.ready crew.now w) workers.old }
    ensures { All (λ w. S.ready crew.now w) workers.new }
{
    let threads = workers.len().max(1);
    for_each_mut(
        rt,
        workers,
        threads,
        &|_, worker: &mut W| { serve_links(rt, crew, entrance, worker) },
    );
}

/// Serves in rounds, each of which ends when every worker has seen that no more links are taken, until that is so of the door. It
/// waits. With a crew that goes on no more while the door has links it doesn't end, since it begins round behind round.
pub fn serve_rounds<
    'a,
    D: Door + Send,
    E: Entry + Send + Sync,
    W: Send,
    S: Crew<R, W> + Sync,
    R: Threads + Wait + Sync,
>(rt: &R, crew: &S, entrance: Entrance<'a, D, E>, workers: &mut [W]) -> Closed<'a, D>
where
    D::Link: Send,
    requires ready { All (λ w. S.ready crew.now w) workers.old }
    ensures ready { All (λ w. S.ready crew.now w) workers.new }
    ensures name { Some result.door.ghost_name ≡ E.name }
    ensures entered { IsEntered E.told (counts_of (D.told result.door.now)) E.faults (D.faults result.door.now) E.most result.taken.count result.taken.shut }
    ensures over { IsOver E.most result.taken.count result.taken.shut }
{
    let mut entrance = entrance;
    'rounds: for _ in rt.forever() {
        let lock = Mutex::new(entrance);
        serve_all(rt, crew, &lock, workers);
        entrance = lock.into_inner();
        if entrance.is_over() {
            return entrance.close();
        }
    }
    unreachable!()
}

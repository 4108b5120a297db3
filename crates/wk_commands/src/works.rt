//! The commands over the store of a keeper.
ghost use Rattle.std.specs.Prelude.{◌≡◌, ◌≢◌, ◌≤◌, Ok, Err, is_some, true};
ghost use Rattle.wk_base.specs.Faults.{Rose};
ghost use Rattle.wk_page_rules.specs.Verdict.{max_journal};
ghost use Rattle.wk_revs.specs.Edit.{most_held};
ghost use Rattle.wk_core.specs.Limits.{AreWithinFull};
ghost use Rattle.wk_core.specs.Loads.{HasOpened};
ghost use Rattle.wk_core.specs.Seen.{IsTold, failed_where};
ghost use Rattle.wk_wiki_rules.specs.Soundness.{IsSound};
ghost use Rattle.wk_commands.specs.Lived.{HasLivedOn};
ghost use Rattle.wk_commands.specs.Worked.{IsServedOn, IsWorked, IsWorkedOn, limits_with_journal};

use crate::checks::check_pages;
use crate::drains::drain_jobs;
use crate::ends::CommandEnd;
use crate::generates::generate_pages;
use crate::serves::{Serving, serve_links};
use std::alloc::Global;
use std::sync::Wait;
use std::thread::Threads;
use wk_base::{Clock, Gate, Sink};
use wk_core::{Keeper, Limits, LoadCause, LoadRefusal, Wiki};
use wk_door::Door;

/// What is asked of a wiki.
#[derive(Clone, Copy, PartialEq, Eq)]
pub enum Work {
    /// The link rows of each page are compared with those of a new expansion ([`check_pages`](crate::check_pages)).
    Check,
    /// The jobs are done until none is left ([`drain_jobs`](crate::drain_jobs)).
    Jobs,
    /// Pages are generated, their jobs done, and their link rows compared ([`generate_pages`](crate::generate_pages)).
    Generate {
        /// How many pages.
        pages: u32,
        /// The number that their texts are drawn from.
        number: u32,
    },
}

/// What is left behind a command over a store.
#[derive(Drop)]
pub struct Worked<K> {
    /// The keeper of the store.
    pub keeper: K,
    /// How the command ended, or why the store wasn't opened for it.
    pub end: Result<CommandEnd, LoadCause>,
}

/// The workers of a command: how many, and the gate of which each has a copy.
#[derive(Clone, Copy, PartialEq, Eq)]
pub struct Hands<G> {
    /// How many workers do the jobs.
    pub procs: u64,
    /// Their gate.
    pub gate: G,
}

/// Does what is asked of a wiki that was just opened. It waits.
fn do_work<K: Keeper + Send, G: Gate + Copy + Send, O: Sink, C: Clock, R: Threads + Wait + Sync>(
    rt: &R,
    wiki: Wiki<K>,
    work: Work,
    hands: Hands<G>,
    output: &mut O,
    clock: &mut C,
) -> (Wiki<K>, CommandEnd)
    requires opened { HasOpened wiki wiki.start.limits }
    ensures worked { IsWorked K.is_whole K.faults work wiki result.0 (C.left clock.old) (C.left clock.new) (O.taken output.old) (O.taken output.new) result.1 }
    ensures lived { HasLivedOn wiki.state result.0.state }
    ensures sound { IsSound wiki.state → IsSound result.0.state }
    ensures tells { result.0.start.tells ≡ wiki.start.tells }
    ensures stays_whole { K.is_whole result.0.keeper ≡ K.is_whole wiki.keeper }
    ensures whole_count { K.is_whole wiki.keeper ≡ true → K.faults result.0.keeper ≡ K.faults wiki.keeper }
    ensures never_falls { O.faults output.old ≤ O.faults output.new }
    ensures no_write_fault { result.1 ≢ CommandEnd.WriteFault → O.faults output.new ≡ O.faults output.old }
    ensures write_fault { result.1 ≡ CommandEnd.WriteFault → Rose (O.faults output.old) (O.faults output.new) }
{
    let Hands { procs, gate } = hands;
    match work {
        Work::Check => {
            let end = check_pages(&wiki, output);
            (wiki, end)
        }
        Work::Jobs => drain_jobs(rt, wiki, gate, procs, output),
        Work::Generate { pages, number } => {
            generate_pages(rt, wiki, gate, procs, pages, number, output, clock)
        }
    }
}

/// The full limits, but for the journal's, which is at most the full one.
pub fn limits_with_journal(journal: u64) -> Limits
    requires { journal ≤ max_journal }
    ensures limits { most_held result ≡ limits_with_journal journal }
    ensures within { AreWithinFull (most_held result) }
{
    Limits {
        journal,
        ..Limits::FULL
    }
}

/// What is left where a store isn't opened for this refusal.
fn unopened<K>(refusal: LoadRefusal<K>) -> Worked<K>
    ensures keeper { result.keeper ≡ refusal.keeper }
    ensures end { result.end ≡ Err refusal.cause }
{
    let LoadRefusal { keeper, cause } = refusal;
    Worked {
        keeper,
        end: Err(cause),
    }
}

/// What is left of a wiki over a keeper, and how the command ended.
fn released<K: Keeper>(wiki: Wiki<K>, end: CommandEnd) -> Worked<K>
    ensures keeper { result.keeper ≡ wiki.keeper }
    ensures end { result.end ≡ Ok end }
    ensures told { IsTold K.told wiki.state result.keeper }
    ensures tells { is_some (K.told result.keeper) ≡ wiki.start.tells }
    ensures whole { K.is_whole result.keeper ≡ wiki.start.whole }
    ensures failed { failed_where (K.is_whole result.keeper) (K.faults result.keeper) ≡ wiki.start.failed }
{
    wiki.facts();
    Worked {
        keeper: wiki.release(),
        end: Ok(end),
    }
}

/// Opens a wiki over the tables of a keeper, with a journal of at most so many events, and does what is asked of it. The
/// keeper comes back: at a refusal of the load with the tables that it had, else with those of the state in which the work
/// ended. It tells its tables where it did, is whole where it was, and then its count of faults stays.
///
/// Where the load is refused, and behind `Work::Check`, the count doesn't fall. Behind the others, where workers take the keeper in
/// turns, that isn't said of a keeper that isn't whole. It waits.
pub fn work_over<
    K: Keeper + Send,
    G: Gate + Copy + Send,
    O: Sink,
    C: Clock,
    R: Threads + Wait + Sync,
>(
    rt: &R,
    alloc: Global,
    keeper: K,
    journal: u64,
    work: Work,
    hands: Hands<G>,
    output: &mut O,
    clock: &mut C,
) -> Worked<K>
    requires journal { journal ≤ max_journal }
    ensures worked { IsWorkedOn K.told K.faults K.is_whole work journal keeper result.keeper
        (C.left clock.old) (C.left clock.new) (O.taken output.old) (O.taken output.new) result.end }
    ensures never_falls { O.faults output.old ≤ O.faults output.new }
    ensures no_write_fault { result.end ≢ Ok CommandEnd.WriteFault → O.faults output.new ≡ O.faults output.old }
    ensures write_fault { result.end ≡ Ok CommandEnd.WriteFault → Rose (O.faults output.old) (O.faults output.new) }
{
    match Wiki::load(alloc, keeper, limits_with_journal(journal)) {
        Ok(wiki) => {
            wiki.facts();
            let (wiki, end) = do_work(rt, wiki, work, hands, output, clock);
            released(wiki, end)
        }
        Err(refusal) => unopened(refusal),
    }
}

/// Opens a wiki over the tables of a keeper, with a journal of at most so many events, and serves the connections that come in at
/// an address (`serve_links`), with its feed where that is asked. The keeper comes back: at a refusal of the load with the tables
/// that it had, and nothing was asked of the door; else with those of the state in which serving ended. It tells its tables where
/// it did, is whole where it was, and then its count of faults stays. It waits.
pub fn serve_over<
    K: Keeper + Send,
    G: Gate + Copy + Send,
    D: Door + Send,
    C: Clock + Send,
    O: Sink + Send,
    R: Threads + Wait + Sync,
>(
    rt: &R,
    alloc: Global,
    keeper: K,
    journal: u64,
    asked: Serving<'_>,
    gate: G,
    door: &mut D,
    clock: &mut C,
    output: &mut O,
) -> Worked<K>
where
    D::Link: Send,
    requires journal { journal ≤ max_journal }
    ensures served { IsServedOn K.told K.faults K.is_whole asked.entry.feed asked.entry.address.now asked.entry.most journal keeper result.keeper
        (D.told door.old) (D.told door.new) (D.faults door.old) (D.faults door.new) (O.taken output.old) (O.taken output.new) result.end }
    ensures never_falls { O.faults output.old ≤ O.faults output.new }
    ensures no_write_fault { result.end ≢ Ok CommandEnd.WriteFault → O.faults output.new ≡ O.faults output.old }
    ensures write_fault { result.end ≡ Ok CommandEnd.WriteFault → Rose (O.faults output.old) (O.faults output.new) }
    ensures door_never_falls { D.faults door.old ≤ D.faults door.new }
{
    match Wiki::load(alloc, keeper, limits_with_journal(journal)) {
        Ok(wiki) => {
            wiki.facts();
            let (wiki, end) = serve_links(rt, wiki, gate, asked, door, clock, output);
            released(wiki, end)
        }
        Err(refusal) => unopened(refusal),
    }
}

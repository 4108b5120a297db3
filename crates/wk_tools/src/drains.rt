//! Drains on one thread.
ghost use Rattle.std.specs.Prelude.{◌≡◌, ◌≢◌, ◌<◌, None, Some, [], length, IfNone, IsSome};
ghost use Rattle.wk_base.specs.Faults.{Rose};
ghost use Rattle.wk_wiki_rules.specs.Jobs.{first_fan, first_queued};
ghost use Rattle.wk_core.specs.Steps.{GoesOn};
ghost use Rattle.wk_tools.specs.Lived.{HasLived};
ghost use Rattle.wk_tools.specs.Drains.{CanBeFull, HasNoJob};
ghost use Rattle.wk_tools.specs.Rounds.{Drains, IsRound, Renews};

use crate::refreshes::{RefreshRefusal, refresh_here};
use wk_core::{FanRefusal, Keeper, Wiki};
use wk_expand::Trees;

/// How a drain ends.
#[derive(Clone, Copy, PartialEq, Eq)]
pub enum DrainEnd {
    /// No job is left.
    Done,
    /// A journal has no room for the next event even where it begins anew, or the numbers of jobs have come to their end.
    JournalFull,
    /// The store failed.
    StoreFault,
    /// Memory ran out.
    Memory,
}

/// How many parsed texts are kept while many pages are expanded.
pub(crate) const KEPT_TREES: usize = 64;

/// Begins the journal anew, where it isn't empty. Answers how the drain ends, where it does.
fn begin_anew<K: Keeper>(wiki: &mut Wiki<K>) -> Option<DrainEnd>
    ensures goes { IfNone result (Renews wiki.old wiki.new) }
    ensures ends { IsSome result → wiki.new ≡ wiki.old }
    ensures full { result ≡ Some DrainEnd.JournalFull → wiki.old.journal ≡ [] }
    ensures not_done { result ≢ Some DrainEnd.Done }
    ensures no_fault { result ≢ Some DrainEnd.StoreFault }
    ensures keeper { wiki.new.keeper ≡ wiki.old.keeper }
{
    if wiki.point() == 0 {
        return Some(DrainEnd::JournalFull);
    }
    match wiki.renew() {
        Ok(()) => None,
        Err(_) => Some(DrainEnd::Memory),
    }
}

/// A round of a drain that serves the first fan job, which there is.
fn fan_round<K: Keeper>(wiki: &mut Wiki<K>) -> Option<DrainEnd>
    requires { IsSome (first_fan wiki.old.state.jobs) }
    ensures { IsRound K.told K.faults wiki.old wiki.new result }
{
    wiki.facts();
    match wiki.fan() {
        Ok(Some(_)) => None,
        Ok(None) => unreachable!(),
        Err(FanRefusal::JournalFull) => begin_anew(wiki),
        Err(FanRefusal::StoreFault) => Some(DrainEnd::StoreFault),
        Err(FanRefusal::Memory) => Some(DrainEnd::Memory),
    }
}

/// A round of a drain that refreshes the page of the first queued job, which there is.
fn refresh_round<K: Keeper>(wiki: &mut Wiki<K>, trees: &mut Trees) -> Option<DrainEnd>
    requires { IsSome (first_queued wiki.old.state.jobs) }
    ensures { IsRound K.told K.faults wiki.old wiki.new result }
{
    wiki.facts();
    match refresh_here(wiki, trees) {
        Ok(true) => None,
        Ok(false) => unreachable!(),
        Err(RefreshRefusal::JournalFull) => begin_anew(wiki),
        Err(RefreshRefusal::StoreFault) => Some(DrainEnd::StoreFault),
        Err(RefreshRefusal::Memory) => Some(DrainEnd::Memory),
    }
}

/// A round of a drain: the first fan job where one stands, else the first queued refresh job, else, where only claimed jobs
/// are left, a new journal, in which they are queued. Answers how the drain ends, where it does.
fn drain_round<K: Keeper>(wiki: &mut Wiki<K>, trees: &mut Trees) -> Option<DrainEnd>
    ensures { IsRound K.told K.faults wiki.old wiki.new result }
{
    wiki.facts();
    let left = wiki.left();
    if left.fans > 0 {
        return fan_round(wiki);
    }
    if left.queued > 0 {
        return refresh_round(wiki, trees);
    }
    if left.claimed > 0 {
        return begin_anew(wiki);
    }
    Some(DrainEnd::Done)
}

/// Rounds of a drain, up to the one with which it ends.
fn drain_rounds<K: Keeper>(wiki: &mut Wiki<K>, trees: &mut Trees) -> DrainEnd
    ensures drains { Drains K.told K.faults wiki.old wiki.new }
    ensures done { result ≡ DrainEnd.Done → HasNoJob wiki.new.state }
    ensures full { result ≡ DrainEnd.JournalFull → CanBeFull wiki.old }
    ensures fault { result ≡ DrainEnd.StoreFault → Rose (K.faults wiki.old.keeper) (K.faults wiki.new.keeper) }
    ensures no_fault { result ≢ DrainEnd.StoreFault → K.faults wiki.new.keeper ≡ K.faults wiki.old.keeper }
{
    'rounds: loop {
        wiki.facts();
        match drain_round(wiki, trees) {
            None => {}
            Some(end) => return end,
        }
    }
}

/// Does all jobs on one thread: serves fans until no fan job stands, and then refreshes pages until no job is left. Where the
/// journal isn't empty, and it is full or only claimed jobs are left, the journal begins anew, as behind a restart, and the
/// drain goes on.
///
/// `Done`: no job is left. `JournalFull` only where a job was left at the call, and the journal's limit is below 2, or the
/// number of the next job, with the pages above the cursors of all fan jobs, is above 2^62. `StoreFault` only where the
/// keeper's count of faults rose, which at each other end is as it was; `Memory` may come. Whatever the end, the state is given by lives of which the first goes on
/// from the wiki's journal, and nothing was saved. The limits stay, and a wiki that wasn't sealed isn't.
pub fn drain_here<K: Keeper>(wiki: &mut Wiki<K>) -> DrainEnd
    ensures lived { HasLived wiki.old wiki.new }
    ensures done { result ≡ DrainEnd.Done → HasNoJob wiki.new.state }
    ensures full { result ≡ DrainEnd.JournalFull → CanBeFull wiki.old }
    ensures fault { result ≡ DrainEnd.StoreFault → Rose (K.faults wiki.old.keeper) (K.faults wiki.new.keeper) }
    ensures no_fault { result ≢ DrainEnd.StoreFault → K.faults wiki.new.keeper ≡ K.faults wiki.old.keeper }
    ensures history { wiki.new.state.history ≡ wiki.old.state.history }
    ensures limits { wiki.new.start.limits ≡ wiki.old.start.limits }
    ensures whole { wiki.new.start.whole ≡ wiki.old.start.whole }
    ensures unsealed { wiki.old.start.sealed ≡ None → wiki.new.start.sealed ≡ None }
    ensures keeper { GoesOn K.told K.faults wiki.old wiki.new }
{
    wiki.facts();
    let Ok(mut trees) = Trees::new(wiki.allocator(), KEPT_TREES) else {
        return DrainEnd::Memory;
    };
    let end = drain_rounds(wiki, &mut trees);
    wiki.facts();
    end
}

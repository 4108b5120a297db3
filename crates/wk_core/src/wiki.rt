//! The wiki.
ghost use Rattle.std.specs.Prelude.{◌≡◌, is_some, length};
ghost use Rattle.wk_wiki_laws.specs.Saves.{Continues, saves};
ghost use Rattle.wk_life_laws.specs.Sound.{IsSoundSince};
ghost use Rattle.wk_life_laws.specs.Runs.{IsRun};
ghost use Rattle.wk_revs.specs.Edit.{most_held};
ghost use Rattle.wk_core.specs.Seen.{IsTold, failed_where};

use crate::life::Life;
use std::alloc::Global;
use std::marker::Model;
use wk_cache::Cache;
use wk_keeper::Keeper;
use wk_live::Live;
use wk_revs::Limits;

/// A wiki over a store. Contracts see how it began, the journal of what has happened since, its state, and its keeper.
/// They don't see the drafts that it keeps for whoever reads. By its type each of these is of its page's own text, each text
/// that was read for it is the text of its revision, and it has its page's number, 0 where the page was read to be missing.
///
/// Each call makes one event, or none. What was written to the store is Ok: all memory is taken before. A call that is
/// refused leaves the wiki as it was, but for `finish`, by which a ticket comes in whatever becomes of it. No call but
/// `load`, `renew` and `tables` goes over all pages, revisions or jobs.
#[derive(Drop)]
pub struct Wiki<K: Keeper> {
    pub(crate) keeper: K,
    pub(crate) life: Life,
    pub(crate) cache: Cache,
}

impl<K: Keeper> Model for Wiki<K> {
    ghost use Rattle.wk_core.specs.Seen.{WikiSeen, seen};
    ghost use Rattle.wk_core.specs.Cached.{IsKeeping};

    ghost Value = { WikiSeen K };

    ghost view = { λ w. seen K.is_whole K.told K.faults w.life.life w.keeper };

    ghost invariant = { λ w. IsKeeping K.told w.life.life.state w.keeper w.cache.entries };
}

impl<K: Keeper> Wiki<K> {
    /// What holds of each wiki. Takes no memory and does nothing.
    pub fn facts(&self)
        // The journal is one that calls make from the start, under its limits, and leads to the state. Laws of runs say
        // what follows.
        ensures run { IsRun self.now.start self.now.journal self.now.state }
        // Link rows are sound where they are at the start.
        ensures sound { IsSoundSince self.now.start.state self.now.state }
        // The revisions are those of the start, and then one for each save of the journal.
        ensures history { Continues self.now.start.state.history (saves self.now.journal) self.now.state.history }
        // The tables that the keeper tells are those of the state.
        ensures told { IsTold K.told self.now.state self.now.keeper }
        // It is the keeper that the start tells of.
        ensures whole { K.is_whole self.now.keeper ≡ self.now.start.whole }
        ensures tells { is_some (K.told self.now.keeper) ≡ self.now.start.tells }
        ensures failed { failed_where (K.is_whole self.now.keeper) (K.faults self.now.keeper) ≡ self.now.start.failed }
    {
        self.life.facts();
    }

    /// The state as it is held in memory, for calls that read it. Takes no memory.
    pub fn live(&self) -> &Live
        ensures { result.now.state ≡ self.now.state }
    {
        self.life.live()
    }

    /// How much the wiki may hold at most. Takes no memory.
    pub fn limits(&self) -> Limits
        ensures { most_held result ≡ self.now.start.limits }
    {
        self.life.limits()
    }

    /// The allocator of what the wiki holds. Takes no memory.
    pub fn allocator(&self) -> Global {
        self.life.allocator()
    }
}

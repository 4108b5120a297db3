//! The state of a wiki.
ghost use Rattle.std.specs.Prelude.{◌≡◌, ◌≤◌, OnOk};
ghost use Rattle.wk_wiki_rules.specs.States.{no_state};
ghost use Rattle.wk_wiki_rules.specs.Lives.{reopened};
ghost use Rattle.wk_live.specs.HeldState.{HasRoomFor};

use std::alloc::Global;
use std::marker::Model;
use wk_index::Index;
use wk_jobs::Jobs;
use wk_memory::Memory;
use wk_revs::Revs;

/// What a wiki is at one moment: the revisions and pages, the link rows that are stored of each page, and the jobs.
/// Contracts see the state, and for how much more there is room.
///
/// Its calls are the steps of the events. No call but `load` and `kept` takes a time that grows with the wiki, other than
/// with logarithms, with the tickets that are out and with the fan jobs.
#[derive(Drop)]
pub struct Live {
    pub(crate) revs: Revs,
    pub(crate) jobs: Jobs,
    pub(crate) index: Index,
}

impl Model for Live {
    ghost use Rattle.wk_live.specs.HeldState.{HeldState};

    ghost Value = { HeldState };

    ghost use Rattle.wk_live.specs.LiveHeld.{held, IsHeld};

    ghost view = { held };

    ghost invariant = { IsHeld };
}

impl Live {
    /// A wiki in which nothing was ever saved, with no room. Takes no memory.
    pub fn new(alloc: Global) -> Live
        ensures { result ≡ record { state = no_state; room = record { revisions = 0; pages = 0; refreshes = 0; fans = 0 } } }
    {
        Live {
            revs: Revs::new(alloc),
            jobs: Jobs::new(alloc),
            index: Index::new(alloc),
        }
    }

    /// The revisions and pages. Takes no memory.
    pub fn revs(&self) -> &Revs
        ensures { result.now ≡ record { history = self.now.state.history; spare = self.now.room.revisions } }
    {
        &self.revs
    }

    /// The jobs. Takes no memory.
    pub fn jobs(&self) -> &Jobs
        ensures { result.now
            ≡ record { lists = self.now.state.jobs; refresh_room = self.now.room.refreshes; fan_room = self.now.room.fans } }
    {
        &self.jobs
    }

    /// The link rows that are stored. Takes no memory.
    pub fn index(&self) -> &Index
        ensures { result.now ≡ record { stored = self.now.state.stored; spare = self.now.room.pages } }
    {
        &self.index
    }

    /// Makes room for one save, with its revision, its page and its fan job, and for so many refresh jobs. The state stays
    /// as it was, also where memory runs out.
    pub fn make_room(&mut self, refreshes: usize) -> Result<(), Memory>
        ensures state { self.new.state ≡ self.old.state }
        ensures room { OnOk result (HasRoomFor refreshes self.new.room) }
    {
        self.revs.make_room(1)?;
        self.index.make_room(1)?;
        self.jobs.make_room(refreshes, 1)
    }

    /// Queues each refresh job, in the order of their numbers, and counts on from the greatest number of a job that
    /// stands, as a restart does. Takes no memory.
    pub fn reopen(&mut self)
        ensures state { self.new.state ≡ reopened self.old.state }
        ensures room { self.new.room ≡ self.old.room }
    {
        self.jobs.reopen();
    }
}

//! The replica, and what is asked of it.
ghost use Rattle.std.specs.Prelude.{◌≡◌, true, false, None, Some, IfErr, IfOk, IfSome, length};
ghost use Rattle.wk_page_rules.specs.Verdict.{full_limits};
ghost use Rattle.wk_life_laws.specs.Caches.{IsLastingEntry};
ghost use Rattle.wk_life_laws.specs.Runs.{IsRun};
ghost use Rattle.wk_cache.specs.Entries.{entry_kept};
ghost use Rattle.wk_replica.specs.Replicas.{IsEmpty, IsNew};

use crate::loading::empty_wiki;
use std::alloc::Global;
use std::marker::Model;
use wk_core::{Kept, Wiki};
use wk_expand::Trees;
use wk_feed_lines::FeedRow;
use wk_keeper::MemKeeper;
use wk_memory::Memory;
use wk_title::Title;

/// Of how many texts the trees are kept for the lines of refreshes.
const MOST_KEPT: usize = 256;

/// A replica of a wiki, in memory. Contracts see how it began, the rows that were told until then, the events that were taken since,
/// the state behind them, and whether it is stopped.
///
/// Before the line of the start it is an empty wiki without events. A replica that is stopped, for want of memory, takes and answers
/// no more; its journal and its state stay as they were.
#[derive(Drop)]
pub struct Replica {
    /// The wiki that the events are made in. Where the replica is stopped this has one event more than was taken.
    pub(crate) wiki: Wiki<MemKeeper>,
    /// The rows, as long as the start wasn't told.
    pub(crate) rows: Vec<FeedRow>,
    /// The number of the line that told the start.
    pub(crate) line: Option<u64>,
    pub(crate) stopped: bool,
    pub(crate) trees: Trees,
}

impl Model for Replica {
    ghost use Rattle.wk_replica.specs.Inside.{IsKept, seen};
    ghost use Rattle.wk_replica.specs.Replicas.{ReplicaSeen};

    ghost Value = { ReplicaSeen };

    ghost view = { seen };

    ghost invariant = { IsKept };
}

impl Replica {
    /// A replica that has taken nothing yet.
    pub fn new(alloc: Global) -> Result<Replica, Memory>
        ensures { IfOk result IsNew }
    {
        let wiki = empty_wiki(alloc)?;
        let trees = Trees::new(alloc, MOST_KEPT)?;
        Ok(Replica {
            wiki,
            rows: Vec::new(alloc),
            line: None,
            stopped: false,
            trees,
        })
    }

    /// What holds of each replica. Takes no memory and does nothing.
    pub fn facts(&self)
        // The journal is one that calls with full limits make from the start, and leads to the state. Laws of runs say what
        // follows.
        ensures run { self.now.stopped ≡ false → IsRun self.now.start.wiki self.now.journal self.now.state }
        ensures limits { self.now.start.wiki.limits ≡ full_limits }
        ensures unsealed { self.now.start.wiki.sealed ≡ None }
        // Before the line of the start it is an empty wiki without events, and isn't stopped.
        ensures empty { self.now.start.line ≡ None → IsEmpty self.now }
    {
        self.wiki.facts();
    }

    /// Whether it takes and answers no more. Takes no memory.
    pub fn stopped(&self) -> bool
        ensures { result ≡ self.now.stopped }
    {
        self.stopped
    }

    /// How many events were taken. Takes no memory.
    pub fn taken(&self) -> u64
        ensures { result ≡ length self.now.journal }
    {
        if self.stopped {
            return self.wiki.point() - 1;
        }
        self.wiki.point()
    }

    /// The number of the line that told the start, counted from 1; `None` before it. Takes no memory.
    pub fn start_line(&self) -> Option<u64>
        ensures { result ≡ self.now.start.line }
    {
        self.line
    }

    /// The allocator of what it holds. Takes no memory.
    pub fn allocator(&self) -> Global {
        self.wiki.allocator()
    }

    /// The wiki that its events are made in, for whoever reads it, where it isn't stopped. Takes no memory.
    pub fn wiki(&self) -> &Wiki<MemKeeper>
        requires going { self.now.stopped ≡ false }
        ensures start { result.now.start ≡ self.now.start.wiki }
        ensures journal { result.now.journal ≡ self.now.journal }
        ensures state { result.now.state ≡ self.now.state }
    {
        &self.wiki
    }

    /// What is kept of the page, for a further owner, as `Wiki::kept` tells of it. It isn't stopped.
    pub fn kept(&mut self, page: &Title) -> Result<Option<Kept>, Memory>
        requires going { self.old.stopped ≡ false }
        ensures kept { IfOk result (λ found. IfSome found (λ kept.
            (kept.draft.page ≡ page.now) × IsLastingEntry self.old.state (entry_kept kept))) }
        ensures same { self.new ≡ self.old }
    {
        self.wiki.kept(page)
    }

    /// Keeps a draft of a page's own text, as `Wiki::keep` does. It isn't stopped.
    ///
    /// After an `Err` what is kept is as before, and the draft is handed back.
    pub fn keep(&mut self, kept: Kept) -> Result<(), (Kept, Memory)>
        requires going { self.old.stopped ≡ false }
        requires lasting { IsLastingEntry self.old.state (entry_kept kept) }
        ensures refused { IfErr result (λ refused. refused.0 ≡ kept) }
        ensures same { self.new ≡ self.old }
    {
        self.wiki.keep(kept)
    }
}

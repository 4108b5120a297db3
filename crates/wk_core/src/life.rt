//! A wiki's life since its store was opened: how it began, its journal, and its state.
ghost use Rattle.std.specs.Prelude.{◌≡◌, ℕ, ◌+◌, ◌≤◌, ◌<◌, [], ◌∷◌, ◌++◌, None, Some, length, IfOk, IfSome, OnErr, OnOk};
ghost use Rattle.std.specs.Option.{option_copied};
ghost use Rattle.wk_page_rules.specs.Verdict.{is_journal_full};
ghost use Rattle.wk_wiki_rules.specs.Verdicts.{journal_use};
ghost use Rattle.wk_wiki_rules.specs.Entries.{event_of_entry};
ghost use Rattle.wk_wiki_rules.specs.Room.{is_claim_refused, tickets_out};
ghost use Rattle.wk_life_laws.specs.Lives.{IsLife, journal_of};
ghost use Rattle.wk_revs.specs.Edit.{most_held};

use std::alloc::Global;
use std::marker::Model;
use wk_live::{Kept, Live};
use wk_memory::Memory;
use wk_revs::Limits;
use wk_wiki_rules::Entry;

/// A wiki's life since its store was opened. Contracts see what it keeps of how it began, its entries and its state, and
/// for how much more there is room.
#[derive(Drop)]
pub struct Life {
    pub(crate) live: Live,
    pub(crate) entries: Vec<Entry>,
    /// The state at the start, with the jobs as they stood before the restart that it begins with.
    pub(crate) kept: Kept,
    pub(crate) limits: Limits,
    pub(crate) sealed: Option<u64>,
    /// For how many entries more there is room, beside those by which the tickets that are out come in.
    pub(crate) spare: usize,
}

impl Model for Life {
    ghost use Rattle.wk_core.specs.LifeHeld.{LifeHeld};

    ghost Value = { LifeHeld };

    ghost use Rattle.wk_core.specs.LifeInside.{held, IsHeld};

    ghost view = { held };

    ghost invariant = { IsHeld };
}

impl Life {
    /// What holds of what is kept. Takes no memory.
    pub fn facts(&self)
        ensures { IsLife self.now.life }
    {
        let _spare = self.spare;
    }

    /// The state. Takes no memory.
    pub fn live(&self) -> &Live
        ensures { result.now ≡ record { state = self.now.life.state; room = self.now.room } }
    {
        &self.live
    }

    /// The allocator. Takes no memory.
    pub fn allocator(&self) -> Global {
        *self.entries.allocator()
    }

    /// How much the wiki may hold at most. Takes no memory.
    pub fn limits(&self) -> Limits
        ensures { most_held result ≡ self.now.life.limits }
    {
        self.limits
    }

    /// The journal's length. Takes no memory.
    pub fn point(&self) -> u64
        ensures entries { result ≡ length self.now.life.entries }
        ensures journal { result ≡ length (journal_of self.now.life) }
    {
        self.entries.len() as u64
    }

    /// The journal's length and an event for each ticket that is out. Takes no memory.
    fn used(&self) -> u64
        ensures used { result ≡ length self.now.life.entries + tickets_out self.now.life.state }
        ensures within { result ≤ self.now.life.limits.journal }
    {
        self.point() + self.live.jobs().left().claimed
    }

    /// Whether the journal has no room for a save or a fan, or the numbers of jobs have come to their end. Takes no
    /// memory.
    pub fn is_full(&self) -> bool
        ensures { result ≡ is_journal_full self.now.life.limits (journal_use self.now.life.state (length (journal_of self.now.life))) }
    {
        self.limits.journal <= self.used() || MAX_JOB < self.live.jobs().next_number()
    }

    /// Whether the journal has no room for a claim and for the event by which its ticket comes in. Takes no memory.
    pub fn is_full_for_claim(&self) -> bool
        ensures { result ≡ is_claim_refused self.now.life.limits self.now.life.state (length (journal_of self.now.life)) }
    {
        self.limits.journal < self.used() + 2
    }

    /// Makes room for so many entries more, beside those by which the tickets that are out come in.
    pub fn make_room(&mut self, entries: usize) -> Result<(), Memory>
        requires { entries ≤ 2 }
        ensures life { self.new.life ≡ self.old.life }
        ensures state_room { self.new.room ≡ self.old.room }
        ensures room { OnOk result (entries ≤ self.new.spare) }
    {
        let claimed = self.live.jobs().left().claimed as usize;
        self.entries.reserve(claimed + entries)?;
        self.spare = entries;
        Ok(())
    }
}

/// The greatest number of the next job at which a save or a fan may begin.
const MAX_JOB: u64 = 4_611_686_018_427_387_904;

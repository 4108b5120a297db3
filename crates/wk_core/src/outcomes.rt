//! What the wiki's calls answer.
ghost use Rattle.std.specs.Prelude.{◌≡◌};
ghost use Rattle.wk_core.specs.Answers.{cause_of};
ghost use Rattle.wk_core.specs.declared.outcomes.ClaimRefusal.TheVariants.{Memory as NoMemoryToClaim};
ghost use Rattle.wk_core.specs.declared.outcomes.LoadCause.TheVariants.{Memory as NoMemoryToLoad};

use thiserror::Error;
use wk_expand::{Kind, SharedDraft};
use wk_keeper::KeeperRefusal;
use wk_memory::Memory;
use wk_tables::BadStore;
use wk_title::Title;

/// What became of a save that wasn't refused (MediaWiki's API:Edit tells the same).
#[derive(Drop)]
pub enum Saved {
    /// The page was missing, and exists now.
    New {
        /// The title that the edit names.
        title: Title,
        /// The number of the page. A title that was deleted has its old number.
        page: u32,
        /// The revision that was current before: 0.
        old: u64,
        /// The revision that was made.
        new: u64,
    },
    /// The page existed. It has another text now, or is missing after a deletion.
    Changed {
        /// The title that the edit names.
        title: Title,
        /// The number of the page.
        page: u32,
        /// The revision that was current before.
        old: u64,
        /// The revision that was made.
        new: u64,
    },
    /// The page has this text already. Nothing was saved.
    NoChange {
        /// The title that the edit names.
        title: Title,
        /// The number of the page.
        page: u32,
    },
}

/// Why a wiki wasn't opened. The keeper comes back.
#[derive(Drop)]
pub struct LoadRefusal<K> {
    /// The keeper. Its tables are as before.
    pub keeper: K,
    /// The cause.
    pub cause: LoadCause,
}

/// The cause why a wiki wasn't opened.
#[derive(Clone, Copy, Debug, PartialEq, Eq, Error)]
pub enum LoadCause {
    /// The store failed, when its tables were read or when tables of an older version were to be changed.
    #[error("the store failed")]
    StoreFault,
    /// The tables break a rule of a good store: the first that is broken, and its least row.
    #[error("the store is bad: rule {}, row {}", .0.rule, .0.row)]
    BadStore(BadStore),
    /// Memory ran out.
    #[error("out of memory")]
    Memory,
}

impl From<KeeperRefusal> for LoadCause {
    ghost from_gives = { λ refusal cause. cause ≡ cause_of refusal };

    fn from(refusal: KeeperRefusal) -> LoadCause {
        match refusal {
            KeeperRefusal::Failed => LoadCause::StoreFault,
            KeeperRefusal::Memory => LoadCause::Memory,
        }
    }
}

impl From<Memory> for LoadCause {
    ghost from_gives = { λ _ cause. cause ≡ NoMemoryToLoad };

    fn from(_: Memory) -> LoadCause {
        LoadCause::Memory
    }
}

/// Why no job was claimed.
#[derive(Clone, Copy, Debug, PartialEq, Eq, Error)]
pub enum ClaimRefusal {
    /// The journal has no room for the claim and for the event by which its ticket comes in again.
    #[error("the journal is full")]
    JournalFull,
    /// Memory ran out.
    #[error("out of memory")]
    Memory,
}

impl From<Memory> for ClaimRefusal {
    ghost from_gives = { λ _ refusal. refusal ≡ NoMemoryToClaim };

    fn from(_: Memory) -> ClaimRefusal {
        ClaimRefusal::Memory
    }
}

/// Why no fan job was served.
#[derive(Clone, Copy, Debug, PartialEq, Eq, Error)]
pub enum FanRefusal {
    /// The journal has no room for another event, or the numbers of jobs have come to their end.
    #[error("the journal is full")]
    JournalFull,
    /// The store failed.
    #[error("the store failed")]
    StoreFault,
    /// Memory ran out.
    #[error("out of memory")]
    Memory,
}

/// What a step of a fan job did.
#[derive(Drop)]
pub struct Fanned {
    /// The title whose users it serves.
    pub title: Title,
    /// How many pages it served, at most 300.
    pub served: u32,
    /// How many of them had no refresh job, and have one now.
    pub queued: u32,
}

/// How a refresh came in.
#[derive(Drop)]
pub enum Finished {
    /// The page's link rows are those that it has in the present world, and its job is gone.
    Done,
    /// A title that was read has changed since: the first such read. The job is queued again.
    Stale {
        /// The title that was read.
        title: Title,
        /// What was asked of it.
        kind: Kind,
        /// The mark that was read.
        read: u64,
        /// The mark that it has now.
        now: u64,
    },
    /// The store failed. The job is queued again.
    StoreFault,
    /// Memory ran out. The job is queued again.
    Memory,
}

/// What a page, or a text in the place of its own, expands to at a point.
#[derive(Drop)]
pub struct PageRead {
    /// The expansion.
    pub draft: SharedDraft,
    /// The point at which it is so.
    pub point: u64,
    /// The number of the draft's page, 0 where it is missing.
    pub id: u32,
}

/// Why a page isn't read.
#[derive(Clone, Copy, Debug, PartialEq, Eq, Error)]
pub enum ReadRefusal {
    /// The least point that was asked for isn't reached yet: the journal's length.
    #[error("the journal has only {0} events")]
    Future(u64),
    /// Memory ran out.
    #[error("out of memory")]
    Memory,
}

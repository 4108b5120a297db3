//! How far an expansion has come.
ghost use Rattle.std.specs.Prelude.{◌≡◌, ◌+◌, length};
ghost use Rattle.std.specs.Bool.{OnTrue, OnFalse};
ghost use Rattle.wk_view_rules.specs.Expansions.{Expansion, Output, argument_within_limit, charged, give, inclusion_within_limit};
ghost use Rattle.wk_view_rules.specs.Texts.{node_error};
ghost use Rattle.wk_view_rules.specs.Worlds.{Seen};
ghost use Rattle.wk_expand.specs.State.{current};
ghost use Rattle.wk_expand.specs.Running.{ComesTo};
ghost use Rattle.wk_expand.specs.declared.state.Stop.TheVariants.{Memory as NoMemory};

use crate::answer::Counts;
use crate::seen::Seen;
use std::alloc::{AllocError, AllocFailed, Global};
use wk_frames::Levels;
use wk_memory::Memory;
use wk_title::Title;
use wk_tree::Parsed;
use wk_view_rules::Kind;

/// The nodes that an expansion costs at most (own).
const MOST_NODES: u64 = 1_000_000;

/// Why an expansion stops.
#[derive(Drop)]
pub enum Stop {
    /// This title was not seen with this kind.
    Needs(Title, Kind),
    /// Memory ran out.
    Memory,
}

impl From<AllocError> for Stop {
    ghost from_gives = { λ _ e. e ≡ NoMemory };

    fn from(_: AllocError) -> Stop {
        Stop::Memory
    }
}

impl<T: Drop> From<AllocFailed<T>> for Stop {
    ghost from_gives = { λ _ e. e ≡ NoMemory };

    fn from(_: AllocFailed<T>) -> Stop {
        Stop::Memory
    }
}

impl From<Memory> for Stop {
    ghost from_gives = { λ _ e. e ≡ NoMemory };

    fn from(_: Memory) -> Stop {
        Stop::Memory
    }
}

/// How far the expansion of a viewed page has come.
#[derive(Drop)]
pub struct Expander {
    /// The allocator of what is made on the way.
    pub alloc: Global,
    /// The viewed page.
    pub page: Title,
    /// The texts that are expanded within each other.
    pub levels: Levels,
    /// What was counted.
    pub counts: Counts,
    /// The titles that were tested for existence, in order.
    pub tested: Vec<Title>,
    /// What was read.
    pub reads: Seen,
}

impl Expander {
    /// The text whose items are expanded.
    pub fn tree(&self) -> &Parsed
        ensures { result.now ≡ current self.now }
    {
        self.levels.tree()
    }

    /// Charges so many nodes. Where the budget hasn't so many it is spent, and the answer is false.
    pub fn charge(&mut self, n: u64) -> bool
        ensures within { OnTrue result ((seen : Seen) (rest : Expansion Output)
            → ComesTo seen (charged n rest) self.old rest self.new) }
        ensures spent { OnFalse result ((seen : Seen) (rest : Expansion Output)
            → ComesTo seen (charged n rest) self.old (give node_error) self.new) }
    {
        match self.counts.nodes.checked_add(n) {
            Some(nodes) if nodes <= MOST_NODES => {
                self.counts.nodes = nodes;
                true
            }
            _ => {
                self.counts.nodes = MOST_NODES;
                false
            }
        }
    }
}

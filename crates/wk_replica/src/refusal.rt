//! Why a line isn't taken.
ghost use Rattle.std.specs.Prelude.{◌≡◌};
ghost use Rattle.wk_replica.specs.declared.refusal.TakeRefusal.TheVariants.{Memory as NoMemoryToTake};

use thiserror::Error;
use wk_memory::Memory;

/// Why a line of a feed isn't taken.
#[derive(Clone, Copy, Debug, PartialEq, Eq, Error)]
pub enum TakeRefusal {
    /// The line with this number, counted from 1, is bad.
    #[error("line {0} of the feed is bad")]
    BadLine(u64),
    /// Memory ran out.
    #[error("out of memory")]
    Memory,
}

impl From<Memory> for TakeRefusal {
    ghost from_gives = { λ _ refusal. refusal ≡ NoMemoryToTake };

    fn from(_: Memory) -> TakeRefusal {
        TakeRefusal::Memory
    }
}

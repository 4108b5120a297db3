//! Why words ask for nothing.
ghost use Rattle.std.specs.Prelude.{◌≡◌};
ghost use Rattle.wk_words.specs.declared.refusals.Refusal.TheVariants.{Memory as NoMemory};

use std::alloc::AllocError;
use thiserror::Error;

/// Why words ask for no command.
#[derive(Debug, Drop, Error)]
pub enum Refusal {
    /// The words aren't a legal command line. The text says what is wrong with them, for standard error.
    #[error("{0}")]
    Words(String),
    /// Help is asked for. The text is for standard output.
    #[error("{0}")]
    Help(String),
    /// The version is asked for. The text is for standard output.
    #[error("{0}")]
    Version(String),
    /// Memory ran out, which may come at any words.
    #[error("out of memory")]
    Memory,
}

impl From<AllocError> for Refusal {
    ghost from_gives = { λ _ refusal. refusal ≡ NoMemory };

    fn from(_: AllocError) -> Refusal {
        Refusal::Memory
    }
}

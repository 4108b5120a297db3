//! Why a program stops before the end of its input.
ghost use Rattle.std.specs.Prelude.{◌≡◌};
ghost use Rattle.wk_lines.specs.Stop.{status_of};

use thiserror::Error;
use wk_memory::Memory;

/// Why a program that answers the lines of an input stopped before their end.
#[derive(Clone, Copy, Debug, PartialEq, Eq, Error)]
pub enum Stop {
    /// Memory ran out.
    #[error("out of memory")]
    Memory,
    /// A read of the input failed.
    #[error("the input failed")]
    ReadFault,
    /// A write of the output failed.
    #[error("the output failed")]
    WriteFault,
    /// 2^40 bytes were read.
    #[error("the input is too long")]
    Bound,
}

impl Stop {
    /// The status with which the program ends (own).
    pub fn status(self) -> u8
        ensures { result ≡ status_of self }
    {
        match self {
            Stop::Memory => 1,
            Stop::ReadFault => 3,
            Stop::WriteFault => 4,
            Stop::Bound => 9,
        }
    }
}

impl From<Memory> for Stop {
    ghost use Rattle.wk_lines.specs.declared.stop.Stop.TheVariants.{Memory as WantOfMemory};

    ghost from_gives = { λ _ stop. stop ≡ WantOfMemory };

    fn from(_: Memory) -> Stop {
        Stop::Memory
    }
}

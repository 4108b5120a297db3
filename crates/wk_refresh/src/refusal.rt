//! Why jobs are left.

use thiserror::Error;

/// Why a worker stopped before no job was left.
#[derive(Clone, Copy, Debug, PartialEq, Eq, Error)]
pub enum DrainRefusal {
    /// The journal has no room.
    #[error("the journal is full")]
    JournalFull,
    /// The store failed.
    #[error("the store failed")]
    StoreFault,
    /// Memory ran out.
    #[error("out of memory")]
    Memory,
}

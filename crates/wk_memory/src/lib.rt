//! The one answer of a call that found no memory.
#![tactic(auto)]

use std::alloc::{AllocError, AllocFailed};
use thiserror::Error;

/// Memory ran out, and the call changed nothing unless its own page says otherwise.
/// A call may give this answer at any time, and no clause ties it to a refused allocation (own).
#[derive(Clone, Copy, Debug, PartialEq, Eq, Error)]
#[error("out of memory")]
pub struct Memory;

impl From<AllocError> for Memory {
    fn from(_: AllocError) -> Memory {
        Memory
    }
}

impl<T: Drop> From<AllocFailed<T>> for Memory {
    fn from(_: AllocFailed<T>) -> Memory {
        Memory
    }
}

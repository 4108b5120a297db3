//! Draining a shared wiki: workers do the jobs that stand, each on a thread of its own, until none is left.
#![tactic(auto)]

mod drains;
mod hands;
mod refusal;

pub use drains::drain;
pub use refusal::DrainRefusal;
pub use wk_readers::{Reader, Worker};

//! Wikis over stores in memory, and their replies to parameters, for the probe and for tests.
#![tactic(auto)]

mod replies;
mod stores;

pub use replies::reply;
pub use stores::{Store, empty};

//! A replica of a wiki that takes a feed while many threads serve the connections of a door from it.
#![tactic(auto)]

mod begins;
mod ends;
mod lines;
mod readers;
mod serves;
mod taker;

pub use begins::{Begun, begin_replica};
pub use ends::FeedEnd;
pub use serves::{ServedReplica, serve_replica};
pub use wk_door::{Shut, Taken};
pub use wk_lines::LineReader;
pub use wk_replica_reads::Replica;

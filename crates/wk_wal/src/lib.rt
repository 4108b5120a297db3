//! What a look at SQLite's write-ahead log tells, before the database is opened (sqlite.org/fileformat2.html#walformat).
#![tactic(auto)]

mod frames;
mod head;
mod kinds;
mod looks;

pub use frames::Frames;
pub use kinds::{LogKind, kind_of};
pub use looks::{LogFound, look};

//! A keeper over a SQLite database in memory, which tells its tables.
#![tactic(auto)]

mod keeper;
mod ranges;

pub use keeper::SqlMemory;

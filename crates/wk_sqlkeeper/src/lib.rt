//! A keeper of a wiki's tables in a SQLite database, over any store of `sqlite`: a file, or memory.
//!
//! The tables have the names and columns of MediaWiki's Manual:Database layout, with those of this profile beside them,
//! so the shell `sqlite3` reads them while no wiki has the file open. Each change is one transaction.
#![tactic(auto)]

mod adoption;
mod answers;
mod cause;
mod changes;
mod columns;
mod keeper;
mod loading;
mod numbers;
mod order;
mod rising;
mod rows;
mod texts;

pub use cause::{SqlCause, cause_of};
pub use keeper::SqlKeeper;

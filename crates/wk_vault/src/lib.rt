//! The vault of the program's stores: a store in memory, or one in a SQLite file.
#![tactic(auto)]

mod cause;
mod file_vault;
mod opening;
mod start;
mod stored;
mod tells;
mod verdict;

pub use cause::StoreCause;
pub use file_vault::FileVault;
pub use stored::{Closed, Stored, close_opened};
pub use wk_sqlkeeper::SqlCause;

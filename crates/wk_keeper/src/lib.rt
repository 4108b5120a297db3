//! Where the tables of a wiki are kept: what a keeper and a vault of keepers promise, and their forms in memory.
//!
//! A keeper tells by its ghost members what it can: its tables, or nothing. It has a count of faults, which never
//! falls and stops at the end of `u64`, and it tells where that count can't rise: then it is whole.
#![tactic(auto)]

mod fail_keeper;
mod fail_vault;
mod keeper;
mod list_vault;
mod mem_keeper;
mod mem_vault;

pub use fail_keeper::FailKeeper;
pub use fail_vault::FailVault;
pub use keeper::{Keeper, KeeperRefusal, OpenRefusal, Vault};
pub use list_vault::ListVault;
pub use mem_keeper::MemKeeper;
pub use mem_vault::MemVault;

//! The changes of a store's tables that go with what happens to a wiki, made from the wiki's revisions, jobs and link
//! rows, and the tables of all that it holds.
#![tactic(auto)]

mod all_tables;
mod fans;
mod job_rows;
mod links;
mod migrations;
mod refreshes;
mod rows;
mod saves;

pub use all_tables::tables;
pub use fans::fan_change;
pub use migrations::migration;
pub use refreshes::{refresh_change, refresh_change_without_rows};
pub use saves::save_change;

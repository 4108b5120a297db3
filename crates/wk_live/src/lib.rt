//! The state of a wiki in memory: its revisions and pages, its jobs and the link rows that are stored, changed together as
//! each event changes them. No store and no journal stands behind it.
#![tactic(auto)]

mod answering;
mod claims;
mod fans;
mod kept;
mod laws;
mod live;
mod load;
mod reads;
mod refreshes;
mod saves;

pub use answering::draft_now;
pub use kept::Kept;
pub use laws::{a_held_page_is_claimed, stale_reads_are_those_of_the_rules};
pub use live::Live;

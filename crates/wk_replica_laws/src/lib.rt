//! Laws of sessions with a replica, and worked examples of what a replica replies. Each is the contract of a function with an empty
//! body.
#![tactic(auto)]

mod examples;
mod sessions;

pub use examples::{a_replica_before_its_start, a_replica_of_a_cut_feed, a_replica_of_one_page};
pub use sessions::points_of_reads_never_fall;

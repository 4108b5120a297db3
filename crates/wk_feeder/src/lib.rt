//! The feed of a shared wiki: the lines of the tables at its start, and then a line for each event, each once and in their order.
#![tactic(auto)]

mod events;
mod feeder;
mod lines;
mod output;
mod rows;
mod start;

pub use feeder::Feeder;
pub use output::{Begins, Fed, FeedOutput};
pub use start::{FeedRefusal, feed_start};
pub use wk_base::Sink;
pub use wk_core::{Keeper, Wiki};
pub use wk_shared::{Pass, Shared};

//! What the lines of a feed say: rows of a store's tables, that all rows are told, and events.
#![tactic(auto)]

mod cells;
mod events;
mod forms;
mod line;
mod reading;
mod rows;

pub use line::{EventLine, FeedLine, FeedRow};
pub use reading::read_line;

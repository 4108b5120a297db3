//! Threads that take the links of one door, one after the other, and serve each to its end, whoever serves them.
#![tactic(auto)]

mod crew;
mod rounds;

pub use crew::Crew;
pub use rounds::{serve_all, serve_rounds};
pub use wk_door::{Closed, Door, Entrance, Entry, Shut, Taken};
pub use wk_link::Link;

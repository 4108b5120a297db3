//! What connections come in by, and a clock that many threads read.
//!
//! A [`Door`] tells by its ghost member what it can, as the traits of `wk_base` do, and has a count of faults as they have.
#![tactic(auto)]

mod door;
mod entrance;
mod locked_clock;
mod mem_door;

pub use door::Door;
pub use entrance::{Closed, Entrance, Entry, Shut, Taken};
pub use locked_clock::LockedClock;
pub use mem_door::MemDoor;
pub use wk_base::{Clock, Failed, Memory};
pub use wk_link::{Link, MemLink};

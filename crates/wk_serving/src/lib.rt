//! Work on a wiki by many threads: the wiki is shared, each worker has a pass of it, and once all have returned their passes are
//! joined and the wiki is taken back. Workers do its jobs, or serve the connections that come in by a door, and send its
//! feed meanwhile where that is asked.
#![tactic(auto)]

mod drains;
mod fed;
mod hands;
mod serves;

pub use drains::drain_wiki;
pub use fed::{ServedFed, serve_fed};
pub use serves::{Served, serve_wiki};
pub use wk_door::{Shut, Taken};
pub use wk_feeder::FeedRefusal;
pub use wk_tools::DrainEnd;

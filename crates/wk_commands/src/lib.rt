//! What the program's commands do over a wiki that was just opened: `check` on one thread, and `jobs`, `gen` and `serve` by workers on
//! threads of their own. And what `replica` does with the feed of another wiki, over no store.
#![tactic(auto)]

mod checks;
mod drains;
mod ends;
mod feeds;
mod generates;
mod lines;
mod replicas;
mod serves;
mod works;

pub use checks::check_pages;
pub use drains::drain_jobs;
pub use ends::CommandEnd;
pub use generates::generate_pages;
pub use replicas::{Following, ReplicaEnd, follow_feed};
pub use serves::{Serving, serve_links};
pub use works::{Hands, Work, Worked, limits_with_journal, serve_over, work_over};

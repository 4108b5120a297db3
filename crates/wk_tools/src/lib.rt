//! The tools of a wiki: refreshes and drains on one thread, a check of all link rows, and generated pages.
#![tactic(auto)]

mod checks;
mod drains;
mod drawing;
mod generator;
mod refreshes;

pub use checks::check;
pub use drains::{DrainEnd, drain_here};
pub use generator::generate;
pub use refreshes::{RefreshRefusal, refresh_here};

//! The links in an output.
#![tactic(auto)]

mod brackets;
mod found;
mod scan;
mod what;

pub use found::{Found, What};
pub use scan::links;

//! What the parameters of a request ask, or why they ask nothing.
#![tactic(auto)]

mod asked;
mod checks;
mod edits;
mod flags;
mod listings;
mod modules;
mod numbers;
mod pages;
mod parameters;
mod queries;
mod refusal;
mod request;

pub use asked::{Asked, ListAsked, ReadAsked, SaveAsked, SiteAsked};
pub use listings::Listing;
pub use refusal::RequestRefusal;
pub use request::{Ask, Request};

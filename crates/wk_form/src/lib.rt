//! The parameters of a request, read from its query and its body.
#![tactic(auto)]

mod params;

pub use params::Params;

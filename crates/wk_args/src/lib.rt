//! The arguments of a template: values under names.
#![tactic(auto)]

mod args;

pub use args::Args;

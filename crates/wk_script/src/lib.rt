//! A script over a wiki: its lines, answered one after the other.
#![tactic(auto)]

mod answers;
mod api;
mod run;
mod script;
mod serving;

pub use script::{ScriptEnd, ScriptReport, run_script};

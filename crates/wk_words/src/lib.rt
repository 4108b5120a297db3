//! The words of the program's command line: what they ask for, or why they are refused.
#![tactic(auto)]

mod commands;
mod options;
mod reading;
mod refusals;
mod reports;

pub use commands::Command;
pub use reading::{CommandLine, read, refusal_text};
pub use refusals::Refusal;
pub use wk_report_rules::Report;

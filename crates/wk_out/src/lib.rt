//! Outputs of an expansion: lists of bytes, each plain or sealed. A sealed byte comes from text between tags as
//! `<nowiki>`, and is nowhere read as markup.
#![tactic(auto)]

mod blank;
mod error_text;
mod output;
mod run;
mod runs;

pub use output::Out;
pub use runs::Runs;

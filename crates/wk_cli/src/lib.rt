//! The top call of the program `wiki`.
#![tactic(auto)]

mod ends;
mod helps;
mod replicas;
mod reports;
mod scripts;
mod serves;
mod top;
mod works;

pub use ends::Finish;
pub use top::wiki_main;
pub use wk_words::refusal_text;

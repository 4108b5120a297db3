//! Substitution before a save: what a text becomes where the templates that it calls by `subst:` are put in, by the answers
//! that were seen so far.
#![tactic(auto)]

mod bindings;
mod call;
mod drafting;
mod items;
mod machine;
mod names;
mod output;
mod reads;
mod spent;
mod stack;
mod substituted;
mod texts;
mod work;

pub use machine::{SubstMachine, SubstRan, substitute};
pub use substituted::{SubstStep, Substituted};
pub use texts::Texts;

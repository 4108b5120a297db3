//! What is made step by step of answers that it asks for: a draft, or what a text becomes before it is saved. One loop makes it,
//! whatever answers: the present world of a wiki, a wiki that threads share, or answers that are known.
#![tactic(auto)]

mod answering;
mod drafted;
mod drafting;
mod known;
mod machines;

pub use answering::Answering;
pub use drafted::{Ended, drafted_by};
pub use drafting::{Drafting, Run};

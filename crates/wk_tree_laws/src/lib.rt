//! Laws of the rules of trees. Each is the contract of a function that does nothing, named for what it says.
#![tactic(auto)]

pub mod atoms;
pub mod delimiters;
pub mod selection;
pub mod trees;

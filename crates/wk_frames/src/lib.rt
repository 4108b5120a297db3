//! The pages that include each other in an expansion, and what is bound in each of them.
#![tactic(auto)]

mod binding;
mod frames;
mod levels;
mod tree;
mod trimming;

pub use binding::{bind, bind_name, bind_number};
pub use levels::{Bound, Level, Levels};
pub use tree::Tree;
pub use trimming::{made_or, trimmed, trimmed_copy};

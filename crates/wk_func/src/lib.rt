//! The functions and variables of templates: which of them a title part calls, when two operands are equal, and what
//! the items of a `#switch` decide.
#![tactic(auto)]

mod equality;
mod switch;
mod word;

pub use equality::equal;
pub use switch::Switch;
pub use wk_view_rules::{Func, Turned, Var, Word};
pub use word::{find, find_plain};

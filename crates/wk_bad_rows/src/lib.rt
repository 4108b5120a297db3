//! Which row of a store breaks a rule: its table, its key, and the rule in words, for who has to look at it; and in words what the lines
//! of a feed are, one of which is bad.
#![tactic(auto)]

mod keys;
mod places;
mod rules;

pub use keys::{LinkTable, RowKey, key_in_store};
pub use rules::rule_text;

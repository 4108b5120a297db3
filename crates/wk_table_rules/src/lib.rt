//! The rules of the tables of a store, as definitions: their rows, what a change does to them, and when they are good.
//! Nothing here runs. The contracts of the crates above cite `specs/`.
#![tactic(auto)]

/// Where a store breaks a rule.
#[derive(Clone, Copy, Debug, PartialEq, Eq)]
pub struct BadStore {
    /// The number of the first rule that is broken, from 1 to 7.
    pub rule: u8,
    /// The least row that breaks it, counted from 1.
    pub row: u64,
}

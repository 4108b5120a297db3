//! Worked examples of the rules, as theorems: each is computed from its definition.
//! Nothing stands on this crate, and nothing here runs.
#![tactic(auto)]

pub mod atoms;
pub mod call_laws;
pub mod calls;
pub mod faults;
pub mod jobs;
pub mod laws;
pub mod links;
pub mod listings;
pub mod lives;
pub mod numerals;
pub mod pages;
pub mod redirects;
pub mod refreshes;
pub mod request_answers;
pub mod requests;
pub mod rows;
pub mod runs;
pub mod script;
pub mod script_runs;
pub mod selection;
pub mod states;
pub mod substs;
pub mod tables;
pub mod titles;
pub mod tools;
pub mod trees;
pub mod views;
pub mod words;

//! Laws of a wiki's calls: of the journal that they make, of its room, its tickets and its seal, of the tables that its
//! keeper keeps, of what a wiki keeps at all times, of numbers, and of listings. And of its states: what its events, its restarts
//! and its lives keep, and what they change. Nothing here runs.
#![tactic(auto)]

pub mod fans;
pub mod history;
pub mod journals;
pub mod kept;
pub mod listings;
pub mod numbers;
pub mod seals;
pub mod soundness;
pub mod stores;
pub mod tables;

//! Laws of what a wiki keeps from its opening on: how it begins, what each event and a seal make of it, which room it
//! has, and what holds of the start, the journal and the state that it tells. And of what its calls rest on: what was read for a
//! refresh, the saves that are accepted, the start that is told, the numbers of pages, what caches keep, and soundness.
//! Nothing here runs.
#![tactic(auto)]

pub mod accepted_saves;
pub mod begins;
pub mod caches;
pub mod events;
pub mod numbers;
pub mod pages;
pub mod refreshes;
pub mod room;
pub mod runs;
pub mod saves;
pub mod seals;
pub mod soundness;
pub mod starts;
pub mod tickets;

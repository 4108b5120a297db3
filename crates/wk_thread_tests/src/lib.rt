//! Tests of a wiki that threads share: its calls, reads of it, and its workers. Nothing stands on this crate, and it holds
//! nothing but tests.
#![tactic(auto)]

#[cfg(test)]
mod calls;
#[cfg(test)]
mod drained;
#[cfg(test)]
mod gates;
#[cfg(test)]
mod pages;
#[cfg(test)]
mod raced;
#[cfg(test)]
mod reads;
#[cfg(test)]
mod runs;

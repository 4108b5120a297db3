//! Tests of the feed of a wiki. Nothing stands on this crate, and it holds nothing but tests.
#![tactic(auto)]

#[cfg(test)]
mod calls;
#[cfg(test)]
mod feeds;
#[cfg(test)]
mod given;
#[cfg(test)]
mod runs;
#[cfg(test)]
mod waiting;

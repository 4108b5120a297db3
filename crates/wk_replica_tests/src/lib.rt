//! Tests of replicas that take the lines of a feed, and of what they answer. Nothing stands on this crate, and it holds nothing but
//! tests.
#![tactic(auto)]

#[cfg(test)]
mod bad;
#[cfg(test)]
mod given;
#[cfg(test)]
mod replicas;
#[cfg(test)]
mod replies;
#[cfg(test)]
mod runs;
#[cfg(test)]
mod savers;

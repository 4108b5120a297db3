//! Tests of a replica that threads share: sessions on it, and the lines that it takes while they go on. Nothing stands on this crate,
//! and it holds nothing but tests.
#![tactic(auto)]

#[cfg(test)]
mod gates;
#[cfg(test)]
mod given;
#[cfg(test)]
mod runs;
#[cfg(test)]
mod served;
#[cfg(test)]
mod shared;

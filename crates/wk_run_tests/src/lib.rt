//! Tests of whole runs of the program, by its top call, over devices that fail and on many threads. Nothing stands on this
//! crate, and it holds nothing but tests.
#![tactic(auto)]

#[cfg(test)]
mod at_once;
#[cfg(test)]
mod doors;
#[cfg(test)]
mod failing;
#[cfg(test)]
mod feeds;
#[cfg(test)]
mod gates;
#[cfg(test)]
mod given;
#[cfg(test)]
mod links;
#[cfg(test)]
mod runs;
#[cfg(test)]
mod stores;

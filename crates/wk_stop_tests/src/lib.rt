//! Tests of stores that stop or fail: keepers over a database and in memory, and vaults; and of a wiki over a database in
//! memory, by calls and by scripts. Nothing stands on this crate, and it holds nothing but tests.
#![tactic(auto)]

#[cfg(test)]
mod keepers;
#[cfg(test)]
mod older;
#[cfg(test)]
mod opened;
#[cfg(test)]
mod refused;
#[cfg(test)]
mod same;
#[cfg(test)]
mod samples;
#[cfg(test)]
mod scripts;
#[cfg(test)]
mod stops;
#[cfg(test)]
mod told;

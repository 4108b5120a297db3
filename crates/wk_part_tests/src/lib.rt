//! Tests of what runs are made of, each by itself: sessions, scripts under lowered limits, sources, sinks, clocks and doors,
//! the texts of errors. Nothing stands on this crate, and it holds nothing but tests.
#![tactic(auto)]

#[cfg(test)]
mod adapters;
#[cfg(test)]
mod beside;
#[cfg(test)]
mod devices;
#[cfg(test)]
mod limits;
#[cfg(test)]
mod nets;
#[cfg(test)]
mod overtaken;
#[cfg(test)]
mod sessions;
#[cfg(test)]
mod shared;
#[cfg(test)]
mod texts;

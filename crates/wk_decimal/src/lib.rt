//! When two texts are equal: as exact numbers where both are numerals, and else byte by byte.
#![tactic(auto)]

mod comparison;
mod numeral;
mod parts;

pub use comparison::same;

//! The messages of a connection, read one after the other.
#![tactic(auto)]

mod reader;
mod reading;

pub use reader::MessageReader;

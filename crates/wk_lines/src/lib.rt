//! The lines of an input, read one after the other.
#![tactic(auto)]

mod reader;
mod reading;
mod stop;

pub use reader::LineReader;
pub use reading::NextLine;
pub use stop::Stop;

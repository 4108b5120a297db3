//! A connection: bytes come from it and go to it.
#![tactic(auto)]

mod link;
mod mem_link;
mod sending;

pub use link::Link;
pub use mem_link::MemLink;
pub use sending::send_all;

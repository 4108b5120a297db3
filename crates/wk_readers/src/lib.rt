//! Reads and refreshes of a shared wiki. Each caller has a reader, which keeps what it has read last, and a page is answered at a
//! point that is no older than what its caller has seen. And one step of a worker: a fan job is served, or a page is claimed,
//! drafted while others save, and its refresh comes in.
#![tactic(auto)]

mod beginning;
mod desk;
mod entries;
mod outcome;
mod reader;
mod reads;
mod refresh;
mod refreshes;
mod worker;

pub use outcome::Refreshed;
pub use reader::Reader;
pub use reads::{read_page, read_text};
pub use refresh::refresh_with;
pub use refreshes::refresh_one;
pub use wk_base::{Gate, NoGate};
pub use wk_core::{Fanned, Kind, PageRead, ReadRefusal};
pub use wk_shared::{Sought, drafted, look, look_for, look_new};
pub use worker::Worker;

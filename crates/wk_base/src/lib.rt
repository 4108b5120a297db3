//! The outside as the rest of the project sees it: where bytes come from, where they go, what time it is, and what is called
//! between two reads of a draft.
//!
//! Each trait tells by its ghost members what it can: `Some` of the bytes or moments, or `None` where it doesn't tell.
//! Each trait whose calls can fail has a count of faults, which never falls and stops at the end of `u64`. A call
//! answers [`Failed`] only where that count rose in this very call, or stands at its end.
#![tactic(auto)]

mod adapters;
mod calls;
mod gate;
mod list_clock;
mod mem_sink;
mod mem_source;
mod outside;
mod writing;

pub use adapters::{ReadSource, SystemClock, WriteSink};
pub use calls::Calls;
pub use gate::{Gate, NoGate};
pub use list_clock::ListClock;
pub use mem_sink::MemSink;
pub use mem_source::MemSource;
pub use outside::{Clock, Failed, Sink, Source};
pub use wk_memory::Memory;
pub use writing::write_all;

//! The lines of a script over a wiki: what each is, the values of their replies, and how a reply is written.
#![tactic(auto)]

mod errors;
mod line;
mod replies;
mod written;

pub use errors::{
    bad_line, journal_full, line_too_long, needs_read, no_memory, no_read, no_ticket, store_fault,
};
pub use line::{ScriptLine, script_line};
pub use replies::{
    claimed, done, fanned, given_back, next_read, no_claim, no_fan, restarted, stale,
};
pub use written::reply_line;

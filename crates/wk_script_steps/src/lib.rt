//! The lines of a script that work on tickets, jobs and the store, each answered on a wiki with the tickets that are out, each
//! of which has the draft of its page so far.
#![tactic(auto)]

mod claims;
mod fans;
mod list;
mod open;
mod reads;
mod refreshes;
mod restarts;
mod returns;

pub use claims::claim;
pub use fans::fan;
pub use list::place;
pub use open::OpenTicket;
pub use reads::read;
pub use refreshes::finish;
pub use restarts::{reopen, told_restart};
pub use returns::{give_all_back, give_back};

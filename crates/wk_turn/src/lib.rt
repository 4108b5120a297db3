//! The counted turn: a ticket lock round one shared state, and what each caller has seen of the state's journal.
//!
//! A caller has a `Pass`. It takes the state by `Turn::enter`, and gives it back by `Turn::leave`. The state that it is
//! handed has a journal that begins with all that its pass has seen, and what the caller left open there is still open.
//! So an answer that it gives is never older than what it gave before.
#![tactic(auto)]

mod board;
mod line;
mod lock;
mod pass;
mod plays;
mod storied;

pub use lock::{Turn, begin};
pub use pass::{Held, Pass};
pub use storied::Storied;

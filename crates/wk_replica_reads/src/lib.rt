//! Sessions over a connection with a replica, which many threads share: what is read is answered, and an edit is refused. And the
//! taking of a feed's lines while sessions go on.
#![tactic(auto)]

mod answers;
mod apart;
mod desk;
mod drafting;
mod messages;
mod reads;
mod replicas;
mod serving;
mod session;
mod taking;
mod telling;

pub use session::serve_reads;
pub use taking::take_apart;
pub use wk_base::{Gate, NoGate};
pub use wk_http::{Refresh, SessionEnd, SessionReport};
pub use wk_replica::{Replica, TakeRefusal};
pub use wk_turn::{Pass, Turn};

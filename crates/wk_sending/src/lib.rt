//! What is sent on a connection, and what its messages ask: the status of the reply to a message, the request that it holds,
//! the answer that is made of a reply, and the bytes of it. Nothing here speaks of a wiki.
#![tactic(auto)]

mod asking;
mod replies;
mod sending;

pub use asking::{request_in, status_of};
pub use replies::Answer;
pub use sending::{end_reading, send, send_answer};

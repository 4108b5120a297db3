//! The answers to requests: each is a JSON value, which shows the point of the journal at which it was true.
#![tactic(auto)]

mod by_text;
mod counts;
mod reading;
mod reads;
mod refusals;
mod requests;

pub use reading::{list_answer, read_answer, site_answer};
pub use reads::read_reply;
pub use refusals::{declined, no_memory};
pub use requests::{act, act_with, answer};
pub use wk_replies::error_reply;
pub use wk_revs::real_title;

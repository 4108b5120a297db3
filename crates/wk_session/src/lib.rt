//! A session over a connection: the messages that come in are answered on a shared wiki, one after the other, and behind each
//! reply one step is made of what the wiki has to refresh.
#![tactic(auto)]

mod acts;
mod asks;
mod desk;
mod reads;
mod replies;
mod saves;
mod serving;
mod session;
mod steps;
mod telling;

pub use session::serve_session;
pub use wk_http::{Refresh, SessionEnd, SessionReport};

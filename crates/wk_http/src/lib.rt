//! Requests over HTTP/1.1, read from a stream of bytes however it is cut into pieces, and responses.
#![tactic(auto)]

mod feed;
mod fields;
mod front;
mod laws;
mod places;
mod report;
mod request;
mod responses;
mod target;

pub use feed::Feed;
pub use laws::{
    a_message_is_short, a_stream_is_read_in_one_way, no_bytes_are_open,
    what_is_decided_stays_decided,
};
pub use report::{Refresh, SessionEnd, SessionReport};
pub use request::{HttpRequest, Next};
pub use responses::response;
pub use wk_wire_rules::Method;

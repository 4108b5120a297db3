//! Laws of feeds. Each is the contract of a function with an empty body.
#![tactic(auto)]

mod feeds;
mod lines;
mod saves;

pub use feeds::{
    a_feed_tells_what_it_is_made_of, cut_bytes_have_first_lines, first_lines_tell_first_events,
    starts_of_feeds, what_is_told_can_be_made,
};
pub use lines::a_line_is_read_back;
pub use saves::saved_again;

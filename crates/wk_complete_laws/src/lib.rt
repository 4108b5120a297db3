//! Laws of completeness: what calls answer over a whole store, where nothing but memory can fail. Those of a wiki and of a
//! shared wiki are calls of it, and each is Ok exactly where the rules have it, or answers that memory ran out; those of replies
//! are contracts of functions with an empty body.
#![tactic(auto)]

mod examples;
mod replies;
mod requests;
mod turns;
mod wikis;

pub use examples::{
    a_deletion_that_is_granted, a_deletion_that_is_granted_in_turn, a_parse_that_is_answered,
    a_refresh_that_is_current, a_refresh_that_is_current_in_turn, a_request_that_reads,
    a_request_that_saves, an_edit_that_is_answered, an_edit_that_is_granted,
    an_edit_that_is_granted_in_turn,
};
pub use replies::{a_page_that_exists_is_shown, replies_are_by_the_rules};
pub use requests::{a_page_is_told, requests_are_told_by_the_rules};
pub use turns::{
    current_reads_are_finished_in_turn, granted_deletions_are_made_in_turn,
    granted_edits_are_saved_in_turn,
};
pub use wikis::{current_reads_are_finished, granted_deletions_are_made, granted_edits_are_saved};

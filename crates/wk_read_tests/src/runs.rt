//! The tests.

use crate::given::{DONE, PARSE, PARSE_AND_LIST, PARSED, TAKEN, TWO_PAGES};
use crate::served::Work;
use crate::shared::share;
use std::test::Fail;

/// The two meet between two reads of their drafts: so neither has the turn while it drafts.
#[test]
fn two_sessions_draft_at_once(rt: HostRuntime) -> Result<(), Fail> {
    let (one, two) = ((Work::Serve(PARSE[0]), 2), (Work::Serve(PARSE[1]), 2));
    let told = share(&rt, rt.alloc(), TWO_PAGES, one, two)?;
    assert_eq!(rt; told.as_str(), PARSED);
    Ok(())
}

/// The line is taken while the session waits between two reads of its draft; and its own page is drafted while the session has
/// begun to draft.
#[test]
fn a_refresh_is_taken_while_a_session_drafts(rt: HostRuntime) -> Result<(), Fail> {
    let (one, two) = ((Work::Take(DONE), 2), (Work::Serve(PARSE_AND_LIST), 3));
    let told = share(&rt, rt.alloc(), TWO_PAGES, one, two)?;
    assert_eq!(rt; told.as_str(), TAKEN);
    Ok(())
}

//! The tests. The keeper in memory stands here alone.

use crate::bad::{first_wrong, told_of_no_text, wrong_cases};
use crate::given::{ASKED, BAD, EACH_KIND, FEED, ONE_BAD, REPLIED, REPLIED_BEHIND, START};
use crate::replicas::replied;
use crate::savers::compare;
use std::test::Fail;
use wk_keeper::MemKeeper;
use wk_tables::Tables;

#[test]
fn a_replica_answers_reads_and_refuses_edits(rt: HostRuntime) -> Result<(), Fail> {
    assert_eq!(rt; replied(rt.alloc(), FEED, ASKED)?.as_str(), REPLIED);
    Ok(())
}

#[test]
fn a_replica_goes_on_behind_a_bad_line(rt: HostRuntime) -> Result<(), Fail> {
    assert_eq!(rt;
        replied(rt.alloc(), ONE_BAD, ASKED)?.as_str(),
        REPLIED_BEHIND
    );
    Ok(())
}

/// Both are cut at each of their bytes.
#[test]
fn a_feed_that_is_cut_has_its_whole_lines(rt: HostRuntime) -> Result<(), Fail> {
    assert_eq!(rt; first_wrong(rt.alloc(), FEED, 2)?, 0);
    assert_eq!(rt; first_wrong(rt.alloc(), EACH_KIND, START)?, 0);
    Ok(())
}

#[test]
fn bad_lines_are_told_by_their_numbers(rt: HostRuntime) -> Result<(), Fail> {
    assert_eq!(rt; wrong_cases(rt.alloc(), BAD)?.as_str(), "");
    Ok(())
}

#[test]
fn a_line_that_is_no_text_is_bad(rt: HostRuntime) -> Result<(), Fail> {
    assert_eq!(rt; told_of_no_text(rt.alloc())?.as_str(), "Err(BadLine(1))");
    Ok(())
}

#[test]
fn a_replica_replies_as_a_wiki_in_which_two_threads_save(rt: HostRuntime) -> Result<(), Fail> {
    let store = MemKeeper::new(Tables::new(rt.alloc()));
    assert_eq!(rt;
        compare(&rt, rt.alloc(), store)?.as_str(),
        "Ok(()) true true"
    );
    Ok(())
}

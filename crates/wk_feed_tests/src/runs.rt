//! The tests. The keeper in memory stands here alone.

use crate::feeds::{told_of_fault, told_of_room};
use crate::given::{Calls, EACH, EACH_KIND, FAULTS, FEED, ONE_PAGE, TWO_PAGES};
use crate::waiting::told_of_wait;
use std::alloc::Global;
use std::sync::Wait;
use std::test::Fail;
use std::thread::Threads;
use wk_keeper::MemKeeper;
use wk_memory::Memory;
use wk_tables::Tables;

/// What is done on a wiki over an empty store in memory.
#[derive(Clone, Copy)]
enum Run {
    /// It is fed to a sink, whose write with this number fails; 0 is none.
    Feed(Calls, u64),
    /// It is fed to a sink with room for so many bytes.
    Room(usize),
    /// It is fed to a sink that waits.
    Wait,
}

/// What is told of it.
fn told<R: Threads + Wait + Sync>(rt: &R, alloc: Global, run: Run) -> Result<String, Memory> {
    let store = MemKeeper::new(Tables::new(alloc));
    match run {
        Run::Feed(calls, fault) => told_of_fault(rt, alloc, store, calls, fault),
        Run::Room(room) => told_of_room(rt, alloc, store, room),
        Run::Wait => told_of_wait(rt, alloc, store),
    }
}

#[test]
fn a_page_that_is_saved_and_refreshed_is_five_lines(rt: HostRuntime) -> Result<(), Fail> {
    let (alloc, feed) = (rt.alloc(), FEED);
    let want = format!(in alloc; "Ok(3)\n{feed}")?;
    assert_eq!(rt;
        told(&rt, alloc, Run::Feed(ONE_PAGE, 0))?.as_str(),
        want.as_str()
    );
    Ok(())
}

#[test]
fn a_feed_has_a_line_for_each_row_and_each_event(rt: HostRuntime) -> Result<(), Fail> {
    let (alloc, feed) = (rt.alloc(), EACH_KIND);
    let want = format!(in alloc; "Ok(10)\n{feed}")?;
    assert_eq!(rt;
        told(&rt, alloc, Run::Feed(EACH, 0))?.as_str(),
        want.as_str()
    );
    Ok(())
}

/// The first room with which a feed isn't refused, or is refused otherwise than it is to be.
fn first_not_refused<R: Threads + Wait + Sync>(rt: &R, alloc: Global) -> Result<usize, Memory> {
    'rooms: for room in 0..100_000 {
        if told(rt, alloc, Run::Room(room))?.as_str() != "true" {
            return Ok(room);
        }
    }
    Ok(100_000)
}

/// The sink has room for less bytes than the feed has, each number of them; and then for all.
#[test]
fn a_sink_that_is_full_has_the_beginning_of_the_feed(rt: HostRuntime) -> Result<(), Fail> {
    assert_eq!(rt; first_not_refused(&rt, rt.alloc())?, EACH_KIND.len());
    Ok(())
}

/// What is told where each write fails, one behind the other, and where none does.
fn told_of_faults<R: Threads + Wait + Sync>(rt: &R, alloc: Global) -> Result<String, Memory> {
    let mut all = String::new(alloc);
    'numbers: for number in 1..5 {
        all.push_str(&told(rt, alloc, Run::Feed(TWO_PAGES, number))?)?;
    }
    Ok(all)
}

#[test]
fn a_write_that_fails_ends_a_feed(rt: HostRuntime) -> Result<(), Fail> {
    assert_eq!(rt; told_of_faults(&rt, rt.alloc())?.as_str(), FAULTS);
    Ok(())
}

/// The turn is free while the sink is written.
#[test]
fn a_page_is_saved_while_a_feeder_writes(rt: HostRuntime) -> Result<(), Fail> {
    let told = told(&rt, rt.alloc(), Run::Wait)?;
    assert_eq!(rt; told.as_str(), "Ok(((Ok(1), true), 2))");
    Ok(())
}

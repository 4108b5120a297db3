//! The tests. The keeper in memory stands here alone.

use crate::calls::{make_each_call, see_what_another_saves};
use crate::drained::drain_two;
use crate::raced::{Race, run, save_at_once};
use crate::reads::read_pages;
use std::alloc::Global;
use std::sync::Wait;
use std::test::Fail;
use std::thread::Threads;
use wk_keeper::MemKeeper;
use wk_memory::Memory;
use wk_tables::Tables;

/// A step of a worker on a page that includes another one, beside which its own page is saved.
const STEP: Race = Race {
    text: "{{:P1}}x",
    at: 1,
    times: 1,
    page: 0,
    base: 1,
    reads: false,
};

/// A step beside which a title begins to exist.
const EXISTENCE: Race = Race {
    text: "{{#ifexist:P1|y|{{:P2}}}}",
    at: 2,
    page: 1,
    base: 0,
    ..STEP
};

/// A read of which three drafts are overtaken by saves.
const OVERTAKEN: Race = Race {
    times: 3,
    reads: true,
    ..STEP
};

/// What is done on a wiki over an empty store in memory.
#[derive(Clone, Copy)]
enum Work {
    SeeWhatAnotherSaves,
    MakeEachCall,
    Read,
    SaveAtOnce,
    Race(Race),
    Drain,
}

/// What is told of a work.
fn told<R: Threads + Wait + Sync>(rt: &R, alloc: Global, work: Work) -> Result<String, Memory> {
    let store = MemKeeper::new(Tables::new(alloc));
    match work {
        Work::SeeWhatAnotherSaves => see_what_another_saves(rt, alloc, store),
        Work::MakeEachCall => make_each_call(rt, alloc, store),
        Work::Read => read_pages(rt, alloc, store),
        Work::SaveAtOnce => save_at_once(rt, alloc, store),
        Work::Race(race) => run(rt, alloc, store, race),
        Work::Drain => drain_two(rt, alloc, store),
    }
}

/// Whether this is told of a work.
fn is_told<R: Threads + Wait + Sync>(
    rt: &R,
    alloc: Global,
    work: Work,
    want: &str,
) -> Result<bool, Fail> {
    let told = told(rt, alloc, work)?;
    if told.as_str() == want {
        return Ok(true);
    }
    Err(Fail::new(told))
}

#[test]
fn a_pass_sees_what_another_saved(rt: HostRuntime) -> Result<(), Fail> {
    let want = "Some((Ok(1), [0, 1, 1])) (Some((1, 1)), 1)";
    assert!(rt; is_told(&rt, rt.alloc(), Work::SeeWhatAnotherSaves, want)?);
    Ok(())
}

#[test]
fn each_call_is_answered_at_its_point(rt: HostRuntime) -> Result<(), Fail> {
    let want = "([true, true, true, true], [1, 1, 1, 3, 4]) (Some((1, 2)), 4)";
    assert!(rt; is_told(&rt, rt.alloc(), Work::MakeEachCall, want)?);
    Ok(())
}

#[test]
fn a_page_is_drafted_once_for_two_readers(rt: HostRuntime) -> Result<(), Fail> {
    let want = "(2, 1) 16 Ok(3) (3, 1) (3, 1)";
    assert!(rt; is_told(&rt, rt.alloc(), Work::Read, want)?);
    Ok(())
}

#[test]
fn two_threads_save_and_both_saves_are_found(rt: HostRuntime) -> Result<(), Fail> {
    assert!(rt; is_told(&rt, rt.alloc(), Work::SaveAtOnce, "3 (Some((2, 2)), 2)")?);
    Ok(())
}

#[test]
fn gate_lets_saves_through(rt: HostRuntime) -> Result<(), Fail> {
    let want = "Some(((Some((1, 2)), 1), 3))";
    assert!(rt; is_told(&rt, rt.alloc(), Work::Race(STEP), want)?);
    Ok(())
}

#[test]
fn a_title_begins_to_exist_between_two_reads(rt: HostRuntime) -> Result<(), Fail> {
    let want = "Some(((Some((0, 1)), 1), 3))";
    assert!(rt; is_told(&rt, rt.alloc(), Work::Race(EXISTENCE), want)?);
    Ok(())
}

/// The fourth draft is made with the turn held, and has the text of the last save.
#[test]
fn a_read_that_is_overtaken_holds_the_turn(rt: HostRuntime) -> Result<(), Fail> {
    let want = "Some(((Some((4, 7)), 3), 4))";
    assert!(rt; is_told(&rt, rt.alloc(), Work::Race(OVERTAKEN), want)?);
    Ok(())
}

#[test]
fn two_workers_at_once(rt: HostRuntime) -> Result<(), Fail> {
    assert!(rt; is_told(&rt, rt.alloc(), Work::Drain, "true 2 Ok([2, 2, 2])")?);
    Ok(())
}

//! Sessions on a shared wiki, and what is told of them.

use crate::shared::{begun, served_by};
use std::alloc::Global;
use std::sync::Wait;
use std::test::Fail;
use wk_base::{MemSink, MemSource};
use wk_core::Keeper;
use wk_keeper::MemKeeper;
use wk_link::{Link, MemLink};
use wk_memory::Memory;
use wk_readers::NoGate;
use wk_session::SessionReport;
use wk_tables::Tables;

/// A session over a link, on a wiki over this keeper.
fn served<K: Keeper, R: Wait, L: Link>(
    rt: &R,
    alloc: Global,
    keeper: K,
    link: &mut L,
) -> Result<SessionReport, Memory> {
    let (shared, pass) = begun(alloc, keeper)?;
    let (pass, report) = served_by(rt, alloc, &shared, pass, NoGate, link);
    let _keeper = shared.finish(rt, pass).release();
    report.ok_or(Memory)
}

/// What a session told, in a line: how it ended, the points of its replies, how many refreshes were done, and the steps; and
/// how many bytes were written.
fn told(alloc: Global, report: &SessionReport, written: usize) -> Result<String, Memory> {
    let (end, points, jobs) = (report.end, &report.points, report.jobs_run);
    let steps = &report.refreshes;
    Ok(format!(in alloc; "{end:?} {points:?} {jobs} {steps:?} {written}")?)
}

/// A keeper of no rows.
fn new_store(alloc: Global) -> MemKeeper {
    MemKeeper::new(Tables::new(alloc))
}

/// A link by which these bytes come, and of whose reads and writes those with these numbers fail, counted from 1.
fn linked(alloc: Global, input: &str, read: u64, write: u64) -> Result<MemLink, Memory> {
    let (reads, writes) = ([read].to_vec(alloc)?, [write].to_vec(alloc)?);
    let source = MemSource::new(input.as_bytes().to_vec(alloc)?, reads);
    Ok(MemLink::new(source, MemSink::new(alloc, 8_192, writes)?))
}

/// What is told of a session over such a link, and how many bytes were written.
fn told_of<R: Wait>(
    rt: &R,
    alloc: Global,
    input: &str,
    read: u64,
    write: u64,
) -> Result<String, Memory> {
    let mut link = linked(alloc, input, read, write)?;
    let report = served(rt, alloc, new_store(alloc), &mut link)?;
    told(alloc, &report, link.written().len())
}

/// A message that saves a page.
const SAVE: &str = "POST /api.php HTTP/1.1\r\nHost: localhost\r\nContent-Length: 39\r\n\r\n\
action=edit&title=A&text=x&token=%2B%5C";

/// A read and a write of a link that fail, over that message, twice; 0 is none.
const FAULTS: [(u64, u64, &str); 5] = [
    (1, 0, "ReadFault [] 0 [] 0"),
    (2, 0, "ReadFault [1, 3] 1 [(3, Done), (3, Idle)] 349"),
    (0, 1, "WriteFault [1] 0 [] 0"),
    (0, 2, "WriteFault [1, 3] 1 [(3, Done)] 185"),
    (3, 3, "PeerEnd [1, 3] 1 [(3, Done), (3, Idle)] 349"),
];

#[test]
fn a_fault_of_the_link_ends_the_session(rt: HostRuntime) -> Result<(), Fail> {
    let twice = SAVE.repeat(rt.alloc(), 2)?;
    for (read, write, want) in FAULTS {
        let told = told_of(&rt, rt.alloc(), &twice, read, write)?;
        assert_eq!(rt; told.as_str(), want, "{read} {write}");
    }
    Ok(())
}

/// Messages that are no requests, and a page and then a template that it includes, whose fan goes before its refresh. The
/// last message asks for the close.
const MIXED: &str = "PUT /api.php HTTP/1.1\r\n\r\n\
POST /api.php HTTP/1.1\r\nContent-Length: 43\r\n\r\naction=edit&title=P&text={{T}}&token=%2B%5C\
POST /api.php HTTP/1.1\r\nContent-Length: 48\r\n\r\naction=edit&title=Template:T&text=x&token=%2B%5C\
GET /other HTTP/1.1\r\n\r\n\
GET / HTTP/1.1\r\n\r\n\
GET / HTTP/1.0\r\n\r\n\
GET / HTTP/1.1\r\n\r\n";

/// How sessions end that no device ends.
#[test]
fn sessions_tell_their_ends_and_steps(rt: HostRuntime) -> Result<(), Fail> {
    let alloc = rt.alloc();
    let steps = "[(0, Idle), (3, Done), (5, Fanned), (7, Done), (9, Done), (9, Idle)]";
    let mixed = format!(in alloc; "Closed [1, 4] 3 {steps} 588")?;
    for (input, want) in [
        (MIXED, mixed.as_str()),
        ("", "PeerEnd [] 0 [] 0"),
        ("POST", "Cut [] 0 [] 0"),
        ("POST / HTTP/1.1\r\n\r\n", "Bad(411) [] 0 [] 70"),
    ] {
        let told = told_of(&rt, alloc, input, 0, 0)?;
        assert_eq!(rt; told.as_str(), want, "{input}");
    }
    Ok(())
}

//! Runs of the program's top call over a store. They are generic in the vault, so that no store is named here.

use crate::doors::ListDoor;
use crate::gates::{Meeter, Meeting};
use crate::given::{Given, numbers, words};
use crate::links::HeardLink;
use std::alloc::Global;
use std::sync::{Mutex, Wait};
use std::thread::Threads;
use wk_base::{ListClock, MemSink, MemSource};
use wk_bytes::decimal;
use wk_cli::{Finish, wiki_main};
use wk_door::Door;
use wk_keeper::{Keeper, Vault};
use wk_link::Link;
use wk_memory::Memory;
use wk_tables::{BadStore, Tables};

/// What came of a run.
#[derive(Drop)]
pub struct Ran {
    pub status: u8,
    /// The bad row of the store, or the bad line of the feed.
    pub bad: Option<BadStore>,
    pub points: Vec<u64>,
    /// The output.
    pub written: Vec<u8>,
    /// What is left in the store that was handed back.
    pub left: String,
    /// What the peer of the first link heard.
    pub first: Vec<u8>,
    /// What the peer of the second link heard.
    pub second: Vec<u8>,
}

/// The bytes as a text.
pub fn text_of(bytes: &[u8]) -> &str {
    str::from_utf8(bytes).unwrap_or("no text")
}

/// A bad row or line as the program tells it behind the status.
fn bad_text(alloc: Global, bad: Option<BadStore>) -> Result<String, Memory> {
    match bad {
        Some(BadStore { rule, row }) => Ok(format!(in alloc; " rule {rule} row {row}")?),
        None => Ok(String::new(alloc)),
    }
}

impl Ran {
    /// What came of the run, in a line: the status, with a bad row or line, what is left in the store, and the output.
    pub fn told(&self, alloc: Global) -> Result<String, Memory> {
        let bad = bad_text(alloc, self.bad)?;
        let (status, left, written) = (self.status, self.left.as_str(), text_of(&self.written));
        Ok(format!(in alloc; "{status}{bad} {left} {written:?}")?)
    }
}

/// The version of the tables, how many revisions they have, and how many jobs.
pub fn counted(alloc: Global, tables: &Tables) -> Result<String, Memory> {
    let rows = tables.rows()?;
    let (version, revisions, jobs) = (rows.version, rows.revisions.len(), rows.jobs.len());
    Ok(format!(in alloc; "{version} {revisions} {jobs}")?)
}

/// The tables of a store, where there is one and it gives them.
pub fn tables_of<K: Keeper>(store: Option<K>) -> Option<Tables> {
    match store {
        Some(mut store) => store.load().ok(),
        None => None,
    }
}

/// How many bytes an output takes.
fn room_of(text: &str) -> usize {
    match decimal(text.as_bytes()) {
        Some(room) => usize::try_from(room).unwrap_or(0),
        None => 1_048_576,
    }
}

/// An output that takes so many bytes, and whose writes with these numbers fail.
fn sink(alloc: Global, given: &Given<'_>) -> Result<MemSink, Memory> {
    MemSink::new(alloc, room_of(given.room), numbers(alloc, given.writes)?)
}

/// An input.
fn source(alloc: Global, given: &Given<'_>) -> Result<MemSource, Memory> {
    let bytes = given.input.as_bytes().to_vec(alloc)?;
    Ok(MemSource::new(bytes, numbers(alloc, given.reads)?))
}

/// The streams and the clock of a run.
#[derive(Drop)]
struct Streams {
    source: MemSource,
    sink: MemSink,
    clock: ListClock,
}

/// The streams and the clock of a run, which gives 5, 6 and 7.
fn streams_of(alloc: Global, given: &Given<'_>) -> Result<Streams, Memory> {
    let source = source(alloc, given)?;
    let sink = sink(alloc, given)?;
    let moments = [5, 6, 7].to_vec(alloc)?;
    Ok(Streams {
        source,
        sink,
        clock: ListClock::new(moments),
    })
}

/// A run over a door, and the store that is handed back. What is left in it, what is written, and what the peers of its links
/// heard, isn't told yet.
fn run_over<V: Vault, D: Door + Send, R: Threads + Wait + Sync>(
    rt: &R,
    alloc: Global,
    vault: &mut V,
    words: &[String],
    streams: &mut Streams,
    door: &mut D,
    gate: Meeter<'_>,
) -> (Ran, Option<V::Store>)
where
    V::Store: Send,
    D::Link: Send,
{
    let Streams {
        source,
        sink,
        clock,
    } = streams;
    let Finish {
        status,
        points,
        bad,
        store,
    } = wiki_main(rt, alloc, words, vault, source, sink, clock, door, gate);
    let ran = Ran {
        status,
        bad,
        points,
        written: Vec::new(alloc),
        left: String::new(alloc),
        first: Vec::new(alloc),
        second: Vec::new(alloc),
    };
    (ran, store)
}

/// A run over a door, what is written, and the store. What the peers of its links heard isn't told yet.
fn run_streams<V: Vault, D: Door + Send, R: Threads + Wait + Sync>(
    rt: &R,
    alloc: Global,
    vault: &mut V,
    given: &Given<'_>,
    door: &mut D,
    gate: Meeter<'_>,
) -> Result<(Ran, Option<V::Store>), Memory>
where
    V::Store: Send,
    D::Link: Send,
{
    let words = words(alloc, given.words)?;
    let mut streams = streams_of(alloc, given)?;
    let (mut ran, store) = run_over(rt, alloc, vault, &words, &mut streams, door, gate);
    let Streams {
        source: _,
        sink,
        clock: _,
    } = streams;
    ran.written = sink.bytes().to_vec(alloc)?;
    Ok((ran, store))
}

/// A door with these links, but for those whose peers send nothing.
fn door_of<L: Link>(
    alloc: Global,
    given: &Given<'_>,
    first: L,
    second: L,
) -> Result<ListDoor<L>, Memory> {
    let fail = numbers(alloc, given.door)?;
    let mut links = Vec::new(alloc);
    if !given.asked[0].is_empty() {
        links.push(first)?;
    }
    if !given.asked[1].is_empty() {
        links.push(second)?;
    }
    ListDoor::new(alloc, links, fail)
}

/// A run over a vault and a door of two links, whose peers are heard behind these locks, and the store.
fn run_at_door<V: Vault, R: Threads + Wait + Sync>(
    rt: &R,
    alloc: Global,
    vault: &mut V,
    given: &Given<'_>,
    gate: Meeter<'_>,
    first: &Mutex<Vec<u8>>,
    second: &Mutex<Vec<u8>>,
) -> Result<(Ran, Option<V::Store>), Memory>
where
    V::Store: Send,
{
    let one = HeardLink::new(rt, alloc, given.asked[0], given.most, first)?;
    let two = HeardLink::new(rt, alloc, given.asked[1], given.most, second)?;
    let mut door = door_of(alloc, given, one, two)?;
    run_streams(rt, alloc, vault, given, &mut door, gate)
}

/// A run over a vault, whose workers come to this meeting, what the peers of the links heard, and the store that is handed back.
/// What is left in that isn't told yet.
pub fn run<V: Vault, R: Threads + Wait + Sync>(
    rt: &R,
    alloc: Global,
    vault: &mut V,
    given: &Given<'_>,
    meeting: &Meeting,
) -> Result<(Ran, Option<V::Store>), Memory>
where
    V::Store: Send,
{
    let first = Mutex::new(Vec::new(alloc));
    let second = Mutex::new(Vec::new(alloc));
    let gate = Meeter::new(meeting);
    let (mut ran, store) = run_at_door(rt, alloc, vault, given, gate, &first, &second)?;
    ran.first = first.into_inner();
    ran.second = second.into_inner();
    Ok((ran, store))
}

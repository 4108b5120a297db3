//! What one thread does with a replica that threads share: a session on it, or the taking of a line.
ghost use Rattle.wk_read_tests.specs.Ready.{IsServing};

use crate::gates::Waiting;
use std::alloc::Global;
use std::sync::Wait;
use std::sync::atomic::{AtomicU64, Ordering};
use wk_base::{Gate, MemSink, MemSource};
use wk_expand::Trees;
use wk_link::MemLink;
use wk_memory::Memory;
use wk_replica::Replica;
use wk_replica_reads::{SessionReport, serve_reads, take_apart};
use wk_turn::{Pass, Turn};

/// What a thread does.
#[derive(Clone, Copy)]
pub enum Work {
    /// It serves a connection by which these messages come.
    Serve(&'static str),
    /// It takes this line.
    Take(&'static str),
}

/// What a thread does, and how far a count has to be raised that it raises itself, before it passes its gate for the first time.
pub type Part = (Work, u64);

/// A connection by which these messages come.
fn linked(alloc: Global, messages: &str) -> Result<MemLink, Memory> {
    let source = MemSource::new(messages.as_bytes().to_vec(alloc)?, Vec::new(alloc));
    Ok(MemLink::new(source, MemSink::new(alloc, 8_192, Vec::new(alloc))?))
}

/// What is told of a session: how it ended, the points of its replies, how many refreshes were done, and the steps; and what the
/// peer hears.
fn told(alloc: Global, report: &SessionReport, heard: &[u8]) -> Result<String, Memory> {
    let (end, points, jobs) = (report.end, &report.points, report.jobs_run);
    let steps = &report.refreshes;
    let heard = str::from_utf8(heard).unwrap_or("no text");
    Ok(format!(in alloc; "{end:?} {points:?} {jobs} {steps:?} {heard}")?)
}

/// What is told of a session over a connection by which these messages come.
fn serve<R: Wait, G: Gate>(
    rt: &R,
    alloc: Global,
    shared: &Turn<Replica>,
    pass: &mut Pass<Replica>,
    trees: &mut Trees,
    messages: &str,
    gate: &mut G,
) -> Result<String, Memory>
    requires { IsServing shared.now pass.old }
{
    let mut link = linked(alloc, messages)?;
    let report = serve_reads(rt, shared, pass, trees, &mut link, gate);
    told(alloc, &report, link.written())
}

/// What is told of a line that is taken.
fn take_line<R: Wait, G: Gate>(
    rt: &R,
    alloc: Global,
    shared: &Turn<Replica>,
    pass: &mut Pass<Replica>,
    trees: &mut Trees,
    line: &str,
    gate: &mut G,
) -> Result<String, Memory>
    requires { IsServing shared.now pass.old }
{
    let taken = take_apart(rt, shared, pass, trees, line.as_bytes(), gate);
    Ok(format!(in alloc; "{taken:?}")?)
}

/// What is told of a work.
fn did<R: Wait, G: Gate>(
    rt: &R,
    alloc: Global,
    shared: &Turn<Replica>,
    pass: &mut Pass<Replica>,
    work: Work,
    gate: &mut G,
) -> Result<String, Memory>
    requires { IsServing shared.now pass.old }
{
    let mut trees = Trees::new(alloc, 8)?;
    match work {
        Work::Serve(messages) => serve(rt, alloc, shared, pass, &mut trees, messages, gate),
        Work::Take(line) => take_line(rt, alloc, shared, pass, &mut trees, line, gate),
    }
}

/// Whether the gate of a thread met the others, and what is told of its work. The count is raised once more behind it.
pub fn run<R: Wait>(
    rt: &R,
    alloc: Global,
    shared: &Turn<Replica>,
    mut pass: Pass<Replica>,
    part: Part,
    count: &AtomicU64,
) -> Result<String, Memory>
    requires { IsServing shared.now pass }
{
    let (work, wanted) = part;
    let mut gate = Waiting::new(count, wanted);
    let told = did(rt, alloc, shared, &mut pass, work, &mut gate);
    count.fetch_add(1, Ordering::SeqCst);
    let (told, met) = (told?, gate.met);
    Ok(format!(in alloc; "{met} {told}")?)
}

//! Taking the lines of a feed of a replica that threads share.
ghost use Rattle.std.specs.Prelude.{◌≡◌, ◌≤◌, ◌<◌, ℕ, List, Option, Err, IfErr, IsSome, OnOk, length};
ghost use Rattle.wk_base.specs.Faults.{Rose};
ghost use Rattle.wk_lines.specs.Reading.{lines_left};
ghost use Rattle.wk_replica_reads.specs.Looks.{IsFree};
ghost use Rattle.wk_replica_serving.specs.Feeds.{EndsFeed};
ghost use Rattle.wk_replica_serving.specs.Taken.{HasTakenShared, IsAlone, TakesAlone};

use crate::ends::FeedEnd;
use crate::lines::next_line;
use std::sync::Wait;
use std::sync::atomic::{AtomicBool, Ordering};
use wk_base::Source;
use wk_expand::Trees;
use wk_lines::LineReader;
use wk_replica_reads::{NoGate, Pass, Replica, TakeRefusal, Turn, take_apart};

/// Who takes the lines of a feed of a shared replica.
#[derive(Drop)]
pub struct Taker {
    /// What it has seen of the replica.
    pub pass: Pass<Replica>,
    /// Texts that it has parsed.
    pub trees: Trees,
    /// What the lines come from.
    pub lines: LineReader,
}

/// What came of a line, where so many events were seen before it and behind it. Nobody else takes lines of the replica; where that were not
/// so, it is `Memory`.
fn alone_or(taken: Result<(), TakeRefusal>, before: u64, behind: u64) -> Result<(), FeedEnd>
    ensures { IsAlone before behind taken result }
{
    match taken {
        Ok(()) => {
            if before < behind && behind - before == 1 {
                Ok(())
            } else {
                Err(FeedEnd::Memory)
            }
        }
        Err(TakeRefusal::BadLine(number)) => {
            if behind == before {
                Err(FeedEnd::Bad(number))
            } else {
                Err(FeedEnd::Memory)
            }
        }
        Err(TakeRefusal::Memory) => Err(FeedEnd::Memory),
    }
}

/// Takes a line. It waits.
fn take_line<R: Wait>(
    rt: &R,
    shared: &Turn<Replica>,
    pass: &mut Pass<Replica>,
    trees: &mut Trees,
    line: &[u8],
) -> Result<(), FeedEnd>
    requires free { IsFree shared.now pass.old }
    requires begun { IsSome shared.now.start.line }
    ensures free { IsFree shared.now pass.new }
    ensures taken { TakesAlone shared.now pass.old pass.new line.now result }
{
    let mut gate = NoGate;
    let before = pass.point();
    let taken = take_apart(rt, shared, pass, trees, line, &mut gate);
    alone_or(taken, before, pass.point())
}

/// Takes the next line of the feed. It waits.
fn take_next<R: Wait, I: Source>(
    rt: &R,
    shared: &Turn<Replica>,
    pass: &mut Pass<Replica>,
    trees: &mut Trees,
    lines: &mut LineReader,
    input: &mut I,
) -> Result<(), FeedEnd>
    requires free { IsFree shared.now pass.old }
    requires begun { IsSome shared.now.start.line }
    ensures free { IsFree shared.now pass.new }
    ensures taken { OnOk result ((rest : Option (List ℕ)) → HasTakenShared shared.now pass.old lines.old rest (I.rest input.old)
        → HasTakenShared shared.now pass.new lines.new rest (I.rest input.new)) }
    ensures fewer { OnOk result (lines_left lines.new < lines_left lines.old) }
    ensures ended { IfErr result (λ end. (rest : Option (List ℕ)) → HasTakenShared shared.now pass.old lines.old rest (I.rest input.old)
        → EndsFeed rest (I.rest input.new) (length pass.new.seen) end) }
    ensures never_falls { I.faults input.old ≤ I.faults input.new }
    ensures no_fault { OnOk result (I.faults input.new ≡ I.faults input.old) }
    ensures no_fault_at_end { result ≡ Err FeedEnd.Ended → I.faults input.new ≡ I.faults input.old }
    ensures fault { result ≡ Err FeedEnd.ReadFault → Rose (I.faults input.old) (I.faults input.new) }
{
    let given = match next_line(lines, input) {
        Ok(given) => given,
        Err(end) => return Err(end),
    };
    match given {
        Some(line) => take_line(rt, shared, pass, trees, &line),
        None => Err(FeedEnd::Ended),
    }
}

/// Takes the lines of the feed, until no more are taken. It waits.
fn take_all<R: Wait, I: Source>(
    rt: &R,
    shared: &Turn<Replica>,
    pass: &mut Pass<Replica>,
    trees: &mut Trees,
    lines: &mut LineReader,
    input: &mut I,
) -> FeedEnd
    requires free { IsFree shared.now pass.old }
    requires begun { IsSome shared.now.start.line }
    ensures free { IsFree shared.now pass.new }
    ensures fed { (rest : Option (List ℕ)) → HasTakenShared shared.now pass.old lines.old rest (I.rest input.old)
        → EndsFeed rest (I.rest input.new) (length pass.new.seen) result }
    ensures never_falls { I.faults input.old ≤ I.faults input.new }
    ensures no_fault { result ≡ FeedEnd.Ended → I.faults input.new ≡ I.faults input.old }
    ensures fault { result ≡ FeedEnd.ReadFault → Rose (I.faults input.old) (I.faults input.new) }
{
    'taking: loop {
        match take_next(rt, shared, pass, trees, lines, input) {
            Ok(()) => {}
            Err(end) => return end,
        }
    }
}

impl Taker {
    /// Takes the lines of the feed, until no more are taken. At each end but that of the input it is told that the replica is served no
    /// more. It waits.
    pub fn take<R: Wait, I: Source>(
        &mut self,
        rt: &R,
        shared: &Turn<Replica>,
        input: &mut I,
        stopped: &AtomicBool,
    ) -> FeedEnd
        requires free { IsFree shared.now self.old.pass }
        requires begun { IsSome shared.now.start.line }
        ensures free { IsFree shared.now self.new.pass }
        ensures fed { (rest : Option (List ℕ)) → HasTakenShared shared.now self.old.pass self.old.lines rest (I.rest input.old)
            → EndsFeed rest (I.rest input.new) (length self.new.pass.seen) result }
        ensures never_falls { I.faults input.old ≤ I.faults input.new }
        ensures no_fault { result ≡ FeedEnd.Ended → I.faults input.new ≡ I.faults input.old }
        ensures fault { result ≡ FeedEnd.ReadFault → Rose (I.faults input.old) (I.faults input.new) }
    {
        let end = take_all(
            rt,
            shared,
            &mut self.pass,
            &mut self.trees,
            &mut self.lines,
            input,
        );
        if end != FeedEnd::Ended {
            stopped.store(true, Ordering::SeqCst);
        }
        end
    }
}

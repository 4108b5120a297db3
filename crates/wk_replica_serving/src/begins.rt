//! A replica that takes the first lines of a feed, up to that of the start.
ghost use Rattle.std.specs.Prelude.{◌≡◌, ◌≤◌, ◌<◌, ℕ, List, Option, false, IfErr, IfOk, IsSome, OnOk, Err, None};
ghost use Rattle.wk_base.specs.Faults.{Rose};
ghost use Rattle.wk_lines.specs.Reading.{lines_left};
ghost use Rattle.wk_replica.specs.Replicas.{lines_taken, so_far};
ghost use Rattle.wk_replica_serving.specs.Feeds.{EndsBefore, HasTakenFeed};
ghost use Rattle.wk_replica_serving.specs.Reads.{IsEarly, TakesEarly};

use crate::ends::FeedEnd;
use crate::lines::{end_of, new_reader, next_line};
use std::alloc::Global;
use wk_base::Source;
use wk_lines::LineReader;
use wk_replica_reads::Replica;

/// A replica that has taken the line of the start, and the reader that the other lines of the feed come from.
#[derive(Drop)]
pub struct Begun {
    /// The replica.
    pub replica: Replica,
    /// The reader.
    pub lines: LineReader,
}

/// The end of an input that ends before the line of the start: the line that isn't there, by its number.
fn early_end(replica: &Replica) -> FeedEnd
    ensures { IsEarly (lines_taken replica.now) result }
{
    match replica.next_line() {
        Ok(number) => FeedEnd::Bad(number),
        Err(_) => FeedEnd::Memory,
    }
}

/// Takes a line.
fn take_line(replica: &mut Replica, line: &[u8]) -> Result<(), FeedEnd>
    requires { replica.old.stopped ≡ false }
    ensures { TakesEarly replica.old line.now replica.new result }
{
    match replica.take(line) {
        Ok(()) => Ok(()),
        Err(refusal) => Err(end_of(refusal)),
    }
}

/// Takes the next line of a feed, before that of the start was taken or as that line.
fn take_next<I: Source>(
    replica: &mut Replica,
    lines: &mut LineReader,
    input: &mut I,
) -> Result<(), FeedEnd>
    requires going { replica.old.stopped ≡ false }
    requires early { replica.old.start.line ≡ None }
    ensures taken { OnOk result ((rest : Option (List ℕ)) → HasTakenFeed rest (I.rest input.old) lines.old (so_far replica.old) (lines_taken replica.old)
        → HasTakenFeed rest (I.rest input.new) lines.new (so_far replica.new) (lines_taken replica.new)) }
    ensures going { OnOk result (replica.new.stopped ≡ false) }
    ensures fewer { OnOk result (lines_left lines.new < lines_left lines.old) }
    ensures ended { IfErr result (λ end. (rest : Option (List ℕ)) → HasTakenFeed rest (I.rest input.old) lines.old (so_far replica.old) (lines_taken replica.old)
        → EndsBefore rest (I.rest input.new) end) }
    ensures never_falls { I.faults input.old ≤ I.faults input.new }
    ensures no_fault { OnOk result (I.faults input.new ≡ I.faults input.old) }
    ensures fault { result ≡ Err FeedEnd.ReadFault → Rose (I.faults input.old) (I.faults input.new) }
{
    let given = match next_line(lines, input) {
        Ok(given) => given,
        Err(end) => return Err(end),
    };
    match given {
        Some(line) => take_line(replica, &line),
        None => Err(early_end(replica)),
    }
}

/// A new replica that takes the lines of a feed, up to that of the start.
///
/// `Bad` comes exactly where a line before is bad, or the input is at its end before; `ReadFault` where a read of the input failed;
/// `Bound` where 2^40 bytes were read. `Memory` may come. It is never `Ended`.
pub fn begin_replica<I: Source>(alloc: Global, input: &mut I) -> Result<Begun, FeedEnd>
    ensures begun { IfOk result (λ b. HasTakenFeed (I.rest input.old) (I.rest input.new) b.lines (so_far b.replica) (lines_taken b.replica)) }
    ensures started { IfOk result (λ b. IsSome b.replica.start.line) }
    ensures going { IfOk result (λ b. b.replica.stopped ≡ false) }
    ensures ended { IfErr result (EndsBefore (I.rest input.old) (I.rest input.new)) }
    ensures never_falls { I.faults input.old ≤ I.faults input.new }
    ensures no_fault { OnOk result (I.faults input.new ≡ I.faults input.old) }
    ensures fault { result ≡ Err FeedEnd.ReadFault → Rose (I.faults input.old) (I.faults input.new) }
{
    let mut replica = match Replica::new(alloc) {
        Ok(replica) => replica,
        Err(_) => return Err(FeedEnd::Memory),
    };
    let mut lines = new_reader(alloc);
    'taking: while replica.start_line().is_none() {
        match take_next(&mut replica, &mut lines, input) {
            Ok(()) => {}
            Err(end) => return Err(end),
        }
    }
    Ok(Begun { replica, lines })
}

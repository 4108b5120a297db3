//! The lines of a feed.
ghost use Rattle.std.specs.Prelude.{◌≡◌, ◌≤◌, ◌<◌, ◌+◌, ◌^◌, IfErr, IfOk, Err, OnOk, option_map};
ghost use Rattle.wk_base.specs.Faults.{Rose};
ghost use Rattle.wk_bytes.specs.Line.{line_in};
ghost use Rattle.wk_lines.specs.Reading.{nothing_read};
ghost use Rattle.wk_replica_serving.specs.Feeds.{longest_line};
ghost use Rattle.wk_replica_serving.specs.Reads.{GivesLine, IsLine, IsUnread, end_of_refusal, end_of_stop};

use crate::ends::FeedEnd;
use std::alloc::Global;
use wk_base::Source;
use wk_bytes::Line;
use wk_lines::{LineReader, NextLine, Stop};
use wk_replica_reads::TakeRefusal;

/// A line may have as many bytes as are read in all: 2^40, and 2^13 of the last piece.
const LONGEST_LINE: usize = 1_099_511_635_968;

/// A reader of a feed of which nothing was read yet. Takes no memory.
pub fn new_reader(alloc: Global) -> LineReader
    ensures { result ≡ nothing_read longest_line }
{
    LineReader::new(alloc, LONGEST_LINE)
}

/// Why no line comes where the reader stopped so.
fn end_of_reading(stop: Stop) -> FeedEnd
    ensures { result ≡ end_of_stop stop }
{
    match stop {
        Stop::ReadFault => FeedEnd::ReadFault,
        Stop::Bound => FeedEnd::Bound,
        Stop::Memory => FeedEnd::Memory,
        Stop::WriteFault => FeedEnd::Memory,
    }
}

/// The bytes of a line that was read. No line is longer than all that is read, and the input gives none that isn't there.
fn some_line(line: Line) -> Result<Option<Vec<u8>>, FeedEnd>
    ensures bytes { IfOk result (λ bytes. IsLine (line_in line) (option_map (λ b. b.items) bytes)) }
    ensures err { IfErr result (λ end. end ≡ FeedEnd.Memory) }
{
    match line {
        Line::Whole(bytes) => Ok(Some(bytes)),
        Line::TooLong => Err(FeedEnd::Memory),
        Line::More => Err(FeedEnd::Memory),
    }
}

/// The next line of a feed that ends with a newline, without it; none where the input is at its end.
pub fn next_line<I: Source>(
    lines: &mut LineReader,
    input: &mut I,
) -> Result<Option<Vec<u8>>, FeedEnd>
    ensures given { IfOk result (λ line. GivesLine lines.old lines.new (I.rest input.old) (I.rest input.new) (option_map (λ b. b.items) line)) }
    ensures ended { IfErr result (IsUnread lines.old lines.new (I.rest input.old) (I.rest input.new)) }
    ensures few { lines.new.total < 2 ^ 40 + 2 ^ 13 }
    ensures never_falls { I.faults input.old ≤ I.faults input.new }
    ensures no_fault { OnOk result (I.faults input.new ≡ I.faults input.old) }
    ensures fault { result ≡ Err FeedEnd.ReadFault → Rose (I.faults input.old) (I.faults input.new) }
{
    let next = match lines.next(input) {
        Ok(next) => next,
        Err(stop) => return Err(end_of_reading(stop)),
    };
    match next {
        NextLine::Inner(line) => some_line(line),
        NextLine::Last(_rest) => Ok(None),
    }
}

/// Why no more lines are taken where one was refused so.
pub fn end_of(refusal: TakeRefusal) -> FeedEnd
    ensures { result ≡ end_of_refusal refusal }
{
    match refusal {
        TakeRefusal::BadLine(number) => FeedEnd::Bad(number),
        TakeRefusal::Memory => FeedEnd::Memory,
    }
}

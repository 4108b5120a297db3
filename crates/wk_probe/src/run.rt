//! The loop over the lines of the input.

use crate::answers::reply_line;
use std::alloc::Global;
use wk_base::{Failed, Sink, Source, write_all};
use wk_bytes::Line;
use wk_lines::{LineReader, NextLine, Stop};
use wk_memory::Memory;

/// Answers a line, and writes the answer if it has one.
fn serve_line<O: Sink>(alloc: Global, line: &Line, output: &mut O) -> Result<(), Stop> {
    match reply_line(alloc, line) {
        Err(Memory) => Err(Stop::Memory),
        Ok(None) => Ok(()),
        Ok(Some(text)) => match write_all(output, text.as_bytes()) {
            Ok(()) => Ok(()),
            Err(Failed) => Err(Stop::WriteFault),
        },
    }
}

/// Answers the lines of the input to its end.
///
/// `Stop::Bound` comes where 2^40 bytes were read, whatever else is left.
pub fn serve_all<I: Source, O: Sink>(
    alloc: Global,
    input: &mut I,
    output: &mut O,
) -> Result<(), Stop> {
    let mut reader = LineReader::new(alloc, MOST_LINE);
    'lines: loop {
        match reader.next(input)? {
            NextLine::Inner(line) => serve_line(alloc, &line, output)?,
            NextLine::Last(line) => return serve_line(alloc, &line, output),
        }
    }
}

/// The bytes that a line has at most, which `TooLong` of the answers names.
const MOST_LINE: usize = 8_388_608;

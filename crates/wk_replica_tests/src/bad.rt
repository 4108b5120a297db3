//! Lines that are bad, and feeds that are cut.

use crate::replicas::{let_go, take};
use std::alloc::Global;
use wk_base::{MemSource, Source};
use wk_bytes::Line;
use wk_lines::{LineReader, NextLine};
use wk_memory::Memory;
use wk_replica::{Replica, TakeRefusal};

/// How many lines there are, with bars between, and the number that a replica tells of the last one that is bad.
fn numbers_by(replica: &mut Replica, lines: &str) -> (u64, u64) {
    let mut count: u64 = 0;
    let mut bad: u64 = 0;
    'lines: for line in lines.split('|') {
        count = count.saturating_add(1);
        if let Err(TakeRefusal::BadLine(number)) = take(replica, line.as_bytes()) {
            bad = number;
        }
    }
    (count, bad)
}

/// Whether a new replica takes all of these lines but the last, and tells of that one that it is bad, by its number. That is so
/// exactly where the number of the last bad line is how many lines there are.
fn is_last_bad(alloc: Global, lines: &str) -> Result<bool, Memory> {
    let mut replica = Replica::new(alloc)?;
    let (count, bad) = numbers_by(&mut replica, lines);
    let_go(replica);
    Ok(bad == count)
}

/// The cases of lines of which that isn't so.
pub fn wrong_cases(alloc: Global, cases: &str) -> Result<String, Memory> {
    let mut wrong = String::new(alloc);
    'cases: for case in cases.lines() {
        if !is_last_bad(alloc, case)? {
            wrong.push_str(case)?;
            wrong.push('\n')?;
        }
    }
    Ok(wrong)
}

/// What a new replica tells of a line that isn't UTF-8.
pub fn told_of_no_text(alloc: Global) -> Result<String, Memory> {
    let mut replica = Replica::new(alloc)?;
    let told = take(&mut replica, b"[\"\xff\"]");
    let_go(replica);
    Ok(format!(in alloc; "{told:?}")?)
}

/// Takes a line of an input. Whether it was taken.
fn take_read(replica: &mut Replica, line: &Line) -> bool {
    match line {
        Line::Whole(bytes) => take(replica, bytes).is_ok(),
        _ => false,
    }
}

/// Takes the lines of an input that end with a newline. Whether all of them were taken.
fn take_input<I: Source>(replica: &mut Replica, reader: &mut LineReader, input: &mut I) -> bool {
    'lines: for _ in 0..1_000 {
        let Ok(next) = reader.next(input) else {
            return false;
        };
        match next {
            NextLine::Inner(line) => {
                if !take_read(replica, &line) {
                    return false;
                }
            }
            NextLine::Last(_rest) => return true,
        }
    }
    false
}

/// Whether a new replica takes each line of these bytes of a feed that ends with a newline, and is behind so many events then.
fn is_taken(alloc: Global, bytes: &[u8], events: u64) -> Result<bool, Memory> {
    let mut input = MemSource::new(bytes.to_vec(alloc)?, Vec::new(alloc));
    let mut reader = LineReader::new(alloc, 1_048_576);
    let mut replica = Replica::new(alloc)?;
    let taken = take_input(&mut replica, &mut reader, &mut input);
    let behind = replica.taken();
    let_go(replica);
    Ok(taken && behind == events)
}

/// The first length at which a feed isn't taken so that is cut there; 0 where it is taken so at each. So many lines tell the start.
pub fn first_wrong(alloc: Global, feed: &str, start: u64) -> Result<usize, Memory> {
    let mut cut = Vec::new(alloc);
    let mut lines: u64 = 0;
    'bytes: for byte in feed.as_bytes() {
        cut.push(*byte)?;
        if *byte == b'\n' {
            lines = lines.saturating_add(1);
        }
        if !is_taken(alloc, &cut, lines.saturating_sub(start))? {
            return Ok(cut.len());
        }
    }
    Ok(0)
}

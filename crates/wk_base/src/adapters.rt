// The edge of the project: readers, writers and the clock of std. What they really do is trusted and not proved.
ghost use Rattle.std.specs.Prelude.{◌≡◌, ◌≤◌, ◌<◌, length, IfOk, OnErr, OnOk, None};
ghost use Rattle.std.specs.Io.KnownBytes.{ReadConsumes, WriteAppends};
ghost use Rattle.wk_base.specs.Adapters.{source_reader, source_faults, sink_writer, sink_faults, clock_system};
ghost use Rattle.wk_base.specs.Faults.{Rose, one_more};

use crate::{Clock, Failed, Sink, Source};
use std::io::{Read, Write};
use std::rt;
use std::time::{SystemTime, UNIX_EPOCH};

/// A reader of std as a source. It tells of its bytes what std tells of the reader's.
#[derive(Drop)]
pub struct ReadSource<R> {
    reader: R,
    faults: u64,
}

impl<R> ReadSource<R> {
    /// A source of what the reader gives. No read has failed yet.
    pub fn new(reader: R) -> ReadSource<R>
        ensures reader { source_reader result ≡ reader }
        ensures faults { source_faults result ≡ 0 }
    {
        ReadSource { reader, faults: 0 }
    }

    /// How many reads have failed.
    pub fn faults(&self) -> u64
        ensures { result ≡ source_faults self.now }
    {
        self.faults
    }
}

impl<R: Read + Drop> Source for ReadSource<R> {
    ghost rest = { λ s. R.remaining (source_reader s) };

    ghost faults = { source_faults };

    /// Reads once. Each error of the reader is a fault, one that says that it was interrupted too.
    fn read(&mut self, room: &mut [u8]) -> Result<usize, Failed>
        requires { 0 < length room.old }

        ensures bytes { ReadConsumes (R.remaining (source_reader self.old)) (R.remaining (source_reader self.new)) result room.new }
        ensures count { IfOk result (λ n. n ≤ length room.old) }
        ensures never_falls { source_faults self.old ≤ source_faults self.new }
        ensures no_fault { OnOk result (source_faults self.new ≡ source_faults self.old) }
        ensures cause { OnErr result (Rose (source_faults self.old) (source_faults self.new)) }

        ensures counted { OnErr result (source_faults self.new ≡ one_more (source_faults self.old)) }
    {
        match self.reader.read(room) {
            Ok(n) => Ok(n),
            Err(_) => Err(count_fault(&mut self.faults)),
        }
    }
}

/// A writer of std as a sink. It tells of the bytes taken what std tells of the writer's. It flushes nothing.
#[derive(Drop)]
pub struct WriteSink<W> {
    writer: W,
    faults: u64,
}

impl<W> WriteSink<W> {
    /// A sink whose bytes go to the writer. No write has failed yet.
    pub fn new(writer: W) -> WriteSink<W>
        ensures writer { sink_writer result ≡ writer }
        ensures faults { sink_faults result ≡ 0 }
    {
        WriteSink { writer, faults: 0 }
    }

    /// How many writes have failed.
    pub fn faults(&self) -> u64
        ensures { result ≡ sink_faults self.now }
    {
        self.faults
    }
}

impl<W: Write + Drop> Sink for WriteSink<W> {
    ghost taken = { λ s. W.contents (sink_writer s) };

    ghost faults = { sink_faults };

    /// Writes once. Each error of the writer is a fault, and so is a write that takes nothing.
    fn write(&mut self, piece: &[u8]) -> Result<usize, Failed>
        requires { 0 < length piece.now }

        ensures bytes { WriteAppends (W.contents (sink_writer self.old)) (W.contents (sink_writer self.new)) result piece.now }
        ensures count { IfOk result (λ n. (0 < n) × (n ≤ length piece.now)) }
        ensures never_falls { sink_faults self.old ≤ sink_faults self.new }
        ensures no_fault { OnOk result (sink_faults self.new ≡ sink_faults self.old) }
        ensures cause { OnErr result (Rose (sink_faults self.old) (sink_faults self.new)) }

        ensures counted { OnErr result (sink_faults self.new ≡ one_more (sink_faults self.old)) }
    {
        match self.writer.write(piece) {
            Ok(0) | Err(_) => Err(count_fault(&mut self.faults)),
            Ok(n) => Ok(n),
        }
    }
}

// Counts a fault, and answers it.
fn count_fault(faults: &mut u64) -> Failed
    ensures counted { faults.new ≡ one_more faults.old }
    ensures never_falls { faults.old ≤ faults.new }
{
    *faults = faults.saturating_add(1);
    Failed
}

/// The system's clock. It tells nothing.
#[derive(Drop)]
pub struct SystemClock<C> {
    system: C,
}

impl<C> SystemClock<C> {
    /// A clock over the runtime's.
    pub fn new(system: C) -> SystemClock<C>
        ensures { clock_system result ≡ system }
    {
        SystemClock { system }
    }
}

impl<C: rt::Clock + Drop> Clock for SystemClock<C> {
    ghost left = { λ _. None };

    /// The whole seconds since 1970 by the system's clock, and 0 where that can't be read or stands before 1970.
    fn now(&mut self) -> u64 {
        match SystemTime::now(&self.system) {
            Ok(time) => time
                .duration_since(UNIX_EPOCH)
                .map_or(0, |since| since.as_secs()),
            Err(_) => 0,
        }
    }
}

//! A reader of lines.
ghost use Rattle.std.specs.Prelude.{◌≡◌, ◌+◌, ◌^◌, ◌<◌, ◌≤◌, IfErr, IfOk, OnOk, Err};
ghost use Rattle.wk_base.specs.Faults.{Rose};
ghost use Rattle.wk_lines.specs.Reading.{Gives, StopsReading, nothing_read};

use crate::reading::{self, NextLine};
use crate::stop::Stop;
use std::alloc::Global;
use std::marker::Model;
use wk_base::Source;
use wk_bytes::LineCutter;

/// Reads an input and gives its lines, one after the other. Of a line that is longer than the limit little is kept.
#[derive(Drop)]
pub struct LineReader {
    cutter: LineCutter,
    total: u64,
}

impl Model for LineReader {
    ghost use Rattle.std.specs.Prelude.{◌+◌, ◌^◌, ◌<◌};
    ghost use Rattle.wk_bytes.specs.LineCutter.{HasNoNewline};
    ghost use Rattle.wk_lines.specs.Reading.{Reading};

    ghost Value = { Reading };

    ghost view = { λ r. record { cutter = r.cutter; total = r.total } };

    ghost invariant = { λ r. (r.total < 2 ^ 40 + 2 ^ 13) × HasNoNewline r.cutter.rest };
}

impl LineReader {
    /// A reader of an input whose lines have at most `most` bytes, before its first read. Takes no memory.
    pub fn new(alloc: Global, most: usize) -> LineReader
        ensures { result ≡ nothing_read most }
    {
        LineReader {
            cutter: LineCutter::new(alloc, most),
            total: 0,
        }
    }

    /// What comes next of the input, which is the same at each call. It is read only where no whole line was read
    /// yet, and never again behind [`NextLine::Last`], where the caller ends.
    ///
    /// No more than 2^40 bytes and one piece are read in all. What was read was given as far as it has newlines, unless
    /// memory ran out. `Stop::Memory` comes where there is no memory for a piece of the input, which is then lost; `Stop::ReadFault`
    /// where a read failed; `Stop::Bound` where 2^40 bytes were read, whatever else is left. It is never
    /// `Stop::WriteFault`.
    pub fn next<I: Source>(&mut self, input: &mut I) -> Result<NextLine, Stop>
        ensures ok { IfOk result (Gives self.old self.new (I.rest input.old) (I.rest input.new)) }
        ensures err { IfErr result (StopsReading self.old self.new (I.rest input.old) (I.rest input.new)) }
        ensures few { self.new.total < 2 ^ 40 + 2 ^ 13 }
        ensures never_falls { I.faults input.old ≤ I.faults input.new }
        ensures no_fault { OnOk result (I.faults input.new ≡ I.faults input.old) }
        ensures cause { result ≡ Err Stop.ReadFault → Rose (I.faults input.old) (I.faults input.new) }
    {
        reading::next_line(&mut self.cutter, &mut self.total, input)
    }
}

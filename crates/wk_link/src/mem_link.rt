// A connection in memory.
ghost use Rattle.std.specs.Prelude.{◌≡◌, ◌≤◌, ◌<◌, length, IfOk, OnErr, OnOk, Some};
ghost use Rattle.std.specs.Io.KnownBytes.{ReadConsumes, WriteAppends};
ghost use Rattle.wk_base.specs.Faults.{Rose};

use crate::Link;
use std::marker::Model;
use wk_base::{Failed, MemSink, MemSource, Sink, Source};

/// A connection in memory: its reads are those of a source in memory, its writes those of such a sink. It tells
/// everything.
#[derive(Drop)]
pub struct MemLink {
    source: MemSource,
    sink: MemSink,
}

impl Model for MemLink {
    ghost use Rattle.wk_link.specs.MemLinks.{BothWays};

    ghost Value = { BothWays };

    ghost view = { λ l. record { source = l.source; sink = l.sink } };
}

impl MemLink {
    /// A connection with these two sides. No memory is taken.
    pub fn new(source: MemSource, sink: MemSink) -> MemLink
        ensures { result ≡ record { source = source; sink = sink } }
    {
        MemLink { source, sink }
    }

    /// The bytes that were written to it so far.
    pub fn written(&self) -> &[u8]
        ensures { result.now ≡ self.now.sink.taken }
    {
        self.sink.bytes()
    }

    /// The bytes that are left to read.
    pub fn rest(&self) -> &[u8]
        ensures { result.now ≡ self.now.source.rest }
    {
        self.source.rest()
    }

    /// How many reads have failed.
    pub fn read_faults(&self) -> u64
        ensures { result ≡ self.now.source.calls.faults }
    {
        self.source.faults()
    }

    /// How many writes have failed.
    pub fn write_faults(&self) -> u64
        ensures { result ≡ self.now.sink.calls.faults }
    {
        self.sink.faults()
    }
}

impl Source for MemLink {
    ghost rest = { λ l. Some l.source.rest };

    ghost faults = { λ l. l.source.calls.faults };

    /// Reads from its source; its sink stays as it is.
    fn read(&mut self, room: &mut [u8]) -> Result<usize, Failed>
        requires { 0 < length room.old }

        ensures bytes { ReadConsumes (Some self.old.source.rest) (Some self.new.source.rest) result room.new }
        ensures count { IfOk result (λ n. n ≤ length room.old) }
        ensures never_falls { self.old.source.calls.faults ≤ self.new.source.calls.faults }
        ensures no_fault { OnOk result (self.new.source.calls.faults ≡ self.old.source.calls.faults) }
        ensures cause { OnErr result (Rose self.old.source.calls.faults self.new.source.calls.faults) }

        ensures sink { self.new.sink ≡ self.old.sink }
    {
        self.source.read(room)
    }
}

impl Sink for MemLink {
    ghost taken = { λ l. Some l.sink.taken };

    ghost faults = { λ l. l.sink.calls.faults };

    /// Writes to its sink; its source stays as it is.
    fn write(&mut self, piece: &[u8]) -> Result<usize, Failed>
        requires { 0 < length piece.now }

        ensures bytes { WriteAppends (Some self.old.sink.taken) (Some self.new.sink.taken) result piece.now }
        ensures count { IfOk result (λ n. (0 < n) × (n ≤ length piece.now)) }
        ensures never_falls { self.old.sink.calls.faults ≤ self.new.sink.calls.faults }
        ensures no_fault { OnOk result (self.new.sink.calls.faults ≡ self.old.sink.calls.faults) }
        ensures cause { OnErr result (Rose self.old.sink.calls.faults self.new.sink.calls.faults) }

        ensures source { self.new.source ≡ self.old.source }
    {
        self.sink.write(piece)
    }
}

impl Link for MemLink {
    fn receive(&mut self, room: &mut [u8]) -> Result<usize, Failed> {
        self.source.read(room)
    }

    fn send(&mut self, piece: &[u8]) -> Result<usize, Failed> {
        self.sink.write(piece)
    }
}

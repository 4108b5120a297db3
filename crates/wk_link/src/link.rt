// The trait of a connection.
ghost use Rattle.std.specs.Prelude.{◌≡◌, ◌≤◌, ◌<◌, length, IfOk, OnErr, OnOk};
ghost use Rattle.std.specs.Io.KnownBytes.{ReadConsumes, WriteAppends};
ghost use Rattle.wk_base.specs.Faults.{Rose};

use wk_base::{Failed, Sink, Source};

/// A connection: the bytes that the peer sends are read from it, and bytes that are written to it go to the peer. Each of
/// the two ways has its own count of faults.
///
/// `receive` is the source's `read` and `send` the sink's `write`; they tell besides that neither way touches the other, which
/// the two traits can't tell of one object.
pub trait Link: Source + Sink {
    /// Reads, as [`Source::read`] has it. What was written stays as it is.
    fn receive(&mut self, room: &mut [u8]) -> Result<usize, Failed>
        requires { 0 < length room.old }
        ensures bytes { ReadConsumes (Self.Source.rest self.old) (Self.Source.rest self.new) result room.new }
        ensures count { IfOk result (λ n. n ≤ length room.old) }
        ensures never_falls { Self.Source.faults self.old ≤ Self.Source.faults self.new }
        ensures no_fault { OnOk result (Self.Source.faults self.new ≡ Self.Source.faults self.old) }
        ensures cause { OnErr result (Rose (Self.Source.faults self.old) (Self.Source.faults self.new)) }
        ensures written { Self.Sink.taken self.new ≡ Self.Sink.taken self.old }
        ensures write_faults { Self.Sink.faults self.new ≡ Self.Sink.faults self.old };

    /// Writes, as [`Sink::write`] has it. What is left to read stays as it is.
    fn send(&mut self, piece: &[u8]) -> Result<usize, Failed>
        requires { 0 < length piece.now }
        ensures bytes { WriteAppends (Self.Sink.taken self.old) (Self.Sink.taken self.new) result piece.now }
        ensures count { IfOk result (λ n. (0 < n) × (n ≤ length piece.now)) }
        ensures never_falls { Self.Sink.faults self.old ≤ Self.Sink.faults self.new }
        ensures no_fault { OnOk result (Self.Sink.faults self.new ≡ Self.Sink.faults self.old) }
        ensures cause { OnErr result (Rose (Self.Sink.faults self.old) (Self.Sink.faults self.new)) }
        ensures rest { Self.Source.rest self.new ≡ Self.Source.rest self.old }
        ensures read_faults { Self.Source.faults self.new ≡ Self.Source.faults self.old };
}

// A sink that keeps what it takes.
ghost use Rattle.std.specs.Prelude.{◌≡◌, ◌↔◌, ◌⊎◌, ◌≤◌, ◌<◌, ◌-◌, ◌++◌, [], length, min, take, IfOk, IsErr, OnErr, OnOk, Some};
ghost use Rattle.std.specs.Io.KnownBytes.{WriteAppends};
ghost use Rattle.wk_base.specs.Calls.{IsNextToFail, after_failure, after_success, none_made};
ghost use Rattle.wk_base.specs.Faults.{Rose};

use crate::{Calls, Failed, Memory, Sink};
use std::alloc::Global;
use std::marker::Model;

/// A sink that keeps what it takes, in room that it took when it was made. Its writes fail where it was told so, and
/// where it is full. It tells everything.
#[derive(Drop)]
pub struct MemSink {
    taken: Vec<u8>,
    most: usize,
    calls: Calls,
}

impl Model for MemSink {
    ghost use Rattle.std.specs.Prelude.{◌≤◌, vec_capacity, vec_len};
    ghost use Rattle.wk_base.specs.Forms.{BytesTaken};

    ghost Value = { BytesTaken };

    ghost view = { λ s. record { taken = s.taken.items; most = s.most; calls = s.calls } };

    ghost invariant = { λ s. (vec_len s.taken ≤ s.most) × (s.most ≤ vec_capacity s.taken) };
}

impl MemSink {
    /// An empty sink with room for `most` bytes. The writes with the numbers of `fail`, counted from 1, fail.
    ///
    /// `Memory` comes where there is no room for so many bytes.
    pub fn new(alloc: Global, most: usize, fail: Vec<u64>) -> Result<MemSink, Memory>
        ensures { IfOk result (λ s. s ≡ record { taken = []; most = most; calls = none_made fail.items }) }
    {
        Ok(MemSink {
            taken: Vec::with_capacity(alloc, most)?,
            most,
            calls: Calls::new(fail),
        })
    }

    /// The bytes that were taken so far.
    pub fn bytes(&self) -> &[u8]
        ensures { result.now ≡ self.now.taken }
    {
        &self.taken
    }

    /// How many writes have failed.
    pub fn faults(&self) -> u64
        ensures { result ≡ self.now.calls.faults }
    {
        self.calls.faults()
    }

    /// How many more bytes fit.
    fn room(&self) -> usize
        ensures room { result ≡ self.now.most - length self.now.taken }
        ensures in_range { length self.now.taken ≤ self.now.most }
    {
        self.most - self.taken.len()
    }
}

impl Sink for MemSink {
    ghost taken = { λ s. Some s.taken };

    ghost faults = { λ s. s.calls.faults };

    /// Takes as many bytes as fit, unless this write is one that is to fail, or the sink is full: then it fails. A
    /// write that fails changes nothing but the counts.
    fn write(&mut self, piece: &[u8]) -> Result<usize, Failed>
        requires { 0 < length piece.now }

        ensures bytes { WriteAppends (Some self.old.taken) (Some self.new.taken) result piece.now }
        ensures count { IfOk result (λ n. (0 < n) × (n ≤ length piece.now)) }
        ensures never_falls { self.old.calls.faults ≤ self.new.calls.faults }
        ensures no_fault { OnOk result (self.new.calls.faults ≡ self.old.calls.faults) }
        ensures cause { OnErr result (Rose self.old.calls.faults self.new.calls.faults) }

        ensures fails { IsErr result ↔ (IsNextToFail self.old.calls ⊎ (self.old.most ≤ length self.old.taken)) }
        ensures failed { OnErr result (self.new ≡ record self.old { calls = after_failure self.old.calls }) }
        ensures all_that_fit { IfOk result (λ n. n ≡ min (length piece.now) (self.old.most - length self.old.taken)) }
        ensures written { IfOk result (λ n. self.new ≡ record self.old {
          taken = self.old.taken ++ take n piece.now;
          calls = after_success self.old.calls;
        }) }
    {
        let room = self.room();
        if room == 0 || self.calls.is_next_to_fail() {
            self.calls.fail();
            return Err(Failed);
        }
        let n = piece.len().min(room);
        // There is room for them.
        self.taken.extend_from_slice(&piece[..n]).unwrap();
        self.calls.succeed();
        Ok(n)
    }
}

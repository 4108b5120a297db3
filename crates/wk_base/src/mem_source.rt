// A source over bytes in memory.
ghost use Rattle.std.specs.Prelude.{◌≡◌, ◌↔◌, ◌≤◌, ◌<◌, ◌++◌, drop, length, min, take, IfOk, IsErr, OnErr, OnOk, Some};
ghost use Rattle.std.specs.Io.KnownBytes.{ReadConsumes};
ghost use Rattle.wk_base.specs.Calls.{IsNextToFail, after_failure, after_success, none_made};
ghost use Rattle.wk_base.specs.Faults.{Rose};

use crate::{Calls, Failed, Source};
use std::marker::Model;

/// A source of bytes in memory, whose reads fail where it was told so. It tells everything.
#[derive(Drop)]
pub struct MemSource {
    bytes: Vec<u8>,
    at: usize,
    calls: Calls,
}

impl Model for MemSource {
    ghost use Rattle.std.specs.Prelude.{◌≤◌, drop, length};
    ghost use Rattle.wk_base.specs.Forms.{BytesLeft};

    ghost Value = { BytesLeft };

    ghost view = { λ s. record { rest = drop s.at s.bytes.items; calls = s.calls } };

    ghost invariant = { λ s. s.at ≤ length s.bytes.items };
}

impl MemSource {
    /// A source of these bytes. The reads with the numbers of `fail`, counted from 1, fail. No memory is taken.
    pub fn new(rest: Vec<u8>, fail: Vec<u64>) -> MemSource
        ensures { result ≡ record { rest = rest.items; calls = none_made fail.items } }
    {
        MemSource {
            bytes: rest,
            at: 0,
            calls: Calls::new(fail),
        }
    }

    /// The bytes that are left.
    pub fn rest(&self) -> &[u8]
        ensures { result.now ≡ self.now.rest }
    {
        &self.bytes[self.at..]
    }

    /// How many reads have failed.
    pub fn faults(&self) -> u64
        ensures { result ≡ self.now.calls.faults }
    {
        self.calls.faults()
    }
}

impl Source for MemSource {
    ghost rest = { λ s. Some s.rest };

    ghost faults = { λ s. s.calls.faults };

    /// Fills the room as far as the rest goes, unless this read is one that is to fail. A read that fails changes
    /// nothing but the counts.
    fn read(&mut self, room: &mut [u8]) -> Result<usize, Failed>
        requires { 0 < length room.old }

        ensures bytes { ReadConsumes (Some self.old.rest) (Some self.new.rest) result room.new }
        ensures count { IfOk result (λ n. n ≤ length room.old) }
        ensures never_falls { self.old.calls.faults ≤ self.new.calls.faults }
        ensures no_fault { OnOk result (self.new.calls.faults ≡ self.old.calls.faults) }
        ensures cause { OnErr result (Rose self.old.calls.faults self.new.calls.faults) }

        ensures fails { IsErr result ↔ IsNextToFail self.old.calls }
        ensures failed { OnErr result (self.new ≡ record self.old { calls = after_failure self.old.calls }) }
        ensures room_kept { OnErr result (room.new ≡ room.old) }
        ensures all_that_fit { IfOk result (λ n. n ≡ min (length room.old) (length self.old.rest)) }
        ensures read { IfOk result (λ n. self.new ≡ record { rest = drop n self.old.rest; calls = after_success self.old.calls }) }
        ensures room { IfOk result (λ n. room.new ≡ take n self.old.rest ++ drop n room.old) }
    {
        if self.calls.is_next_to_fail() {
            self.calls.fail();
            return Err(Failed);
        }
        let n = copy_front(self.rest(), room);
        self.at += n;
        self.calls.succeed();
        Ok(n)
    }
}

// Copies as many bytes as both have, and answers how many.
fn copy_front(from: &[u8], to: &mut [u8]) -> usize
    ensures count { result ≡ min (length to.old) (length from.now) }
    ensures copied { to.new ≡ take result from.now ++ drop result to.old }
{
    let n = to.len().min(from.len());
    to[..n].copy_from_slice(&from[..n]);
    n
}

// The traits of the outside.
ghost use Rattle.std.specs.Prelude.{◌≡◌, ℕ, ◌<◌, ◌≤◌, List, length, IfOk, OnErr, OnOk, Option};
ghost use Rattle.std.specs.Io.KnownBytes.{ReadConsumes, WriteAppends};
ghost use Rattle.wk_base.specs.Clock.{Ticks};
ghost use Rattle.wk_base.specs.Faults.{Rose};

use thiserror::Error;

/// A call to the outside failed. It says no more: the cause is the outside's.
#[derive(Clone, Copy, Debug, PartialEq, Eq, Error)]
#[error("the outside failed")]
pub struct Failed;

/// Where bytes come from.
pub trait Source: Drop {
    /// The bytes that are left to read, where the source tells them. A source that tells them goes on telling them.
    ghost rest: { Self → Option (List ℕ) };

    /// How many reads have failed. It stops at the end of `u64`.
    ghost faults: { Self → ℕ };

    /// Moves bytes from the front of the rest to the front of `room`, and answers how many. 0 is the end of input:
    /// no byte was left. What stands in `room` behind them isn't told.
    ///
    /// `Failed` comes only where the count of faults rose in this call, or stands at its end. The rest is then as it
    /// was, and what stands in `room` isn't told. Where the answer is `Ok` the count is as it was: no read that failed
    /// is made up for by another.
    fn read(&mut self, room: &mut [u8]) -> Result<usize, Failed>
        requires { 0 < length room.old }
        ensures bytes { ReadConsumes (rest self.old) (rest self.new) result room.new }
        ensures count { IfOk result (λ n. n ≤ length room.old) }
        ensures never_falls { faults self.old ≤ faults self.new }
        ensures no_fault { OnOk result (faults self.new ≡ faults self.old) }
        ensures cause { OnErr result (Rose (faults self.old) (faults self.new)) };
}

/// Where bytes go.
pub trait Sink: Drop {
    /// The bytes that were taken so far, where the sink tells them. A sink that tells them goes on telling them.
    ghost taken: { Self → Option (List ℕ) };

    /// How many writes have failed. It stops at the end of `u64`.
    ghost faults: { Self → ℕ };

    /// Takes bytes from the front of `piece`, at least one, and answers how many.
    ///
    /// `Failed` comes only where the count of faults rose in this call, or stands at its end. Nothing was then taken.
    /// A sink that would take nothing answers it. Where the answer is `Ok` the count is as it was: no write that failed
    /// is made up for by another.
    fn write(&mut self, piece: &[u8]) -> Result<usize, Failed>
        requires { 0 < length piece.now }
        ensures bytes { WriteAppends (taken self.old) (taken self.new) result piece.now }
        ensures count { IfOk result (λ n. (0 < n) × (n ≤ length piece.now)) }
        ensures never_falls { faults self.old ≤ faults self.new }
        ensures no_fault { OnOk result (faults self.new ≡ faults self.old) }
        ensures cause { OnErr result (Rose (faults self.old) (faults self.new)) };
}

/// Tells the time. It can't fail.
pub trait Clock: Drop {
    /// The moments that are left, where the clock tells them. A clock that tells them goes on telling them.
    ghost left: { Self → Option (List ℕ) };

    /// The seconds since 1970. A clock that tells its moments gives the first that is left, which then goes unless it
    /// is the last, and 0 where none is left.
    fn now(&mut self) -> u64
        ensures { Ticks (left self.old) (left self.new) result };
}

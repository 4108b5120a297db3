// A clock that many threads read.
ghost use Rattle.std.specs.Prelude.{None};

use std::sync::{Mutex, Wait};
use wk_base::Clock;

/// A clock that many threads read, each in its turn. It tells nothing: what the others take of the moments isn't known.
#[derive(Drop)]
pub struct LockedClock<'a, 'c, R: Wait, C: Clock> {
    rt: &'a R,
    clock: &'a Mutex<&'c mut C>,
}

impl<'a, 'c, R: Wait, C: Clock> LockedClock<'a, 'c, R, C> {
    /// The clock behind this lock. No memory is taken.
    pub fn new(rt: &'a R, clock: &'a Mutex<&'c mut C>) -> LockedClock<'a, 'c, R, C> {
        LockedClock { rt, clock }
    }
}

impl<R: Wait, C: Clock> Clock for LockedClock<'_, '_, R, C> {
    ghost left = { λ _. None };

    /// The seconds since 1970, by the clock. It waits while another thread reads it.
    fn now(&mut self) -> u64 {
        let mut clock = self.clock.lock(self.rt);
        clock.now()
    }
}

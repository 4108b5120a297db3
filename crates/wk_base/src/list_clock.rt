// A clock that gives the moments of a list.
ghost use Rattle.std.specs.Prelude.{◌≡◌, Some};

use crate::Clock;
use std::marker::Model;

/// A clock that gives these moments one after the other, and then repeats the last, or gives 0 where there is none.
/// It tells everything.
#[derive(Drop)]
pub struct ListClock {
    moments: Vec<u64>,
    at: usize,
}

impl Model for ListClock {
    ghost use Rattle.std.specs.Prelude.{◌≤◌, ℕ, List, drop, length};

    ghost Value = { List ℕ };

    ghost view = { λ c. drop c.at c.moments.items };

    ghost invariant = { λ c. c.at ≤ length c.moments.items };
}

impl ListClock {
    /// A clock that gives these moments, as seconds since 1970. No memory is taken.
    pub fn new(moments: Vec<u64>) -> ListClock
        ensures { result ≡ moments.items }
    {
        ListClock { moments, at: 0 }
    }

    /// The moments that are left.
    pub fn left(&self) -> &[u64]
        ensures { result.now ≡ self.now }
    {
        &self.moments[self.at..]
    }
}

impl Clock for ListClock {
    ghost left = { λ c. Some c };

    fn now(&mut self) -> u64 {
        match *self.left() {
            [] => 0,
            [last] => last,
            [first, ..] => {
                self.at += 1;
                first
            }
        }
    }
}

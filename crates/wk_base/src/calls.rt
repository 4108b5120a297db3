// Which calls of a form in memory are to fail.
ghost use Rattle.std.specs.Prelude.{◌≡◌, ◌↔◌, ◌≤◌, IsTrue};
ghost use Rattle.wk_base.specs.Calls.{IsNextToFail, after_failure, after_success, none_made};

use std::marker::Model;

/// Counts the calls of a form in memory, and knows which of them are to fail. Each count stops at the end of `u64`.
#[derive(Drop)]
pub struct Calls {
    to_fail: Vec<u64>,
    made: u64,
    faults: u64,
}

impl Model for Calls {
    ghost use Rattle.wk_base.specs.Calls.{CallsMade};

    ghost Value = { CallsMade };

    ghost view = { λ c. record { to_fail = c.to_fail.items; made = c.made; faults = c.faults } };
}

impl Calls {
    /// No call was made yet. Those with these numbers, from 1 on, are to fail. No memory is taken.
    pub fn new(to_fail: Vec<u64>) -> Calls
        ensures { result ≡ none_made to_fail.items }
    {
        Calls {
            to_fail,
            made: 0,
            faults: 0,
        }
    }

    /// Whether the next call is to fail.
    pub fn is_next_to_fail(&self) -> bool
        ensures { IsTrue result ↔ IsNextToFail self.now }
    {
        self.to_fail.contains(&self.made.saturating_add(1))
    }

    /// How many calls have failed.
    pub fn faults(&self) -> u64
        ensures { result ≡ self.now.faults }
    {
        self.faults
    }

    /// Counts a call that succeeds.
    pub fn succeed(&mut self)
        ensures { self.new ≡ after_success self.old }
    {
        self.made = self.made.saturating_add(1);
    }

    /// Counts a call that fails.
    pub fn fail(&mut self)
        ensures counted { self.new ≡ after_failure self.old }
        ensures never_falls { self.old.faults ≤ self.new.faults }
    {
        self.made = self.made.saturating_add(1);
        self.faults = self.faults.saturating_add(1);
    }
}

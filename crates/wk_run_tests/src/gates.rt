//! A gate whose copies wait for each other.

use std::sync::atomic::{AtomicU64, Ordering};
use std::thread::yield_now;
use wk_base::Gate;

/// How often a wait looks at most.
const MOST_TURNS: u64 = 1_000_000_000;

/// Waits until the count is as great as this; whether it came to that.
fn reached(count: &AtomicU64, wanted: u64) -> bool {
    'turns: for _ in 0..MOST_TURNS {
        if count.load(Ordering::SeqCst) >= wanted {
            return true;
        }
        yield_now();
    }
    false
}

/// How many copies of a gate are to meet, how many were passed, and how many of them waited in vain.
#[derive(Drop)]
pub struct Meeting {
    wanted: u64,
    came: AtomicU64,
    missed: AtomicU64,
}

impl Meeting {
    /// A meeting of so many, to which nobody came yet.
    pub fn new(wanted: u64) -> Meeting {
        Meeting {
            wanted,
            came: AtomicU64::new(0),
            missed: AtomicU64::new(0),
        }
    }

    /// Comes, and waits until all have come.
    fn wait(&self) {
        self.came.fetch_add(1, Ordering::SeqCst);
        if !reached(&self.came, self.wanted) {
            self.missed.fetch_add(1, Ordering::SeqCst);
        }
    }

    /// Whether so many came or more, and none waited in vain.
    pub fn took_place(&self) -> bool {
        self.came.load(Ordering::SeqCst) >= self.wanted && self.missed.load(Ordering::SeqCst) == 0
    }
}

/// A gate each of whose copies comes to a meeting when it is first passed.
#[derive(Clone, Copy)]
pub struct Meeter<'a> {
    meeting: &'a Meeting,
    passed: bool,
}

impl<'a> Meeter<'a> {
    /// A gate that wasn't passed yet.
    pub fn new(meeting: &'a Meeting) -> Meeter<'a> {
        Meeter {
            meeting,
            passed: false,
        }
    }
}

impl Gate for Meeter<'_> {
    fn pass(&mut self) {
        if !self.passed {
            self.passed = true;
            self.meeting.wait();
        }
    }
}

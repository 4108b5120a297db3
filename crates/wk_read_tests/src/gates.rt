//! Gates that wait for what other threads do.

use std::sync::atomic::{AtomicU64, Ordering};
use std::thread::yield_now;
use wk_base::Gate;

/// How often a wait looks at most.
const MOST_TURNS: u64 = 100_000_000;

/// Waits until the count is this number or more; whether it came to that.
fn reached(count: &AtomicU64, wanted: u64) -> bool {
    'turns: for _ in 0..MOST_TURNS {
        if count.load(Ordering::SeqCst) >= wanted {
            return true;
        }
        yield_now();
    }
    false
}

/// A gate that waits when it is first passed: it raises a count that threads share, and waits until that is a number or more.
#[derive(Drop)]
pub struct Waiting<'a> {
    count: &'a AtomicU64,
    wanted: u64,
    passed: bool,
    /// Whether it waited, and the count came to that.
    pub met: bool,
}

impl<'a> Waiting<'a> {
    /// A gate that wasn't passed yet, and waits until the count is this number or more.
    pub fn new(count: &'a AtomicU64, wanted: u64) -> Waiting<'a> {
        Waiting {
            count,
            wanted,
            passed: false,
            met: false,
        }
    }
}

impl Gate for Waiting<'_> {
    fn pass(&mut self) {
        if self.passed {
            return;
        }
        self.passed = true;
        self.count.fetch_add(1, Ordering::SeqCst);
        self.met = reached(self.count, self.wanted);
    }
}

//! Gates that count, and gates that wait for what other threads do.

use std::alloc::Global;
use std::sync::Arc;
use std::sync::atomic::{AtomicU64, Ordering};
use std::thread::yield_now;
use wk_base::Gate;

/// How often a wait looks at most.
const MOST_TURNS: u64 = 1_000_000_000;

/// Waits until the count is this number or more; whether it came to that.
pub fn reached(count: &AtomicU64, wanted: u64) -> bool {
    'turns: for _ in 0..MOST_TURNS {
        if count.load(Ordering::SeqCst) >= wanted {
            return true;
        }
        yield_now();
    }
    false
}

/// A gate that counts how often it is passed.
#[derive(Drop)]
pub struct Counting {
    pub passed: u64,
}

impl Gate for Counting {
    fn pass(&mut self) {
        self.passed = self.passed.saturating_add(1);
    }
}

/// A gate that waits at some passes, one behind the other: it raises a count, which is even then, and waits until another one
/// has raised it too.
#[derive(Drop)]
pub struct Waiting {
    count: Arc<AtomicU64, Global>,
    /// At which pass it waits first, from 1.
    at: u64,
    /// At how many passes it waits.
    times: u64,
    passed: u64,
    waited: u64,
    /// How often it waited, and the count was raised.
    pub met: u64,
}

impl Waiting {
    /// A gate that wasn't passed yet.
    pub fn new(count: Arc<AtomicU64, Global>, at: u64, times: u64) -> Waiting {
        Waiting {
            count,
            at,
            times,
            passed: 0,
            waited: 0,
            met: 0,
        }
    }
}

impl Gate for Waiting {
    fn pass(&mut self) {
        self.passed = self.passed.wrapping_add(1);
        if self.passed < self.at || self.waited >= self.times {
            return;
        }
        self.waited = self.waited.wrapping_add(1);
        self.count.fetch_add(1, Ordering::SeqCst);
        if reached(&self.count, self.waited.saturating_mul(2)) {
            self.met = self.met.wrapping_add(1);
        }
    }
}

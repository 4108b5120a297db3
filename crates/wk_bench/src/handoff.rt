//! One word that two threads hand to and fro by sleeping and waking: what a turn costs where each caller sleeps.
use std::sync::Wait;
use std::sync::atomic::{AtomicU64, Ordering};
use std::thread::{Threads, join};

/// Sleeps until the word is even, or odd, as this thread's number is.
fn wait_for<R: Wait>(rt: &R, word: &AtomicU64, mine: u64) {
    'waiting: for _ in rt.forever() {
        let found = word.load(Ordering::SeqCst);
        if found % 2 == mine {
            return;
        }
        word.park(rt, (found & 0xffff_ffff) as u32);
    }
}

/// Hands the word on so many times, whenever it is this thread's.
fn hand_on<R: Wait>(rt: &R, word: &AtomicU64, mine: u64, times: u64) {
    'handing: for _ in 0..times {
        wait_for(rt, word, mine);
        word.fetch_add(1, Ordering::SeqCst);
        word.wake_one();
    }
}

/// Two threads hand one word to and fro, each so many times. How often it was handed on.
pub fn run<R: Threads + Wait + Sync>(rt: &R, times: u64) -> u64 {
    let word = AtomicU64::new(0);
    join(
        rt,
        || hand_on(rt, &word, 0, times),
        || hand_on(rt, &word, 1, times),
    );
    word.load(Ordering::SeqCst)
}

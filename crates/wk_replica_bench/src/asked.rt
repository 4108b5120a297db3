//! What the first line of the input asks for.

use std::rt::Clock;
use std::time::Instant;

/// What is asked for, and since when times count.
#[derive(Drop)]
pub struct Asked {
    /// How many pages there are to be asked for.
    pub pages: u64,
    /// How many threads answer requests.
    pub workers: u64,
    /// How many requests each of them answers.
    pub reads: u64,
    /// Whether times are told.
    pub times: bool,
    begun: Instant,
}

/// The number that a word is; 0 where it is none.
fn number(word: Option<&str>) -> u64 {
    match word.unwrap_or("").parse::<u64>() {
        Ok(number) => number,
        Err(_) => 0,
    }
}

impl Asked {
    /// What the line asks for; times count from now on. None where the clock can't be read.
    pub fn of<R: Clock>(rt: &R, line: &str) -> Option<Asked> {
        let begun = Instant::now(rt).ok()?;
        let mut words = line.split(' ');
        Some(Asked {
            pages: number(words.next()),
            workers: number(words.next()),
            reads: number(words.next()),
            times: words.next().unwrap_or("") == "times",
            begun,
        })
    }

    /// How many microseconds have gone by; 0 where the clock can't be read.
    pub fn passed<R: Clock>(&self, rt: &R) -> u128 {
        match self.begun.elapsed(rt) {
            Ok(passed) => passed.as_micros(),
            Err(_) => 0,
        }
    }
}

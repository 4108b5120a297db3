//! What runs are given.

use std::alloc::Global;
use wk_bytes::decimal;
use wk_memory::Memory;

/// What a run is given. Calls that fail are named by their numbers from 1 on, with blanks between them.
#[derive(Clone, Copy, Drop)]
pub struct Given<'a> {
    /// The words of the command line, with blanks between them.
    pub words: &'a str,
    /// The input.
    pub input: &'a str,
    /// What the peers of the two links at the door send. Where it is nothing there is no such link.
    pub asked: [&'a str; 2],
    /// Reads of the input that fail.
    pub reads: &'a str,
    /// Writes of the output that fail.
    pub writes: &'a str,
    /// Calls of the vault that fail.
    pub vault: &'a str,
    /// Calls of the store that fail. The first one loads it.
    pub store: &'a str,
    /// Calls of the door that fail. The first one listens.
    pub door: &'a str,
    /// How many bytes the output takes, or nothing where it takes all.
    pub room: &'a str,
    /// How many bytes each link takes at a write, at most.
    pub most: usize,
}

/// No words, no input, no link, and no call that fails.
pub const NOTHING: Given<'static> = Given {
    words: "",
    input: "",
    asked: ["", ""],
    reads: "",
    writes: "",
    vault: "",
    store: "",
    door: "",
    room: "",
    most: usize::MAX,
};

impl<'a> Given<'a> {
    /// Takes what a part of a case says. A part that says nothing known takes the words away.
    fn set(&mut self, part: &'a str) {
        let (name, value) = part.split_once(' ').unwrap_or((part, ""));
        match name {
            "wiki" => self.words = part,
            "read" => self.reads = value,
            "write" => self.writes = value,
            "vault" => self.vault = value,
            "store" => self.store = value,
            "door" => self.door = value,
            "room" => self.room = value,
            _ => self.words = "",
        }
    }
}

/// What a case is given: its words, and behind them what fails, each part behind a bar; with an input.
pub fn case_of<'a>(case: &'a str, input: &'a str) -> Given<'a> {
    let mut given = Given { input, ..NOTHING };
    'parts: for part in case.split(" | ") {
        given.set(part);
    }
    given
}

/// The parts of a line `CASE => WHAT COMES`.
pub fn parts(line: &str) -> (&str, &str) {
    line.split_once(" => ").unwrap_or((line, "no case"))
}

/// The numbers of a text.
pub fn numbers(alloc: Global, text: &str) -> Result<Vec<u64>, Memory> {
    let mut numbers = Vec::new(alloc);
    'words: for word in text.split_whitespace() {
        if let Some(number) = decimal(word.as_bytes()) {
            numbers.push(number)?;
        }
    }
    Ok(numbers)
}

/// The words of a text.
pub fn words(alloc: Global, text: &str) -> Result<Vec<String>, Memory> {
    let mut words = Vec::new(alloc);
    'words: for word in text.split_whitespace() {
        words.push(String::from_str(alloc, word)?)?;
    }
    Ok(words)
}

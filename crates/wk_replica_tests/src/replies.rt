//! Replies of a replica, and of a wiki.

use serde_json::Value;
use std::alloc::Global;
use wk_answer::answer;
use wk_core::{Keeper, Wiki};
use wk_expand::Trees;
use wk_memory::Memory;
use wk_replica::Replica;
use wk_request::{Asked, Request};

/// What is read from.
pub trait Answers {
    /// The answer to a request. A wiki is asked by reads alone, and answers `Memory` to a save.
    fn answer_to(&self, request: &Request, trees: &mut Trees) -> Result<Value, Memory>;
}

impl Answers for Replica {
    fn answer_to(&self, request: &Request, trees: &mut Trees) -> Result<Value, Memory> {
        self.answer(request, trees)
    }
}

impl<K: Keeper> Answers for Wiki<K> {
    fn answer_to(&self, request: &Request, trees: &mut Trees) -> Result<Value, Memory> {
        match request.ask.asked() {
            Asked::Save(_) => Err(Memory),
            _ => answer(self, request, trees),
        }
    }
}

/// The text of an answer.
fn text_of(alloc: Global, answer: Result<Value, Memory>) -> Result<String, Memory> {
    Ok(answer?.to_string(alloc)?)
}

/// The reply to these parameters, which were posted.
fn reply<A: Answers>(
    alloc: Global,
    asked: &A,
    parameters: &str,
    trees: &mut Trees,
) -> Result<String, Memory> {
    match Request::of(alloc, parameters.as_bytes(), b"", true) {
        Ok(request) => text_of(alloc, asked.answer_to(&request, trees)),
        Err(_) => Err(Memory),
    }
}

/// The replies to the parameters of each line, one in a line.
fn replies_by<A: Answers>(
    alloc: Global,
    asked: &A,
    lines: &str,
    trees: &mut Trees,
) -> Result<String, Memory> {
    let mut told = String::new(alloc);
    'lines: for line in lines.lines() {
        told.push_str(&reply(alloc, asked, line, trees)?)?;
        told.push('\n')?;
    }
    Ok(told)
}

/// The same with trees of its own.
pub fn replies<A: Answers>(alloc: Global, asked: &A, lines: &str) -> Result<String, Memory> {
    let mut trees = Trees::new(alloc, 8)?;
    replies_by(alloc, asked, lines, &mut trees)
}

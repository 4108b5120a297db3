//! Replicas that take lines.

use crate::replies::replies;
use std::alloc::Global;
use wk_memory::Memory;
use wk_replica::{Replica, TakeRefusal};

/// Lets a value go. It is generic, so that what its drop does is written out nowhere else.
pub fn let_go<T: Drop>(_value: T) {}

/// Takes a line, unless the replica is stopped.
pub fn take(replica: &mut Replica, line: &[u8]) -> Result<(), TakeRefusal> {
    if replica.stopped() {
        return Err(TakeRefusal::Memory);
    }
    replica.take(line)
}

/// Takes each line of a text. What comes of each.
fn told_of_each(alloc: Global, replica: &mut Replica, lines: &str) -> Result<String, Memory> {
    let mut told = String::new(alloc);
    'lines: for line in lines.lines() {
        let taken = take(replica, line.as_bytes());
        told.push_str(&format!(in alloc; "{taken:?} ")?)?;
    }
    Ok(told)
}

/// What comes of each of the lines that a replica takes, and behind them its replies to the parameters of the other lines.
fn replied_by(
    alloc: Global,
    replica: &mut Replica,
    lines: &str,
    asked: &str,
) -> Result<String, Memory> {
    let told = told_of_each(alloc, replica, lines)?;
    let replies = replies(alloc, &*replica, asked)?;
    Ok(format!(in alloc; "{told}\n{replies}")?)
}

/// The same of a new replica.
pub fn replied(alloc: Global, lines: &str, asked: &str) -> Result<String, Memory> {
    let mut replica = Replica::new(alloc)?;
    let told = replied_by(alloc, &mut replica, lines, asked);
    let_go(replica);
    told
}

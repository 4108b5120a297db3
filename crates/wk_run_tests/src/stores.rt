//! Runs over stores in memory. The vault stands here alone.

use crate::gates::Meeting;
use crate::given::{Given, NOTHING, numbers};
use crate::runs::{Ran, counted, run, tables_of};
use std::alloc::Global;
use std::sync::Wait;
use std::thread::Threads;
use wk_keeper::MemVault;
use wk_memory::Memory;
use wk_tables::Tables;

/// A vault whose store of the empty name has these tables.
fn vault(alloc: Global, tables: Tables, given: &Given<'_>) -> Result<MemVault, Memory> {
    let mut stores = Vec::new(alloc);
    stores.push((String::new(alloc), tables))?;
    let vault = numbers(alloc, given.vault)?;
    Ok(MemVault::new(stores, vault, numbers(alloc, given.store)?))
}

/// A run over a store with these tables, whose workers come to this meeting, and the tables that it leaves.
fn run_to_tables<R: Threads + Wait + Sync>(
    rt: &R,
    alloc: Global,
    tables: Tables,
    given: &Given<'_>,
    meeting: &Meeting,
) -> Result<(Ran, Option<Tables>), Memory> {
    let mut vault = vault(alloc, tables, given)?;
    let (ran, store) = run(rt, alloc, &mut vault, given, meeting)?;
    Ok((ran, tables_of(store)))
}

/// What is left in a store, where it gives its tables.
fn left_of(alloc: Global, tables: &Option<Tables>) -> Result<String, Memory> {
    match tables {
        Some(tables) => counted(alloc, tables),
        None => Ok(String::from_str(alloc, "none")?),
    }
}

/// A run over a store with these tables, whose workers come to this meeting.
pub fn run_met<R: Threads + Wait + Sync>(
    rt: &R,
    alloc: Global,
    tables: Tables,
    given: &Given<'_>,
    meeting: &Meeting,
) -> Result<Ran, Memory> {
    let (mut ran, tables) = run_to_tables(rt, alloc, tables, given, meeting)?;
    ran.left = left_of(alloc, &tables)?;
    Ok(ran)
}

/// A run over a store with these tables.
pub fn run_on<R: Threads + Wait + Sync>(
    rt: &R,
    alloc: Global,
    tables: Tables,
    given: &Given<'_>,
) -> Result<Ran, Memory> {
    run_met(rt, alloc, tables, given, &Meeting::new(0))
}

/// A run over the store that a script leaves, whose workers come to this meeting.
pub fn run_behind<R: Threads + Wait + Sync>(
    rt: &R,
    alloc: Global,
    script: &str,
    given: &Given<'_>,
    meeting: &Meeting,
) -> Result<Ran, Memory> {
    run_met(rt, alloc, left_by(rt, alloc, script)?, given, meeting)
}

/// The tables that a script leaves of an empty store.
pub fn left_by<R: Threads + Wait + Sync>(
    rt: &R,
    alloc: Global,
    script: &str,
) -> Result<Tables, Memory> {
    let given = Given {
        words: "wiki script",
        input: script,
        ..NOTHING
    };
    left_behind(rt, alloc, Tables::new(alloc), &given)?.ok_or(Memory)
}

/// The tables that a run leaves of a store with these.
pub fn left_behind<R: Threads + Wait + Sync>(
    rt: &R,
    alloc: Global,
    tables: Tables,
    given: &Given<'_>,
) -> Result<Option<Tables>, Memory> {
    let (_ran, left) = run_to_tables(rt, alloc, tables, given, &Meeting::new(0))?;
    Ok(left)
}

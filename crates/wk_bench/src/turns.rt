//! Turns that several threads take, each with a pass of its own, to add to one list.
ghost use Rattle.std.specs.Prelude.{◌≡◌, [], ◌∷◌, ◌++◌, None, All, IfOk, IfErr};
ghost use Rattle.wk_turn.specs.Told.{IsOf};

use std::alloc::Global;
use std::sync::Wait;
use std::thread::{Threads, for_each_mut};
use wk_memory::Memory;
use wk_turn::{Pass, Storied, Turn, begin};

/// A list that only grows. Its entries close nothing.
#[derive(Drop)]
struct Entries {
    list: Vec<u64>,
}

impl Storied for Entries {
    type Start = u64;

    type Entry = u64;

    ghost start = { λ _. 0 };

    ghost journal = { λ e. e.list.items };

    ghost closes = { λ _. None };

    fn length(&self) -> u64 {
        self.list.len() as u64
    }
}

impl Entries {
    fn add(&mut self, entry: u64) -> Result<(), Memory>
        ensures added { IfOk result (λ _. self.new.list.items ≡ self.old.list.items ++ entry ∷ []) }
        ensures none { IfErr result (λ _. self.new.list.items ≡ self.old.list.items) }
    {
        self.list.push(entry)?;
        Ok(())
    }
}

/// Takes a turn, and adds an entry in it, unless memory runs out.
fn add<R: Wait>(rt: &R, turn: &Turn<Entries>, pass: &mut Pass<Entries>, entry: u64)
    requires { IsOf turn.now pass.old × (pass.old.held ≡ None) }
    ensures { IsOf turn.now pass.new × (pass.new.held ≡ None) }
{
    let mut held = turn.enter(rt, pass);
    let _added = held.value.add(entry);
    turn.leave(pass, held);
}

/// Takes so many turns.
fn work<R: Wait>(rt: &R, turn: &Turn<Entries>, pass: &mut Pass<Entries>, turns: u64)
    requires { IsOf turn.now pass.old × (pass.old.held ≡ None) }
    ensures { IsOf turn.now pass.new × (pass.new.held ≡ None) }
{
    'turns: for entry in 0..turns {
        add(rt, turn, pass, entry);
    }
}

/// Takes so many turns by each pass, on a thread of its own.
fn work_all<R: Threads + Wait + Sync>(
    rt: &R,
    turn: &Turn<Entries>,
    passes: &mut [Pass<Entries>],
    turns: u64,
)
    requires { All (λ p. IsOf turn.now p × (p.held ≡ None)) passes.old }
    ensures { All (λ p. IsOf turn.now p × (p.held ≡ None)) passes.new }
{
    let threads = passes.len().max(1);
    for_each_mut(
        rt,
        passes,
        threads,
        &|_, pass: &mut Pass<Entries>| { work(rt, turn, pass, turns) },
    );
}

/// So many passes.
fn split(
    alloc: Global,
    turn: &Turn<Entries>,
    pass: &mut Pass<Entries>,
    count: u64,
) -> Result<Vec<Pass<Entries>>, Memory>
    requires { IsOf turn.now pass.old × (pass.old.held ≡ None) }
    ensures pass { pass.new ≡ pass.old }
    ensures passes { IfOk result (λ v. All (λ p. IsOf turn.now p × (p.held ≡ None)) v.items) }
{
    let mut passes = Vec::new(alloc);
    'splitting: for _ in 0..count {
        passes.push(turn.split(pass)?)?;
    }
    Ok(passes)
}

/// Joins the passes.
fn join(turn: &Turn<Entries>, pass: &mut Pass<Entries>, mut passes: Vec<Pass<Entries>>)
    requires pass { IsOf turn.now pass.old × (pass.old.held ≡ None) }
    requires passes { All (λ p. IsOf turn.now p × (p.held ≡ None)) passes.items }
    ensures { IsOf turn.now pass.new × (pass.new.held ≡ None) }
{
    'joining: while let Some(other) = passes.pop() {
        turn.join(pass, other);
    }
}

fn begun(alloc: Global) -> Result<(Turn<Entries>, Pass<Entries>), Memory>
    ensures { IfOk result (λ t. IsOf t.0 t.1 × (t.1.held ≡ None)) }
{
    let list = Vec::new(alloc);
    match begin(alloc, Entries { list }) {
        Ok(both) => Ok(both),
        Err((_entries, memory)) => Err(memory),
    }
}

/// Takes so many turns on each of so many threads. The entries of the list behind them, one for each turn in which memory
/// didn't run out.
pub fn run<R: Threads + Wait + Sync>(
    rt: &R,
    alloc: Global,
    turns: u64,
    threads: u64,
) -> Result<u64, Memory> {
    let (turn, mut pass) = begun(alloc)?;
    let mut passes = split(alloc, &turn, &mut pass, threads)?;
    work_all(rt, &turn, passes.as_mut_slice(), turns);
    join(&turn, &mut pass, passes);
    Ok(turn.finish(rt, pass).length())
}

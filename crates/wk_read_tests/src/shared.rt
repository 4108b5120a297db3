//! Two threads that share a replica.
ghost use Rattle.std.specs.Prelude.{IfOk};
ghost use Rattle.wk_read_tests.specs.Ready.{IsServing};

use crate::served::{Part, run};
use std::alloc::Global;
use std::sync::Wait;
use std::sync::atomic::AtomicU64;
use std::thread::{Threads, join};
use wk_memory::Memory;
use wk_replica::{Replica, TakeRefusal};
use wk_turn::{Pass, Turn, begin};

/// Lets a value go. It is generic, so that what its drop does is written out nowhere else.
fn let_go<T: Drop>(_value: T) {}

/// What two threads tell, each with a pass of its own.
fn run_both<R: Threads + Wait + Sync>(
    rt: &R,
    alloc: Global,
    shared: &Turn<Replica>,
    one: Pass<Replica>,
    two: Pass<Replica>,
    first: Part,
    second: Part,
    count: &AtomicU64,
) -> Result<String, Memory>
    requires one { IsServing shared.now one }
    requires two { IsServing shared.now two }
{
    let (a, b) = join(
        rt,
        || -> Result<String, Memory>
            requires { IsServing shared.now one }
        { run(rt, alloc, shared, one, first, count) },
        || -> Result<String, Memory>
            requires { IsServing shared.now two }
        { run(rt, alloc, shared, two, second, count) },
    );
    let (a, b) = (a?, b?);
    Ok(format!(in alloc; "{a}\n{b}")?)
}

/// The same with passes that are split of one.
fn run_split<R: Threads + Wait + Sync>(
    rt: &R,
    alloc: Global,
    shared: &Turn<Replica>,
    pass: &mut Pass<Replica>,
    first: Part,
    second: Part,
) -> Result<String, Memory>
    requires { IsServing shared.now pass.old }
    ensures { IsServing shared.now pass.new }
{
    let count = AtomicU64::new(0);
    let one = shared.split(pass)?;
    let two = shared.split(pass)?;
    run_both(rt, alloc, shared, one, two, first, second, &count)
}

/// Takes a line, unless the replica is stopped.
fn take(replica: &mut Replica, line: &[u8]) -> Result<(), TakeRefusal> {
    if replica.stopped() {
        return Err(TakeRefusal::Memory);
    }
    replica.take(line)
}

/// Takes the lines of a text up to the first that is refused.
fn take_all(replica: &mut Replica, lines: &str) -> Result<(), TakeRefusal> {
    'lines: for line in lines.lines() {
        take(replica, line.as_bytes())?;
    }
    Ok(())
}

/// A replica that has taken these lines, and a pass of it. It is shared where the start is among them.
fn begun(alloc: Global, lines: &str) -> Result<(Turn<Replica>, Pass<Replica>), Memory>
    ensures { IfOk result (λ t. IsServing t.0 t.1) }
{
    let mut replica = Replica::new(alloc)?;
    let _taken = take_all(&mut replica, lines);
    let Some(_line) = replica.start_line() else {
        let_go(replica);
        return Err(Memory);
    };
    match begin(alloc, replica) {
        Ok(both) => Ok(both),
        Err((replica, memory)) => {
            let_go(replica);
            Err(memory)
        }
    }
}

/// What two threads tell that share a replica which has taken these lines.
pub fn share<R: Threads + Wait + Sync>(
    rt: &R,
    alloc: Global,
    lines: &str,
    first: Part,
    second: Part,
) -> Result<String, Memory> {
    let (shared, mut pass) = begun(alloc, lines)?;
    let told = run_split(rt, alloc, &shared, &mut pass, first, second);
    let_go(shared.finish(rt, pass));
    told
}

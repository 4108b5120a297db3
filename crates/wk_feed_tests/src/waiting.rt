//! A sink that waits for what another thread does.
ghost use Rattle.std.specs.Prelude.{None};
ghost use Rattle.wk_feed_tests.specs.Ready.{IsReady};

use crate::calls::loaded;
use crate::feeds::{save, share};
use std::alloc::Global;
use std::sync::Wait;
use std::sync::atomic::{AtomicU64, Ordering};
use std::thread::{Threads, join, yield_now};
use wk_base::{Failed, Sink};
use wk_feeder::{FeedRefusal, Feeder};
use wk_memory::Memory;
use wk_shared::{Keeper, Pass, Shared, Wiki};

/// How often a wait looks at most.
const MOST_TURNS: u64 = 100_000_000;

/// Waits until the count is this number or more; whether it came to that.
fn reached(count: &AtomicU64, wanted: u64) -> bool {
    'turns: for _ in 0..MOST_TURNS {
        if count.load(Ordering::SeqCst) >= wanted {
            return true;
        }
        yield_now();
    }
    false
}

/// A sink that raises a count at each write, and waits until another thread has raised it too. It takes all, and tells nothing.
#[derive(Drop)]
struct WaitingSink<'a> {
    count: &'a AtomicU64,
    /// Whether it has waited, and the other thread came.
    met: bool,
}

impl Sink for WaitingSink<'_> {
    ghost taken = { λ _. None };

    ghost faults = { λ _. 0 };

    fn write(&mut self, piece: &[u8]) -> Result<usize, Failed> {
        self.count.fetch_add(1, Ordering::SeqCst);
        self.met = reached(self.count, 2);
        Ok(piece.len())
    }
}

/// What a send answers, and whether its sink waited for what another thread does, and that came.
type Sent = (Result<u64, FeedRefusal>, bool);

/// Sends what is new into a sink that waits for another thread.
fn send_waiting<K: Keeper, R: Wait>(
    rt: &R,
    alloc: Global,
    shared: &Shared<K>,
    own: Pass<Wiki<K>>,
    count: &AtomicU64,
) -> Sent
    requires { IsReady shared.now own }
{
    let mut feeder = Feeder::new(alloc, own);
    let mut sink = WaitingSink { count, met: false };
    let sent = feeder.send_new(rt, shared, &mut sink);
    (sent, sink.met)
}

/// Waits until the other thread writes, saves a page and raises the count. The point; 0 where the other thread doesn't come to it.
fn save_meanwhile<K: Keeper, R: Wait>(
    rt: &R,
    alloc: Global,
    shared: &Shared<K>,
    mut pass: Pass<Wiki<K>>,
    count: &AtomicU64,
) -> u64
    requires { IsReady shared.now pass }
{
    if !reached(count, 1) {
        return 0;
    }
    let point = save(rt, alloc, shared, &mut pass, "B=y");
    count.fetch_add(1, Ordering::SeqCst);
    point
}

/// One thread sends, and another one saves while the sink is written. What both tell.
fn send_and_save<K: Keeper + Send, R: Threads + Wait + Sync>(
    rt: &R,
    alloc: Global,
    shared: &Shared<K>,
    own: Pass<Wiki<K>>,
    other: Pass<Wiki<K>>,
    count: &AtomicU64,
) -> (Sent, u64)
    requires own { IsReady shared.now own }
    requires other { IsReady shared.now other }
{
    join(
        rt,
        || -> Sent
            requires { IsReady shared.now own }
        { send_waiting(rt, alloc, shared, own, count) },
        || -> u64
            requires { IsReady shared.now other }
        { save_meanwhile(rt, alloc, shared, other, count) },
    )
}

/// The same with passes that are split of one, behind the save of a page.
fn send_split<K: Keeper + Send, R: Threads + Wait + Sync>(
    rt: &R,
    alloc: Global,
    shared: &Shared<K>,
    pass: &mut Pass<Wiki<K>>,
) -> Result<(Sent, u64), Memory>
    requires { IsReady shared.now pass.old }
    ensures { IsReady shared.now pass.new }
{
    let count = AtomicU64::new(0);
    save(rt, alloc, shared, pass, "A=x");
    let own = shared.split(pass)?;
    let other = shared.split(pass)?;
    Ok(send_and_save(rt, alloc, shared, own, other, &count))
}

/// What two threads tell of which one saves while the other one writes what it sends.
pub fn told_of_wait<K: Keeper + Send, R: Threads + Wait + Sync>(
    rt: &R,
    alloc: Global,
    keeper: K,
) -> Result<String, Memory> {
    let (shared, mut pass) = share(loaded(alloc, keeper)?)?;
    let told = send_split(rt, alloc, &shared, &mut pass);
    let _keeper = shared.finish(rt, pass).release();
    Ok(format!(in alloc; "{told:?}")?)
}

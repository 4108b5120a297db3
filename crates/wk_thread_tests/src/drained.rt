//! Workers that drain a shared wiki.
ghost use Rattle.std.specs.Prelude.{◌≡◌, ◌<◌, All, IfOk, length};
ghost use Rattle.wk_thread_tests.specs.Ready.{IsReady};

use crate::gates::Waiting;
use crate::pages::{begun, page_title, save};
use std::alloc::Global;
use std::sync::atomic::AtomicU64;
use std::sync::{Arc, Wait};
use std::thread::Threads;
use wk_core::Reach;
use wk_memory::Memory;
use wk_readers::Reader;
use wk_refresh::{Worker, drain};
use wk_shared::{Keeper, Pass, Shared, Wiki};
use wk_title::{Title, page_named};

/// A worker whose gate waits at its first pass.
fn waiting<K: Keeper>(
    alloc: Global,
    shared: &Shared<K>,
    pass: &mut Pass<Wiki<K>>,
    count: &Arc<AtomicU64, Global>,
) -> Result<Worker<K, Waiting>, Memory>
    requires { IsReady shared.now pass.old }
    ensures pass { pass.new ≡ pass.old }
    ensures worker { IfOk result (λ w. IsReady shared.now w.reader.pass) }
{
    let gate = Waiting::new(count.clone()?, 1, 1);
    let own = shared.split(pass)?;
    match Reader::new(alloc, own) {
        Ok(reader) => Ok(Worker { reader, gate }),
        Err((_pass, memory)) => Err(memory),
    }
}

/// Two such workers.
fn two_waiting<K: Keeper>(
    alloc: Global,
    shared: &Shared<K>,
    pass: &mut Pass<Wiki<K>>,
) -> Result<Vec<Worker<K, Waiting>>, Memory>
    requires { IsReady shared.now pass.old }
    ensures pass { pass.new ≡ pass.old }
    ensures some { IfOk result (λ v. 0 < length v.items) }
    ensures workers { IfOk result (λ v. All (λ w. IsReady shared.now w.reader.pass) v.items) }
{
    let count = Arc::new(alloc, AtomicU64::new(0))?;
    let mut workers = Vec::new(alloc);
    workers.push(waiting(alloc, shared, pass, &count)?)?;
    workers.push(waiting(alloc, shared, pass, &count)?)?;
    Ok(workers)
}

/// How often the gates met.
fn met<K: Keeper>(workers: &[Worker<K, Waiting>]) -> u64 {
    let mut met: u64 = 0;
    'workers: for worker in workers {
        met = met.saturating_add(worker.gate.met);
    }
    met
}

/// How many pages include a title, how many link to it, and how many members a category has.
fn listed<K: Keeper>(
    wiki: &Wiki<K>,
    title: &Title,
    category: &Title,
) -> Result<[usize; 3], Memory> {
    let users = wiki.users(title, Reach::Text, 0, 9)?.len();
    let links = wiki.linking_pages(title, 0, 9)?.len();
    Ok([users, links, wiki.members(category, 0, 9)?.len()])
}

/// What pages a wiki lists for the third page and its category.
fn listings<K: Keeper>(alloc: Global, wiki: &Wiki<K>) -> Result<[usize; 3], Memory> {
    let title = page_title(alloc, 2)?;
    match page_named(alloc, "Category:P2")? {
        Some(category) => listed(wiki, &title, &category),
        None => Err(Memory),
    }
}

/// What both pages are.
const PAGE: &str = "{{:P2}}[[P2]][[Category:P2]]";

/// Two pages are refreshed by two workers whose gates wait for each other. Whether no job is left, how many gates met, and what
/// the wiki lists then.
pub fn drain_two<K: Keeper + Send, R: Threads + Wait + Sync>(
    rt: &R,
    alloc: Global,
    keeper: K,
) -> Result<String, Memory> {
    let (shared, mut pass) = begun(alloc, keeper)?;
    let _ = save(rt, alloc, &shared, &mut pass, 0, PAGE, 0);
    let _ = save(rt, alloc, &shared, &mut pass, 1, PAGE, 0);
    let mut workers = two_waiting(alloc, &shared, &mut pass)?;
    let drained = drain(&shared, rt, &mut workers).is_ok();
    let met = met(&workers);
    let wiki = shared.finish(rt, pass);
    let listed = listings(alloc, &wiki);
    let _keeper = wiki.release();
    Ok(format!(in alloc; "{drained} {met} {listed:?}")?)
}

//! A wiki in which two threads save, and a replica of it.
ghost use Rattle.std.specs.Prelude.{◌≡◌, [], IfOk, None};
ghost use Rattle.wk_replica_tests.specs.Ready.{IsReady};

use crate::given::{FIRST_PAGES, LAST, OTHER_PAGES, READS};
use crate::replicas::{let_go, take};
use crate::replies::replies;
use std::alloc::Global;
use std::sync::Wait;
use std::thread::{Threads, join};
use wk_base::{MemSink, Sink};
use wk_core::Limits;
use wk_feeder::{Feeder, feed_start};
use wk_memory::Memory;
use wk_readers::{NoGate, Reader, refresh_one};
use wk_replica::{Replica, TakeRefusal};
use wk_shared::{Edit, Keeper, Pass, Shared, Wiki};

/// The edit `TITLE=TEXT`, which gives a page a text, whatever stands there.
fn edit(alloc: Global, page: &str) -> Result<Edit, Memory> {
    let (title, text) = page.split_once('=').unwrap_or((page, ""));
    Ok(Edit {
        title: String::from_str(alloc, title)?,
        body: Some(String::from_str(alloc, text)?),
        base: None,
        create_only: false,
        no_create: false,
    })
}

/// Saves a page, where the edit isn't refused.
fn save<K: Keeper, R: Wait>(
    rt: &R,
    alloc: Global,
    shared: &Shared<K>,
    pass: &mut Pass<Wiki<K>>,
    page: &str,
)
    requires { IsReady shared.now pass.old }
    ensures { IsReady shared.now pass.new }
{
    if let Ok(edit) = edit(alloc, page) {
        let (_saved, _point) = shared.save(rt, pass, &edit, 7);
    }
}

/// Saves each page.
fn save_all<K: Keeper, R: Wait>(
    rt: &R,
    alloc: Global,
    shared: &Shared<K>,
    pass: &mut Pass<Wiki<K>>,
    pages: &str,
)
    requires { IsReady shared.now pass.old }
    ensures { IsReady shared.now pass.new }
{
    'pages: for page in pages.lines() {
        save(rt, alloc, shared, pass, page);
    }
}

/// Makes a step of a worker.
fn step<K: Keeper, R: Wait>(rt: &R, shared: &Shared<K>, reader: &mut Reader<K>)
    requires { IsReady shared.now reader.old.pass }
    ensures { IsReady shared.now reader.new.pass }
{
    let mut gate = NoGate;
    let _done = refresh_one(shared, rt, reader, &mut gate);
}

/// Makes more steps of a worker than there are jobs.
fn do_jobs<K: Keeper, R: Wait>(rt: &R, shared: &Shared<K>, reader: &mut Reader<K>)
    requires { IsReady shared.now reader.old.pass }
    ensures { IsReady shared.now reader.new.pass }
{
    'steps: for _ in 0..200 {
        step(rt, shared, reader);
    }
}

/// Saves each page, and does the jobs that stand. The pass comes back.
fn work<K: Keeper, R: Wait>(
    rt: &R,
    alloc: Global,
    shared: &Shared<K>,
    mut pass: Pass<Wiki<K>>,
    pages: &str,
) -> Pass<Wiki<K>>
    requires { IsReady shared.now pass }
    ensures { IsReady shared.now result }
{
    save_all(rt, alloc, shared, &mut pass, pages);
    match Reader::new(alloc, pass) {
        Ok(mut reader) => {
            do_jobs(rt, shared, &mut reader);
            reader.into_pass()
        }
        Err((pass, _)) => pass,
    }
}

/// Two threads do so. Their passes are joined.
fn work_both<K: Keeper + Send, R: Threads + Wait + Sync>(
    rt: &R,
    alloc: Global,
    shared: &Shared<K>,
    one: Pass<Wiki<K>>,
    two: Pass<Wiki<K>>,
) -> Pass<Wiki<K>>
    requires one { IsReady shared.now one }
    requires two { IsReady shared.now two }
    ensures { IsReady shared.now result }
{
    let (mut pass, other) = join(
        rt,
        || -> Pass<Wiki<K>>
            requires { IsReady shared.now one }
            ensures { IsReady shared.entry.now result }
        { work(rt, alloc, shared, one, FIRST_PAGES) },
        || -> Pass<Wiki<K>>
            requires { IsReady shared.now two }
            ensures { IsReady shared.entry.now result }
        { work(rt, alloc, shared, two, OTHER_PAGES) },
    );
    shared.join(&mut pass, other);
    pass
}

/// A feeder with its own pass sends what two threads have saved, and behind a further save the rest. The wiki.
fn send_both<K: Keeper + Send, R: Threads + Wait + Sync, O: Sink>(
    rt: &R,
    alloc: Global,
    shared: Shared<K>,
    one: Pass<Wiki<K>>,
    two: Pass<Wiki<K>>,
    own: Pass<Wiki<K>>,
    sink: &mut O,
) -> Wiki<K>
    requires one { IsReady shared one }
    requires two { IsReady shared two }
    requires own { IsReady shared own }
{
    let mut feeder = Feeder::new(alloc, own);
    let mut pass = work_both(rt, alloc, &shared, one, two);
    let _sent = feeder.send_new(rt, &shared, sink);
    save(rt, alloc, &shared, &mut pass, LAST);
    let (wiki, _sent) = feeder.finish(rt, shared, sink);
    wiki
}

/// The same with passes that are split of one.
fn send_split<K: Keeper + Send, R: Threads + Wait + Sync, O: Sink>(
    rt: &R,
    alloc: Global,
    shared: Shared<K>,
    mut pass: Pass<Wiki<K>>,
    sink: &mut O,
) -> Wiki<K>
    requires { IsReady shared pass }
{
    let Ok(two) = shared.split(&mut pass) else {
        return shared.finish(rt, pass);
    };
    match shared.split(&mut pass) {
        Ok(own) => send_both(rt, alloc, shared, pass, two, own, sink),
        Err(_) => shared.finish(rt, pass),
    }
}

/// A wiki over a keeper of a good store.
fn loaded<K: Keeper>(alloc: Global, keeper: K) -> Result<Wiki<K>, Memory>
    ensures new { IfOk result (λ wiki. wiki.journal ≡ []) }
    ensures unsealed { IfOk result (λ wiki. wiki.start.sealed ≡ None) }
{
    match Wiki::load(alloc, keeper, Limits::FULL) {
        Ok(wiki) => Ok(wiki),
        Err(_) => Err(Memory),
    }
}

/// A shared wiki over a keeper of a good store, whose start was sent, and a pass of it. Where the start isn't sent the feed is bad.
fn begun<K: Keeper, O: Sink>(
    alloc: Global,
    keeper: K,
    sink: &mut O,
) -> Result<(Shared<K>, Pass<Wiki<K>>), Memory>
    ensures { IfOk result (λ t. IsReady t.0 t.1) }
{
    let wiki = loaded(alloc, keeper)?;
    let _sent = feed_start(&wiki, sink);
    match Shared::new(wiki) {
        Ok(both) => Ok(both),
        Err((wiki, memory)) => {
            let _keeper = wiki.release();
            Err(memory)
        }
    }
}

/// Takes the lines of a text up to the first that is refused.
fn take_all(replica: &mut Replica, lines: &str) -> Result<(), TakeRefusal> {
    'lines: for line in lines.lines() {
        take(replica, line.as_bytes())?;
    }
    Ok(())
}

/// Whether all replies show something, and none is an error.
fn are_full(replies: &str) -> bool {
    !replies.contains(":[]") && !replies.contains("\"error\"")
}

/// What comes of the feed of a wiki in a replica; whether it is as far as the wiki, and the replies show something. Where the two
/// reply otherwise, their replies.
fn compared<K: Keeper>(
    alloc: Global,
    wiki: &Wiki<K>,
    replica: &mut Replica,
    feed: &[u8],
) -> Result<String, Memory> {
    let taken = take_all(replica, str::from_utf8(feed).unwrap_or("no text"));
    let far = wiki.point() == replica.taken();
    let ours = replies(alloc, wiki, READS)?;
    let theirs = replies(alloc, &*replica, READS)?;
    if ours.as_str() != theirs.as_str() {
        return Ok(format!(in alloc; "{ours}{theirs}")?);
    }
    let full = are_full(&ours);
    Ok(format!(in alloc; "{taken:?} {far} {full}")?)
}

/// The same with a new replica.
fn compared_new<K: Keeper>(alloc: Global, wiki: &Wiki<K>, feed: &[u8]) -> Result<String, Memory> {
    let mut replica = Replica::new(alloc)?;
    let told = compared(alloc, wiki, &mut replica, feed);
    let_go(replica);
    told
}

/// What is told of a replica of a wiki over a keeper of a good store, in which two threads have saved.
pub fn compare<K: Keeper + Send, R: Threads + Wait + Sync>(
    rt: &R,
    alloc: Global,
    keeper: K,
) -> Result<String, Memory> {
    let mut sink = MemSink::new(alloc, 65_536, Vec::new(alloc))?;
    let (shared, pass) = begun(alloc, keeper, &mut sink)?;
    let wiki = send_split(rt, alloc, shared, pass, &mut sink);
    let told = compared_new(alloc, &wiki, sink.bytes());
    let _keeper = wiki.release();
    told
}

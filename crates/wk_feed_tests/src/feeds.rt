//! The feed of a wiki, and what comes of it.
ghost use Rattle.std.specs.Prelude.{◌≡◌, IfOk, None};
ghost use Rattle.wk_feed_tests.specs.Ready.{IsReady};

use crate::calls::{MOMENT, edit, make_all, restarted};
use crate::given::{Calls, EACH, EACH_KIND};
use std::alloc::Global;
use std::sync::Wait;
use wk_base::{MemSink, Sink};
use wk_feeder::{FeedRefusal, Feeder, feed_start};
use wk_memory::Memory;
use wk_shared::{Keeper, Pass, Shared, Wiki};

/// Saves a page, where the edit isn't refused. The point.
pub fn save<K: Keeper, R: Wait>(
    rt: &R,
    alloc: Global,
    shared: &Shared<K>,
    pass: &mut Pass<Wiki<K>>,
    page: &str,
) -> u64
    requires { IsReady shared.now pass.old }
    ensures { IsReady shared.now pass.new }
{
    let Ok(edit) = edit(alloc, page) else {
        return 0;
    };
    let (_saved, point) = shared.save(rt, pass, &edit, MOMENT);
    point
}

/// A wiki that isn't sealed, shared, and a pass of it.
pub fn share<K: Keeper>(wiki: Wiki<K>) -> Result<(Shared<K>, Pass<Wiki<K>>), Memory>
    requires { wiki.start.sealed ≡ None }
    ensures { IfOk result (λ t. IsReady t.0 t.1) }
{
    match Shared::new(wiki) {
        Ok(both) => Ok(both),
        Err((wiki, memory)) => {
            let _keeper = wiki.release();
            Err(memory)
        }
    }
}

/// Sends the events of a wiki by one pass, behind a save by another one again, and behind its end the rest. The wiki comes back, with
/// how many events were sent. Behind a refusal nothing is sent.
fn send_by<K: Keeper, R: Wait, O: Sink>(
    rt: &R,
    alloc: Global,
    shared: Shared<K>,
    mut pass: Pass<Wiki<K>>,
    own: Pass<Wiki<K>>,
    page: &str,
    sink: &mut O,
) -> (Wiki<K>, Result<u64, FeedRefusal>)
    requires pass { IsReady shared pass }
    requires own { IsReady shared own }
{
    let mut feeder = Feeder::new(alloc, own);
    if let Err(refusal) = feeder.send_new(rt, &shared, sink) {
        return (feeder.give_up(rt, shared), Err(refusal));
    }
    save(rt, alloc, &shared, &mut pass, page);
    feeder.finish(rt, shared, sink)
}

/// Sends the events of a wiki and of the save of a page. How many they are. None are sent of one that is sealed.
fn send<K: Keeper, R: Wait, O: Sink>(
    rt: &R,
    alloc: Global,
    wiki: Wiki<K>,
    page: &str,
    sink: &mut O,
) -> Result<u64, FeedRefusal> {
    if wiki.is_sealed() {
        let _keeper = wiki.release();
        return Err(FeedRefusal::Memory);
    }
    let Ok((shared, mut pass)) = share(wiki) else {
        return Err(FeedRefusal::Memory);
    };
    let Ok(own) = shared.split(&mut pass) else {
        let _keeper = shared.finish(rt, pass).release();
        return Err(FeedRefusal::Memory);
    };
    let (wiki, sent) = send_by(rt, alloc, shared, pass, own, page, sink);
    let _keeper = wiki.release();
    sent
}

/// Sends the feed of a wiki over a keeper of a good store, in which these calls are made. How many events they make. A feed whose
/// start is refused isn't sent on.
fn feed<K: Keeper, R: Wait, O: Sink>(
    rt: &R,
    alloc: Global,
    keeper: K,
    calls: Calls,
    sink: &mut O,
) -> Result<u64, FeedRefusal> {
    let Ok(mut wiki) = restarted(alloc, keeper, calls.before) else {
        return Err(FeedRefusal::Memory);
    };
    match feed_start(&wiki, sink) {
        Ok(()) => {
            make_all(alloc, &mut wiki, calls.behind);
            send(rt, alloc, wiki, calls.last, sink)
        }
        Err(refusal) => {
            let _keeper = wiki.release();
            Err(refusal)
        }
    }
}

/// What comes of that feed where the write with this number fails, and what is taken.
pub fn told_of_fault<K: Keeper, R: Wait>(
    rt: &R,
    alloc: Global,
    keeper: K,
    calls: Calls,
    number: u64,
) -> Result<String, Memory> {
    let mut sink = MemSink::new(alloc, 65_536, [number].to_vec(alloc)?)?;
    let sent = feed(rt, alloc, keeper, calls, &mut sink);
    let taken = str::from_utf8(sink.bytes()).unwrap_or("no text");
    Ok(format!(in alloc; "{sent:?}\n{taken}")?)
}

/// Whether the feed with lines of each kind is refused by a sink with room for so many bytes, which has its beginning then.
fn is_refused_at<K: Keeper, R: Wait>(
    rt: &R,
    alloc: Global,
    keeper: K,
    room: usize,
) -> Result<bool, Memory> {
    let mut sink = MemSink::new(alloc, room, Vec::new(alloc))?;
    let sent = feed(rt, alloc, keeper, EACH, &mut sink);
    let taken = sink.bytes();
    Ok(match sent {
        Err(FeedRefusal::WriteFault) => {
            taken.len() == room && EACH_KIND.as_bytes().starts_with(taken)
        }
        _ => false,
    })
}

/// The same as a text.
pub fn told_of_room<K: Keeper, R: Wait>(
    rt: &R,
    alloc: Global,
    keeper: K,
    room: usize,
) -> Result<String, Memory> {
    let refused = is_refused_at(rt, alloc, keeper, room)?;
    Ok(format!(in alloc; "{refused}")?)
}

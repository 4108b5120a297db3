//! Steps and reads whose drafts are made while another thread saves.
ghost use Rattle.wk_thread_tests.specs.Ready.{IsReady};

use crate::gates::{Waiting, reached};
use crate::pages::{begun, ended, page_title, save};
use std::alloc::Global;
use std::sync::atomic::{AtomicU64, Ordering};
use std::sync::{Arc, Wait};
use std::thread::{Threads, join};
use wk_memory::Memory;
use wk_readers::{Reader, Refreshed, read_page, refresh_one};
use wk_shared::{Keeper, Pass, Shared, Wiki};
use wk_title::Title;

/// What a race is: the text of the first page; at which pass of the gate another thread saves, and how often; the page that it
/// saves, and the revision of it that it has seen; whether the first page is read, or else refreshed.
#[derive(Clone, Copy)]
pub struct Race {
    pub text: &'static str,
    pub at: u64,
    pub times: u64,
    pub page: u64,
    pub base: u64,
    pub reads: bool,
}

/// What a step or a read tells, and how often its gate met the other thread.
type Told = (Option<(u64, u64)>, u64);

/// The mark that was read and the present one, where a job was given back.
fn marks(answer: &Refreshed) -> Option<(u64, u64)> {
    match answer {
        Refreshed::Back {
            title: _,
            kind: _,
            read,
            now,
        } => Some((*read, *now)),
        _ => None,
    }
}

/// The point of a read of a page, and how many bytes it expands to.
fn read<K: Keeper, R: Wait>(
    rt: &R,
    shared: &Shared<K>,
    reader: &mut Reader<K>,
    title: &Title,
    gate: &mut Waiting,
) -> Option<(u64, u64)>
    requires { IsReady shared.now reader.old.pass }
    ensures { IsReady shared.now reader.new.pass }
{
    match read_page(shared, rt, reader, title, 0, gate) {
        Ok(read) => Some((read.point, read.draft.draft().out().text().len() as u64)),
        Err(_) => None,
    }
}

/// Reads the page, where there is one to be read, or else makes a step. The reader's pass comes back.
fn step<K: Keeper, R: Wait>(
    rt: &R,
    shared: &Shared<K>,
    mut reader: Reader<K>,
    mut gate: Waiting,
    title: Option<&Title>,
) -> (Pass<Wiki<K>>, Told)
    requires { IsReady shared.now reader.pass }
    ensures { IsReady shared.now result.0 }
{
    let told = match title {
        Some(title) => read(rt, shared, &mut reader, title, &mut gate),
        None => marks(&refresh_one(shared, rt, &mut reader, &mut gate)),
    };
    (reader.into_pass(), (told, gate.met))
}

/// Waits until a count is odd, saves the page, and raises the count. The point.
fn save_next<K: Keeper, R: Wait>(
    rt: &R,
    alloc: Global,
    shared: &Shared<K>,
    pass: &mut Pass<Wiki<K>>,
    page: u64,
    base: u64,
    turn: u64,
    count: &AtomicU64,
) -> u64
    requires { IsReady shared.now pass.old }
    ensures { IsReady shared.now pass.new }
{
    if !reached(count, turn.saturating_mul(2).saturating_add(1)) {
        return 0;
    }
    let text = if turn % 2 == 0 {
        "{{:P1}}"
    } else {
        "{{:P1}}{{:P1}}"
    };
    let saved = save(rt, alloc, shared, pass, page, text, base);
    count.fetch_add(1, Ordering::SeqCst);
    saved.unwrap_or(0)
}

/// Saves as often as the race says, each time when the other thread waits for it. The point of the last save. The pass comes
/// back. Where only saves were made a revision has the number of its point.
fn save_behind<K: Keeper, R: Wait>(
    rt: &R,
    alloc: Global,
    shared: &Shared<K>,
    mut pass: Pass<Wiki<K>>,
    race: Race,
    count: &AtomicU64,
) -> (Pass<Wiki<K>>, u64)
    requires { IsReady shared.now pass }
    ensures { IsReady shared.now result.0 }
{
    let mut last = race.base;
    'saves: for turn in 0..race.times {
        last = save_next(rt, alloc, shared, &mut pass, race.page, last, turn, count);
    }
    (pass, last)
}

/// What both threads tell.
type Both = (Told, u64);

/// One thread makes a step or reads, with a gate that waits, and another one saves. What both tell. Their passes are joined.
fn race_both<K: Keeper + Send, R: Threads + Wait + Sync>(
    rt: &R,
    alloc: Global,
    shared: &Shared<K>,
    saver: Pass<Wiki<K>>,
    reader: Reader<K>,
    gate: Waiting,
    race: Race,
    title: Option<&Title>,
    count: &AtomicU64,
) -> (Pass<Wiki<K>>, Both)
    requires saver { IsReady shared.now saver }
    requires reader { IsReady shared.now reader.pass }
    ensures { IsReady shared.now result.0 }
{
    let ((mut pass, saved), (other, told)) = join(
        rt,
        || -> (Pass<Wiki<K>>, u64)
            requires { IsReady shared.now saver }
            ensures { IsReady shared.entry.now result.0 }
        { save_behind(rt, alloc, shared, saver, race, count) },
        || -> (Pass<Wiki<K>>, Told)
            requires { IsReady shared.now reader.pass }
            ensures { IsReady shared.entry.now result.0 }
        { step(rt, shared, reader, gate, title) },
    );
    shared.join(&mut pass, other);
    (pass, (told, saved))
}

/// A race over these passes. None where no reader can be made.
fn race_with<K: Keeper + Send, R: Threads + Wait + Sync>(
    rt: &R,
    alloc: Global,
    shared: &Shared<K>,
    saver: Pass<Wiki<K>>,
    own: Pass<Wiki<K>>,
    gate: Waiting,
    race: Race,
    title: Option<&Title>,
    count: &AtomicU64,
) -> (Pass<Wiki<K>>, Option<Both>)
    requires saver { IsReady shared.now saver }
    requires own { IsReady shared.now own }
    ensures { IsReady shared.now result.0 }
{
    match Reader::new(alloc, own) {
        Ok(reader) => {
            let (pass, told) = race_both(
                rt, alloc, shared, saver, reader, gate, race, title, count,
            );
            (pass, Some(told))
        }
        Err((own, _)) => {
            let mut pass = saver;
            shared.join(&mut pass, own);
            (pass, None)
        }
    }
}

/// The race on a wiki over this keeper, with this title of the first page.
fn run_titled<K: Keeper + Send, R: Threads + Wait + Sync>(
    rt: &R,
    alloc: Global,
    keeper: K,
    race: Race,
    title: &Title,
) -> Result<Option<Both>, Memory> {
    let count = Arc::new(alloc, AtomicU64::new(0))?;
    let gate = Waiting::new(count.clone()?, race.at, race.times);
    let read = if race.reads { Some(title) } else { None };
    let (shared, mut pass) = begun(alloc, keeper)?;
    let _ = save(rt, alloc, &shared, &mut pass, 0, race.text, 0);
    let (pass, told) = match shared.split(&mut pass) {
        Ok(own) => race_with(rt, alloc, &shared, pass, own, gate, race, read, &count),
        Err(_) => (pass, None),
    };
    let _ended = ended(rt, shared, pass);
    Ok(told)
}

/// What comes of a race on a wiki over this keeper: of a step the marks that it found, of a read its point and how many bytes
/// the page expands to; how often the gate met the other thread; and the point of the last save.
pub fn run<K: Keeper + Send, R: Threads + Wait + Sync>(
    rt: &R,
    alloc: Global,
    keeper: K,
    race: Race,
) -> Result<String, Memory> {
    let title = page_title(alloc, 0)?;
    let told = run_titled(rt, alloc, keeper, race, &title)?;
    Ok(format!(in alloc; "{told:?}")?)
}

/// Two threads save a page each, on two passes, which are joined.
fn save_both<K: Keeper + Send, R: Threads + Wait + Sync>(
    rt: &R,
    alloc: Global,
    shared: &Shared<K>,
    one: Pass<Wiki<K>>,
    two: Pass<Wiki<K>>,
    count: &AtomicU64,
) -> (Pass<Wiki<K>>, u64)
    requires one { IsReady shared.now one }
    requires two { IsReady shared.now two }
    ensures { IsReady shared.now result.0 }
{
    let (first, second) = (saves(0), saves(1));
    let ((mut pass, a), (other, b)) = join(
        rt,
        || -> (Pass<Wiki<K>>, u64)
            requires { IsReady shared.now one }
            ensures { IsReady shared.entry.now result.0 }
        { save_behind(rt, alloc, shared, one, first, count) },
        || -> (Pass<Wiki<K>>, u64)
            requires { IsReady shared.now two }
            ensures { IsReady shared.entry.now result.0 }
        { save_behind(rt, alloc, shared, two, second, count) },
    );
    shared.join(&mut pass, other);
    (pass, a.saturating_add(b))
}

/// One save of a page that is missing.
fn saves(page: u64) -> Race {
    Race {
        text: "",
        at: 1,
        times: 1,
        page,
        base: 0,
        reads: false,
    }
}

/// Two threads save a page each at once. The sum of their points, and what the wiki has then.
pub fn save_at_once<K: Keeper + Send, R: Threads + Wait + Sync>(
    rt: &R,
    alloc: Global,
    keeper: K,
) -> Result<String, Memory> {
    let count = AtomicU64::new(1);
    let (shared, mut pass) = begun(alloc, keeper)?;
    let (pass, points) = match shared.split(&mut pass) {
        Ok(other) => save_both(rt, alloc, &shared, pass, other, &count),
        Err(_) => (pass, 0),
    };
    let ended = ended(rt, shared, pass);
    Ok(format!(in alloc; "{points} {ended:?}")?)
}

//! Reads of one page, with a gate that counts how often a draft waits for an answer.
ghost use Rattle.wk_thread_tests.specs.Ready.{IsReady};

use crate::calls::put_back;
use crate::gates::Counting;
use crate::pages::{begun, ended, page_title, save};
use std::alloc::Global;
use std::sync::Wait;
use wk_memory::Memory;
use wk_readers::{Reader, read_page};
use wk_shared::{Keeper, Pass, Shared, Wiki};
use wk_title::Title;

/// Reads a page. The point of the answer, where the page expands to `x`; else 0.
fn read<K: Keeper, R: Wait>(
    rt: &R,
    shared: &Shared<K>,
    reader: &mut Reader<K>,
    title: &Title,
    gate: &mut Counting,
) -> u64
    requires { IsReady shared.now reader.old.pass }
    ensures { IsReady shared.now reader.new.pass }
{
    match read_page(shared, rt, reader, title, 0, gate) {
        Ok(read) => {
            if read.draft.draft().out().text() == "x" {
                read.point
            } else {
                0
            }
        }
        Err(_) => 0,
    }
}

/// Reads a page sixteen times. How many of the answers are of this point.
fn read_again<K: Keeper, R: Wait>(
    rt: &R,
    shared: &Shared<K>,
    reader: &mut Reader<K>,
    title: &Title,
    gate: &mut Counting,
    point: u64,
) -> u64
    requires { IsReady shared.now reader.old.pass }
    ensures { IsReady shared.now reader.new.pass }
{
    let mut answers: u64 = 0;
    'reads: for _ in 0..16 {
        if read(rt, shared, reader, title, gate) == point {
            answers = answers.saturating_add(1);
        }
    }
    answers
}

/// Another pass holds the turn while the reader reads a page sixteen times. How many of the answers are of this point.
fn read_while_held<K: Keeper, R: Wait>(
    rt: &R,
    shared: &Shared<K>,
    reader: &mut Reader<K>,
    title: &Title,
    gate: &mut Counting,
    point: u64,
    other: &mut Pass<Wiki<K>>,
) -> u64
    requires reader { IsReady shared.now reader.old.pass }
    requires other { IsReady shared.now other.old }
    ensures reader { IsReady shared.now reader.new.pass }
    ensures other { IsReady shared.now other.new }
{
    let held = shared.enter(rt, other);
    let answers = read_again(rt, shared, reader, title, gate, point);
    put_back(shared, other, held);
    answers
}

/// Reads a page that includes another one, sixteen times more while another pass holds the turn, and once more behind the save
/// of a third page; and then another reader reads it. The points of the answers, each but the sixteen with how often the gate
/// was passed so far: once, since what was drafted is kept by the reader and by the wiki.
fn read_all<K: Keeper, R: Wait>(
    rt: &R,
    alloc: Global,
    shared: &Shared<K>,
    reader: &mut Reader<K>,
    second: &mut Reader<K>,
    other: &mut Pass<Wiki<K>>,
) -> Result<String, Memory>
    requires reader { IsReady shared.now reader.old.pass }
    requires second { IsReady shared.now second.old.pass }
    requires other { IsReady shared.now other.old }
    ensures reader { IsReady shared.now reader.new.pass }
    ensures second { IsReady shared.now second.new.pass }
    ensures other { IsReady shared.now other.new }
{
    let title = page_title(alloc, 0)?;
    let mut gate = Counting { passed: 0 };
    let point = read(rt, shared, reader, &title, &mut gate);
    let first = (point, gate.passed);
    let again = read_while_held(rt, shared, reader, &title, &mut gate, point, other);
    let saved = save(rt, alloc, shared, other, 2, "y", 0);
    let last = (read(rt, shared, reader, &title, &mut gate), gate.passed);
    let theirs = (read(rt, shared, second, &title, &mut gate), gate.passed);
    Ok(format!(in alloc; "{first:?} {again} {saved:?} {last:?} {theirs:?}")?)
}

/// What two readers read; the second has this pass, which is joined to the first one's.
fn read_by_two<K: Keeper, R: Wait>(
    rt: &R,
    alloc: Global,
    shared: &Shared<K>,
    reader: &mut Reader<K>,
    pass: Pass<Wiki<K>>,
    other: &mut Pass<Wiki<K>>,
) -> Result<String, Memory>
    requires reader { IsReady shared.now reader.old.pass }
    requires pass { IsReady shared.now pass }
    requires other { IsReady shared.now other.old }
    ensures reader { IsReady shared.now reader.new.pass }
    ensures other { IsReady shared.now other.new }
{
    match Reader::new(alloc, pass) {
        Ok(mut second) => {
            let told = read_all(rt, alloc, shared, reader, &mut second, other);
            shared.join(other, second.into_pass());
            told
        }
        Err((pass, memory)) => {
            shared.join(other, pass);
            Err(memory)
        }
    }
}

/// What two readers read, over passes of their own.
fn read_by_three<K: Keeper, R: Wait>(
    rt: &R,
    alloc: Global,
    shared: &Shared<K>,
    pass: &mut Pass<Wiki<K>>,
    second: Pass<Wiki<K>>,
    third: Pass<Wiki<K>>,
) -> Result<String, Memory>
    requires pass { IsReady shared.now pass.old }
    requires second { IsReady shared.now second }
    requires third { IsReady shared.now third }
    ensures { IsReady shared.now pass.new }
{
    match Reader::new(alloc, second) {
        Ok(mut reader) => {
            let told = read_by_two(rt, alloc, shared, &mut reader, third, pass);
            shared.join(pass, reader.into_pass());
            told
        }
        Err((second, memory)) => {
            shared.join(pass, second);
            shared.join(pass, third);
            Err(memory)
        }
    }
}

/// Splits a pass for two readers, who read.
fn read_split<K: Keeper, R: Wait>(
    rt: &R,
    alloc: Global,
    shared: &Shared<K>,
    pass: &mut Pass<Wiki<K>>,
) -> Result<String, Memory>
    requires { IsReady shared.now pass.old }
    ensures { IsReady shared.now pass.new }
{
    let second = shared.split(pass)?;
    match shared.split(pass) {
        Ok(third) => read_by_three(rt, alloc, shared, pass, second, third),
        Err(memory) => {
            shared.join(pass, second);
            Err(memory)
        }
    }
}

/// The reads of a wiki over this keeper.
pub fn read_pages<K: Keeper, R: Wait>(rt: &R, alloc: Global, keeper: K) -> Result<String, Memory> {
    let (shared, mut pass) = begun(alloc, keeper)?;
    let _ = save(rt, alloc, &shared, &mut pass, 0, "{{:P1}}", 0);
    let _ = save(rt, alloc, &shared, &mut pass, 1, "x", 0);
    let told = read_split(rt, alloc, &shared, &mut pass);
    let _ended = ended(rt, shared, pass);
    told
}

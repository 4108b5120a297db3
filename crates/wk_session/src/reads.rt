//! What is answered by a read of its own.
ghost use Rattle.std.specs.Prelude.{◌≡◌, ◌≤◌, [], IfErr, IfOk, IfSome, IsTrue, length};
ghost use Rattle.wk_wiki_laws.specs.Kept.{IsKept};
ghost use Rattle.wk_request.specs.Asked.{ask_of, read_of, request_asked};
ghost use Rattle.wk_request_rules.specs.Requests.{valid};
ghost use Rattle.wk_shared.specs.Calls.{IsFree, MayFail};
ghost use Rattle.wk_readers.specs.Looks.{HasRead};
ghost use Rattle.wk_readers.specs.Reads.{IsAnswered, IsLate};
ghost use Rattle.wk_session.specs.Telling.{AnswersOn, IsTitleOf, text_asked};

use crate::acts::{answer_now, starve};
use crate::desk::look;
use crate::telling::{Told, no_memory};
use std::alloc::Global;
use std::sync::Wait;
use wk_answer::{read_reply, real_title};
use wk_base::Gate;
use wk_bytes::Text;
use wk_core::{Keeper, PageRead, ReadRefusal};
use wk_expand::Trees;
use wk_good_rows::MAX_TEXT;
use wk_memory::Memory;
use wk_readers::{Worker, read_page, read_text};
use wk_request::{ReadAsked, Request};
use wk_shared::Shared;
use wk_title::{Title, named};

/// The title whose page is read for what is asked, if one is: none where it names no such title, or the text is too long.
fn title_to_read(alloc: Global, asked: &ReadAsked<'_>) -> Result<Option<Title>, Memory>
    ensures { IfOk result (λ title. IfSome title (λ t. IsTitleOf (read_of asked.now) t)) }
{
    match asked {
        ReadAsked::Page { page } => real_title(alloc, page),
        ReadAsked::Text { text, title } => {
            if MAX_TEXT < text.len() {
                return Ok(None);
            }
            named(alloc, title, 0)
        }
    }
}

/// Reads what is asked about, at a point that is no older than the least one. It waits.
fn read_asked<K: Keeper, R: Wait, G: Gate>(
    shared: &Shared<K>,
    rt: &R,
    alloc: Global,
    worker: &mut Worker<K, G>,
    asked: &ReadAsked<'_>,
    title: &Title,
    least: u64,
) -> Result<PageRead, ReadRefusal>
    requires free { IsFree shared.now worker.old.reader.pass }
    requires title { IsTitleOf (read_of asked.now) title.now }
    ensures pass { HasRead shared.now worker.old.reader.pass worker.new.reader.pass }
    ensures read { IfOk result (IsAnswered shared.now worker.old.reader.pass worker.new.reader.pass title.now (text_asked (read_of asked.now)) least) }
    ensures late { IfErr result (IsLate least worker.new.reader.pass) }
{
    match asked {
        ReadAsked::Page { .. } => read_page(
            shared,
            rt,
            &mut worker.reader,
            title,
            least,
            &mut worker.gate,
        ),
        ReadAsked::Text { text, .. } => match Text::new(alloc, text) {
            Ok(text) => {
                read_text(
                    shared,
                    rt,
                    &mut worker.reader,
                    title,
                    &text,
                    least,
                    &mut worker.gate,
                )
            }
            Err(Memory) => Err(ReadRefusal::Memory),
        },
    }
}

/// Answers by a read of the page, or of the text in its place, at a point that the least one doesn't pass. It waits.
fn answer_by_read<K: Keeper, R: Wait, G: Gate>(
    shared: &Shared<K>,
    rt: &R,
    alloc: Global,
    worker: &mut Worker<K, G>,
    request: &Request,
    asked: &ReadAsked<'_>,
    title: &Title,
) -> Told
    requires free { IsFree shared.now worker.old.reader.pass }
    requires kept { IsKept shared.now.start.state }
    requires asks { read_of asked.now ≡ ask_of request.now.ask }
    requires title { IsTitleOf (read_of asked.now) title.now }
    requires reached { request.now.least ≤ length worker.old.reader.pass.seen }
    ensures { AnswersOn shared.now (MayFail shared.now.start) worker.old.reader.pass worker.new.reader.pass
        (valid (request_asked request.now)) [] result }
{
    match read_asked(shared, rt, alloc, worker, asked, title, request.least) {
        Ok(read) => {
            let point = read.point;
            match read_reply(alloc, request, &Ok(read)) {
                Ok(value) => Told {
                    value: Ok(value),
                    point,
                },
                Err(_) => no_memory(alloc, point),
            }
        }
        Err(ReadRefusal::Memory) => starve(shared, rt, &mut worker.reader),
        Err(ReadRefusal::Future(_)) => unreachable!("the pass has seen the least point"),
    }
}

/// Looks once where the pass hasn't seen the least point yet. Whether it has seen it then. It waits. No memory.
fn reach<K: Keeper, R: Wait, G: Gate>(
    shared: &Shared<K>,
    rt: &R,
    worker: &mut Worker<K, G>,
    least: u64,
) -> bool
    requires { IsFree shared.now worker.old.reader.pass }
    ensures pass { HasRead shared.now worker.old.reader.pass worker.new.reader.pass }
    ensures reached { IsTrue result → least ≤ length worker.new.reader.pass.seen }
{
    if worker.reader.point() < least {
        look(shared, rt, &mut worker.reader);
    }
    least <= worker.reader.point()
}

/// Answers what a page or a text expands to. It is read without the turn; under one turn it is answered where nothing is to be
/// read, or the least point isn't reached. It waits.
pub fn expand_now<K: Keeper, R: Wait, G: Gate>(
    shared: &Shared<K>,
    rt: &R,
    alloc: Global,
    worker: &mut Worker<K, G>,
    request: &Request,
    asked: &ReadAsked<'_>,
    trees: &mut Trees,
) -> Told
    requires free { IsFree shared.now worker.old.reader.pass }
    requires kept { IsKept shared.now.start.state }
    requires asks { read_of asked.now ≡ ask_of request.now.ask }
    ensures { AnswersOn shared.now (MayFail shared.now.start) worker.old.reader.pass worker.new.reader.pass
        (valid (request_asked request.now)) [] result }
{
    let title = match title_to_read(alloc, asked) {
        Ok(Some(title)) => title,
        Ok(None) => return answer_now(shared, rt, &mut worker.reader, request, trees),
        Err(_) => return starve(shared, rt, &mut worker.reader),
    };
    if !reach(shared, rt, worker, request.least) {
        return answer_now(shared, rt, &mut worker.reader, request, trees);
    }
    answer_by_read(shared, rt, alloc, worker, request, asked, &title)
}

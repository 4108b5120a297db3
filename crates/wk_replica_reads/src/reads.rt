//! What is answered by a read of its own.
ghost use Rattle.std.specs.Prelude.{◌≡◌, ◌≤◌, IfOk, IfSome, IsTrue, length, None};
ghost use Rattle.wk_request.specs.Asked.{ask_of, read_of, request_asked};
ghost use Rattle.wk_request_rules.specs.Requests.{valid};
ghost use Rattle.wk_session.specs.Telling.{IsTitleOf, text_asked};
ghost use Rattle.wk_replica_reads.specs.Looks.{HasRead, IsFree, IsReadNow};
ghost use Rattle.wk_replica_reads.specs.Telling.{AnswersOn};

use crate::answers::{answer_now, starve};
use crate::desk::look;
use crate::drafting::{drafted, seek};
use crate::telling::{Told, no_memory};
use std::alloc::Global;
use std::sync::Wait;
use wk_answer::{read_reply, real_title};
use wk_base::Gate;
use wk_bytes::Text;
use wk_core::PageRead;
use wk_expand::{Root, Trees};
use wk_good_rows::MAX_TEXT;
use wk_memory::Memory;
use wk_replica::Replica;
use wk_request::{ReadAsked, Request};
use wk_title::{Title, named};
use wk_turn::{Pass, Turn};

/// The title whose page is read for what is asked, if one is: none where it names no such title, or the text is too long.
fn title_to_read(alloc: Global, asked: &ReadAsked<'_>) -> Result<Option<Title>, Memory>
    ensures { IfOk result (λ title. IfSome title (λ t. IsTitleOf (read_of asked.now) t)) }
{
    match asked {
        ReadAsked::Page { page } => real_title(alloc, page),
        ReadAsked::Text { text, title } => {
            if MAX_TEXT < text.len() {
                return Ok(None);
            }
            named(alloc, title, 0)
        }
    }
}

/// Reads a page: what the replica keeps of it, where that is current, or what it expands to. It waits.
fn read_page<R: Wait, G: Gate>(
    rt: &R,
    shared: &Turn<Replica>,
    alloc: Global,
    pass: &mut Pass<Replica>,
    title: &Title,
    trees: &mut Trees,
    gate: &mut G,
) -> Result<PageRead, Memory>
    requires { IsFree shared.now pass.old }
    ensures pass { HasRead shared.now pass.old pass.new }
    ensures read { IfOk result (IsReadNow shared.now.start.wiki pass.new.seen title.now None) }
{
    match seek(rt, shared, pass, title) {
        Some(read) => Ok(read),
        None => drafted(rt, shared, alloc, pass, trees, title, &Root::Page, gate),
    }
}

/// Reads what is asked about. It waits.
fn read_asked<R: Wait, G: Gate>(
    rt: &R,
    shared: &Turn<Replica>,
    alloc: Global,
    pass: &mut Pass<Replica>,
    asked: &ReadAsked<'_>,
    title: &Title,
    trees: &mut Trees,
    gate: &mut G,
) -> Result<PageRead, Memory>
    requires free { IsFree shared.now pass.old }
    requires title { IsTitleOf (read_of asked.now) title.now }
    ensures pass { HasRead shared.now pass.old pass.new }
    ensures read { IfOk result (IsReadNow shared.now.start.wiki pass.new.seen title.now (text_asked (read_of asked.now))) }
{
    match asked {
        ReadAsked::Page { .. } => read_page(rt, shared, alloc, pass, title, trees, gate),
        ReadAsked::Text { text, .. } => match Text::new(alloc, text) {
            Ok(text) => {
                let root = Root::Given(text);
                drafted(rt, shared, alloc, pass, trees, title, &root, gate)
            }
            Err(memory) => Err(memory),
        },
    }
}

/// Answers by a read of the page, or of the text in its place. The pass has seen the least point. It waits.
fn answer_by_read<R: Wait, G: Gate>(
    rt: &R,
    shared: &Turn<Replica>,
    alloc: Global,
    pass: &mut Pass<Replica>,
    request: &Request,
    asked: &ReadAsked<'_>,
    title: &Title,
    trees: &mut Trees,
    gate: &mut G,
) -> Told
    requires free { IsFree shared.now pass.old }
    requires asks { read_of asked.now ≡ ask_of request.now.ask }
    requires title { IsTitleOf (read_of asked.now) title.now }
    requires reached { request.now.least ≤ length pass.old.seen }
    ensures { AnswersOn shared.now pass.old pass.new (valid (request_asked request.now)) result }
{
    match read_asked(rt, shared, alloc, pass, asked, title, trees, gate) {
        Ok(read) => {
            let point = read.point;
            match read_reply(alloc, request, &Ok(read)) {
                Ok(value) => Told {
                    value: Ok(value),
                    point,
                },
                Err(_) => no_memory(alloc, point),
            }
        }
        Err(_) => starve(rt, shared, pass),
    }
}

/// Looks once where the pass hasn't seen the least point yet. Whether it has seen it then. It waits. No memory.
fn reach<R: Wait>(rt: &R, shared: &Turn<Replica>, pass: &mut Pass<Replica>, least: u64) -> bool
    requires { IsFree shared.now pass.old }
    ensures pass { HasRead shared.now pass.old pass.new }
    ensures reached { IsTrue result → least ≤ length pass.new.seen }
{
    if pass.point() < least {
        look(rt, shared, pass);
    }
    least <= pass.point()
}

/// Answers what a page or a text expands to. It is read without the turn; under one turn it is answered where nothing is to be
/// read, or the least point isn't reached. It waits.
pub fn expand_now<R: Wait, G: Gate>(
    rt: &R,
    shared: &Turn<Replica>,
    alloc: Global,
    pass: &mut Pass<Replica>,
    request: &Request,
    asked: &ReadAsked<'_>,
    trees: &mut Trees,
    gate: &mut G,
) -> Told
    requires free { IsFree shared.now pass.old }
    requires asks { read_of asked.now ≡ ask_of request.now.ask }
    ensures { AnswersOn shared.now pass.old pass.new (valid (request_asked request.now)) result }
{
    let title = match title_to_read(alloc, asked) {
        Ok(Some(title)) => title,
        Ok(None) => return answer_now(rt, shared, pass, request, trees),
        Err(_) => return starve(rt, shared, pass),
    };
    if !reach(rt, shared, pass, request.least) {
        return answer_now(rt, shared, pass, request, trees);
    }
    answer_by_read(rt, shared, alloc, pass, request, asked, &title, trees, gate)
}

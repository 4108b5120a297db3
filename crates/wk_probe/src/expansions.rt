//! What a page, or a text in the place of its own, expands to.
ghost use Rattle.std.specs.Prelude.{◌≡◌, IfOk, None};
ghost use Rattle.wk_expand.specs.Steps.{IsStep, given_text};
ghost use Rattle.wk_probe.specs.Drafted.{AreRuns, IsOf};

use crate::links::links_in;
use crate::members::{add, shared_text, string_of};
use crate::pages::{Pages, pages_of};
use crate::refusal::Refusal;
use crate::rows::rows_value;
use crate::seen::{keep, kind_word, seen_of};
use crate::titles::{shown_text, title_of};
use crate::values::{Plain, list, members_of, object, object_with, put, value_of};
use serde_json::{Map, Value};
use std::alloc::Global;
use wk_base::NoGate;
use wk_drafts::{Ended, drafted_by};
use wk_expand::{Counts, Draft, Machine, Read, Root, Seen, Step, Trees, draft};
use wk_memory::Memory;
use wk_out::Out;
use wk_rows::rows;
use wk_title::Title;

/// How many answers are asked of the pages: no expansion reads more.
const MOST_READS: u64 = 1_000_001;

/// How many parsed texts are kept from one draft to the next.
const MOST_TREES: usize = 16;

/// The viewed page, which the member `page` names.
fn viewed_page(alloc: Global, request: &Value) -> Result<Title, Refusal> {
    let Some(text) = string_of(request, "page") else {
        return Err(Refusal::NoPage);
    };
    match title_of(alloc, text)? {
        Some(title) => Ok(title),
        None => Err(Refusal::NoPage),
    }
}

/// What is expanded: the member `text`, or without it the page itself.
fn root_of(alloc: Global, request: &Value) -> Result<Root, Refusal> {
    let Some(member) = request.get("text") else {
        return Ok(Root::Page);
    };
    match member.as_str() {
        Some(text) => Ok(Root::Given(shared_text(alloc, text)?)),
        None => Err(Refusal::NoText),
    }
}

/// The answers that the pages give, each where the draft needs it.
fn answers_of(
    alloc: Global,
    page: &Title,
    root: &Root,
    pages: &Pages,
    trees: &mut Trees,
) -> Result<Seen, Memory> {
    let mut seen = Seen::new(alloc);
    for _ in 0..MOST_READS {
        match draft(alloc, page, root, &seen, trees)? {
            Step::Done(_) => return Ok(seen),
            Step::Needs(title, kind) => {
                let answer = pages.answer(&title, kind)?;
                let _was_new = keep(&mut seen, title, kind, answer)?;
            }
        }
    }
    Ok(seen)
}

/// The answers of the member `seen`, or without it those that the pages give.
fn known_of(
    alloc: Global,
    request: &Value,
    page: &Title,
    root: &Root,
    trees: &mut Trees,
) -> Result<Seen, Refusal> {
    let Some(member) = request.get("seen") else {
        let pages = pages_of(alloc, request)?;
        return Ok(answers_of(alloc, page, root, &pages, trees)?);
    };
    match member.as_array() {
        Some(entries) => seen_of(alloc, entries.as_slice()),
        None => Err(Refusal::NoSeen),
    }
}

/// Whether one machine is asked for, by the member `resume`.
fn is_resumed(request: &Value) -> bool {
    match request.get("resume") {
        Some(member) => member.as_bool() == Some(true),
        None => false,
    }
}

/// What `draft` comes to by the answers that are known, where they are given to one machine one at a time, each when it is
/// needed; and the number of the machine's runs, which is one more than that of the answers it was given.
fn resumed(
    alloc: Global,
    page: &Title,
    root: &Root,
    known: &Seen,
    trees: &mut Trees,
) -> Result<(Step, u64), Memory>
    ensures step { IfOk result (λ found. IsStep page.now root.now known.now found.0) }
    ensures runs { IfOk result (λ found. AreRuns page.now root.now known.now found.0 found.1) }
{
    let machine = Machine::new(alloc, page, root)?;
    let mut given = Seen::new(alloc);
    let mut runs = 1;
    match drafted_by(
        &(),
        known,
        &mut runs,
        &mut NoGate,
        machine,
        &mut given,
        trees,
    )? {
        Ended::Made(draft) => {
            let _page = draft.page();
            Ok((Step::Done(draft), runs))
        }
        Ended::Unknown(title, kind) => Ok((Step::Needs(title, kind), runs)),
    }
}

/// What is drafted over the answers that are known; with the number of its runs where one machine is asked for.
fn drafted(
    alloc: Global,
    page: &Title,
    root: &Root,
    known: &Seen,
    trees: &mut Trees,
    by_machine: bool,
) -> Result<(Step, Option<u64>), Memory>
    ensures { IfOk result (λ found. IsOf root.now found.0) }
{
    if by_machine {
        let (step, runs) = resumed(alloc, page, root, known, trees)?;
        return Ok((step, Some(runs)));
    }
    let step = draft(alloc, page, root, known, trees)?;
    Ok((step, None))
}

/// What the expansion cost.
fn counts_value(alloc: Global, counts: Counts) -> Result<Value, Memory> {
    object(
        alloc,
        &[
            ("argument", Plain::Number(counts.argument)),
            ("exists", Plain::Number(counts.exists)),
            ("include", Plain::Number(counts.include)),
            ("nodes", Plain::Number(counts.nodes)),
        ],
    )
}

/// A read: its title, its kind and its mark.
fn read_value(alloc: Global, read: &Read) -> Result<Value, Memory> {
    let mut parts = Vec::new(alloc);
    add(&mut parts, Value::String(shown_text(alloc, &read.title)?))?;
    add(
        &mut parts,
        value_of(alloc, Plain::Text(kind_word(read.kind)))?,
    )?;
    add(&mut parts, value_of(alloc, Plain::Number(read.mark))?)?;
    Ok(Value::Array(parts))
}

/// What was read: titles, kinds and marks.
fn reads_value(alloc: Global, reads: &[Read]) -> Result<Value, Memory> {
    let mut entries = Vec::new(alloc);
    for read in reads {
        add(&mut entries, read_value(alloc, read)?)?;
    }
    Ok(Value::Array(entries))
}

/// The runs of the output: texts, and whether they are sealed.
fn runs_value(alloc: Global, out: &Out) -> Result<Value, Memory> {
    let mut entries = Vec::new(alloc);
    for (text, sealed) in out.runs() {
        add(
            &mut entries,
            list(alloc, &[Plain::Text(text), Plain::Flag(sealed)])?,
        )?;
    }
    Ok(Value::Array(entries))
}

/// The shown form of a title, or `null` where there is none.
fn title_or_null(alloc: Global, title: Option<&Title>) -> Result<Value, Memory> {
    match title {
        Some(title) => Ok(Value::String(shown_text(alloc, title)?)),
        None => Ok(Value::Null),
    }
}

/// Puts what an output has: its runs, and the links in them.
fn put_out(alloc: Global, members: &mut Map<String, Value>, out: &Out) -> Result<(), Memory> {
    put(alloc, members, "found", links_in(alloc, out)?)?;
    put(alloc, members, "runs", runs_value(alloc, out)?)
}

/// Puts what a draft read, what that cost, and where its page redirects to.
fn put_reads(alloc: Global, members: &mut Map<String, Value>, draft: &Draft) -> Result<(), Memory> {
    put(
        alloc,
        members,
        "counts",
        counts_value(alloc, draft.counts())?,
    )?;
    put(alloc, members, "reads", reads_value(alloc, draft.reads())?)?;
    put(
        alloc,
        members,
        "turned",
        title_or_null(alloc, draft.turned())?,
    )
}

/// What is answered of a draft, but for the rows of its page.
fn draft_members(alloc: Global, draft: &Draft) -> Result<Map<String, Value>, Memory> {
    let mut members = members_of(alloc, &[("out", Plain::Text(draft.out().text()))])?;
    put_out(alloc, &mut members, draft.out())?;
    put_reads(alloc, &mut members, draft)?;
    Ok(members)
}

/// Puts the rows of the draft's page.
fn put_rows(alloc: Global, members: &mut Map<String, Value>, draft: &Draft) -> Result<(), Memory>
    requires { draft.now.given ≡ None }
{
    let rows = rows(alloc, draft)?;
    put(alloc, members, "rows", rows_value(alloc, &rows)?)
}

/// A draft as it is answered.
fn draft_value(alloc: Global, root: &Root, draft: &Draft) -> Result<Value, Memory>
    requires { draft.now.given ≡ given_text root.now }
{
    let mut members = draft_members(alloc, draft)?;
    match root {
        Root::Page => put_rows(alloc, &mut members, draft)?,
        Root::Given(_) => {}
    }
    Ok(Value::Object(members))
}

/// What a draft comes to, as it is answered.
fn step_value(alloc: Global, root: &Root, step: &Step) -> Result<Value, Memory>
    requires { IsOf root.now step.now }
{
    match step {
        Step::Done(draft) => draft_value(alloc, root, draft),
        Step::Needs(title, kind) => {
            let title = shown_text(alloc, title)?;
            let read = list(alloc, &[Plain::Text(&title), Plain::Text(kind_word(*kind))])?;
            object_with(alloc, "needs", read)
        }
    }
}

/// Adds the number of runs to an answer.
fn add_rounds(alloc: Global, value: &mut Value, runs: u64) -> Result<(), Memory> {
    if let Some(members) = value.as_object_mut() {
        put(alloc, members, "rounds", Value::from(runs))?;
    }
    Ok(())
}

/// What a page, or a text in the place of its own, expands to; or what is needed for that and wasn't seen.
pub fn expand_value(alloc: Global, request: &Value) -> Result<Value, Refusal> {
    let page = viewed_page(alloc, request)?;
    let root = root_of(alloc, request)?;
    let mut trees = Trees::new(alloc, MOST_TREES)?;
    let known = known_of(alloc, request, &page, &root, &mut trees)?;
    let by_machine = is_resumed(request);
    let (step, runs) = drafted(alloc, &page, &root, &known, &mut trees, by_machine)?;
    let mut value = step_value(alloc, &root, &step)?;
    if let Some(runs) = runs {
        add_rounds(alloc, &mut value, runs)?;
    }
    Ok(value)
}

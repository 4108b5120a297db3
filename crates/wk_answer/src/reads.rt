//! The replies to requests that were answered by a read of their own: what a page or a text expands to.
ghost use Rattle.std.specs.Prelude.{◌≡◌, ◌<◌, ◌≤◌, ℕ, None, true, IfOk, Ok, Err};
ghost use Rattle.serde_json.specs.View.{view};
ghost use Rattle.wk_page_rules.specs.Verdict.{MostHeld};
ghost use Rattle.wk_view_rules.specs.Plans.{done};
ghost use Rattle.wk_view_rules.specs.Views.{shown_text, view as view_of};
ghost use Rattle.wk_view_rules.specs.Worlds.{of_world};
ghost use Rattle.wk_wiki_rules.specs.States.{State, world_of};
ghost use Rattle.wk_wiki_laws.specs.WellFormed.{IsWellFormed};
ghost use Rattle.wk_wiki_rules.specs.Passes.{shown_number};
ghost use Rattle.wk_request.specs.Asked.{ask_of, read_of, request_asked};
ghost use Rattle.wk_core.specs.declared.outcomes.ReadRefusal.TheVariants.{Future};
ghost use Rattle.wk_answer_rules.specs.ApiErrors.{api_error, futurepoint};
ghost use Rattle.wk_answer_rules.specs.Answers.{answer_to_ask, answer_to_request};
ghost use Rattle.wk_answer_rules.specs.Pages.{expanded_in};
ghost use Rattle.wk_listings.specs.Replied.{value_at};
ghost use Rattle.wk_answer.specs.Readings.{IsEarly, IsFitRead, IsRightRead, asks_to_expand, mark_first, page_answer, reading_of};

use serde_json::Value;
use std::alloc::Global;
use wk_core::{Draft, PageRead, ReadRefusal};
use wk_good_rows::MAX_TEXT;
use wk_listings::missing_title;
use wk_memory::Memory;
use wk_replies::{PageShown, expanded, future_point, parsed};
use wk_request::{Asked, ReadAsked, Request};
use wk_rows::rows;
use wk_saving::content_too_big;

/// The mark of what a draft read first, 0 where it read nothing.
fn mark_first(draft: &Draft) -> u64
    ensures { result ≡ mark_first draft.now.reads }
{
    match draft.reads().first() {
        Some(read) => read.mark,
        None => 0,
    }
}

/// What is told of a page that was read. A draft of a page reads the page's own text first.
fn page_reply(alloc: Global, read: &PageRead) -> Result<Value, Memory>
    requires { read.now.draft.given ≡ None }
    ensures { (state : State) → IsWellFormed state
        → view_of (of_world (world_of state)) read.now.draft.page ≡ done read.now.draft.expanded read.now.draft.reads
        → read.now.id ≡ shown_number state.history read.now.draft.page
        → IfOk result (λ v. view v ≡ value_at read.now.point (page_answer state read.now.draft.page)) }
{
    let draft = read.draft.draft();
    let revision = mark_first(draft);
    if revision == 0 {
        return missing_title(alloc, read.point);
    }
    let rows = rows(alloc, draft)?;
    let page = PageShown {
        title: draft.page(),
        number: read.id,
        revision,
        text: draft.out().text(),
        rows: &rows,
    };
    parsed(alloc, &page, read.point)
}

/// What is told of a text that was read in the place of a page: an error where the text is too long.
fn text_reply(alloc: Global, text: &str, read: &PageRead) -> Result<Value, Memory>
    ensures { (state : State)
        → shown_text (of_world (world_of state)) read.now.draft.page text.now ≡ done read.now.draft.expanded read.now.draft.reads
        → IfOk result (λ v. view v ≡ value_at read.now.point (expanded_in state text.now read.now.draft.page)) }
{
    if MAX_TEXT < text.len() {
        return content_too_big(alloc, read.point);
    }
    expanded(alloc, read.draft.draft().out().text(), read.point)
}

/// What is told of what was read for a request.
fn found_reply(alloc: Global, asked: &ReadAsked, read: &PageRead) -> Result<Value, Memory>
    requires fit { IsFitRead (read_of asked.now) (Ok read.now) }
    ensures { (most : MostHeld) (state : State) (moment : ℕ) → IsRightRead state (read_of asked.now) (reading_of read.now)
        → IfOk result (λ v. view v ≡ (answer_to_ask most state read.now.point moment (read_of asked.now)).reply.value) }
{
    match *asked {
        ReadAsked::Page { .. } => page_reply(alloc, read),
        ReadAsked::Text { text, .. } => text_reply(alloc, text, read),
    }
}

/// What is told where the least point isn't reached.
fn early_reply(alloc: Global, refusal: ReadRefusal) -> Result<Value, Memory>
    requires { IsEarly refusal }
    ensures { (latest : ℕ) → refusal ≡ Future latest → IfOk result (λ v. view v ≡ (api_error (futurepoint latest) latest).value) }
{
    match refusal {
        ReadRefusal::Future(latest) => future_point(alloc, latest, latest),
        ReadRefusal::Memory => unreachable!(),
    }
}

/// The reply to a request that asks what a page or a text expands to, by a read that was made for it (MediaWiki's
/// API:Parsing wikitext and API:Expandtemplates). The read isn't refused for want of memory, and for a page it is one of
/// the page's own text.
///
/// It is what the request is answered in each state in which the read is right, at the read's point. Where the read is
/// refused, since its least point isn't reached, it is that error, at the length that the journal had.
pub fn read_reply(
    alloc: Global,
    request: &Request,
    read: &Result<PageRead, ReadRefusal>,
) -> Result<Value, Memory>
    requires asked { asks_to_expand (ask_of request.now.ask) ≡ true }
    requires fit { IsFitRead (ask_of request.now.ask) read.now }
    ensures value { (found : PageRead) (most : MostHeld) (state : State) (moment : ℕ)
        → read.now ≡ Ok found → IsRightRead state (ask_of request.now.ask) (reading_of found) → request.now.least ≤ found.point
        → IfOk result (λ v. view v ≡ (answer_to_request most state found.point moment (request_asked request.now)).reply.value) }
    ensures future { (latest : ℕ) (most : MostHeld) (state : State) (moment : ℕ)
        → read.now ≡ Err (Future latest) → latest < request.now.least
        → IfOk result (λ v. view v ≡ (answer_to_request most state latest moment (request_asked request.now)).reply.value) }
{
    let found = match read {
        Ok(found) => found,
        Err(refusal) => return early_reply(alloc, *refusal),
    };
    match request.ask.asked() {
        Asked::Read(asked) => found_reply(alloc, &asked, found),
        _ => unreachable!(),
    }
}

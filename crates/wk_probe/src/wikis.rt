//! Wikis in memory, and what they answer.
ghost use Rattle.std.specs.Prelude.{◌≡◌, None, IfOk, OnOk};

use crate::members::string_of;
use crate::refusal::Refusal;
use crate::wire::bytes_of;
use serde_json::Value;
use std::alloc::Global;
use wk_core::{Edit, Keeper, Limits, LoadCause, SaveRefusal, Wiki};
use wk_expand::Trees;
use wk_probe_wiki::{Store, empty, reply};
use wk_tools::{DrainEnd, drain_here};

/// How many parsed texts are kept from one draft to the next.
const MOST_TREES: usize = 16;

/// An empty wiki.
fn empty_wiki(alloc: Global) -> Result<Wiki<Store>, Refusal>
    ensures { IfOk result (λ wiki. wiki.start.sealed ≡ None) }
{
    match empty(alloc, Limits::FULL, Vec::new(alloc)) {
        Ok(wiki) => Ok(wiki),
        Err(LoadCause::Memory) => Err(Refusal::Memory),
        Err(_) => Err(Refusal::NotOpened),
    }
}

/// Saves a page.
fn save_page<K: Keeper>(
    alloc: Global,
    wiki: &mut Wiki<K>,
    name: &str,
    text: &Value,
    now: u64,
) -> Result<(), Refusal>
    requires { wiki.old.start.sealed ≡ None }
    ensures { OnOk result (wiki.new.start.sealed ≡ None) }
{
    let Some(text) = text.as_str() else {
        return Err(Refusal::NoPages);
    };
    let edit = Edit {
        title: String::from_str(alloc, name)?,
        body: Some(String::from_str(alloc, text)?),
        base: None,
        create_only: false,
        no_create: false,
    };
    match wiki.save(&edit, now) {
        Ok(_) => Ok(()),
        Err(SaveRefusal::Memory) => Err(Refusal::Memory),
        Err(_) => Err(Refusal::NotSaved),
    }
}

/// Saves the pages of the member `pages` in the order of their names, each at as many seconds since 1970 as its place from 1
/// on. The seconds behind the last.
fn save_pages<K: Keeper>(alloc: Global, wiki: &mut Wiki<K>, request: &Value) -> Result<u64, Refusal>
    requires { wiki.old.start.sealed ≡ None }
    ensures { OnOk result (wiki.new.start.sealed ≡ None) }
{
    let Some(members) = request.get("pages").and_then(Value::as_object) else {
        return Err(Refusal::NoPages);
    };
    let mut now = 1u64;
    'pages: for (name, text) in members {
        save_page(alloc, wiki, name, text, now)?;
        now = now.saturating_add(1);
    }
    Ok(now)
}

/// Does every job, where the member `refresh` says so.
fn refresh_all<K: Keeper>(request: &Value, wiki: &mut Wiki<K>) -> Result<(), Refusal>
    requires { wiki.old.start.sealed ≡ None }
    ensures { OnOk result (wiki.new.start.sealed ≡ None) }
{
    if request.get("refresh").and_then(Value::as_bool) != Some(true) {
        return Ok(());
    }
    match drain_here(wiki) {
        DrainEnd::Done => Ok(()),
        DrainEnd::Memory => Err(Refusal::Memory),
        _ => Err(Refusal::NotRefreshed),
    }
}

/// What the wiki, which is empty, answers to the member `query` once it has the pages of the member `pages`.
fn answered<K: Keeper>(alloc: Global, request: &Value, wiki: &mut Wiki<K>) -> Result<Value, Refusal>
    requires { wiki.old.start.sealed ≡ None }
{
    let query = bytes_of(alloc, string_of(request, "query").unwrap_or(""))?;
    let mut trees = Trees::new(alloc, MOST_TREES)?;
    let now = save_pages(alloc, wiki, request)?;
    refresh_all(request, wiki)?;
    Ok(reply(wiki, &query, b"", true, now, &mut trees)?)
}

/// What a wiki with the pages of the member `pages` answers to the member `query`.
pub fn api_value(alloc: Global, request: &Value) -> Result<Value, Refusal> {
    let mut wiki = empty_wiki(alloc)?;
    answered(alloc, request, &mut wiki)
}

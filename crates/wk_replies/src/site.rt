//! What is told of the wiki: its token, its namespaces and its counts (MediaWiki's API:Tokens and API:Siteinfo).
ghost use Rattle.std.specs.Prelude.{◌≡◌, ◌∷◌, [], IfOk, codes, length, map};
ghost use Rattle.serde_json.specs.Data.{string};
ghost use Rattle.serde_json.specs.View.{view};
ghost use Rattle.wk_wiki_rules.specs.Revisions.{count_existing};
ghost use Rattle.wk_wiki_rules.specs.States.{State};
ghost use Rattle.wk_answer_rules.specs.Pages.{count_jobs, namespace_numbers, namespace_value, site_entries, tokens_entries};
ghost use Rattle.wk_answer_rules.specs.Values.{array_of, integer, object_of, reply_beside};
ghost use Rattle.wk_replies.specs.Counted.{query_shown, site_shown, statistics_shown};
ghost use Rattle.wk_replies.specs.declared.site.Counts.{Counts as Held};

use crate::members::{Plain, object, object_with, put, reply};
use crate::values::array_value;
use serde_json::{Map, Value};
use std::alloc::Global;
use wk_memory::Memory;
use wk_title::namespace_name;

/// The numbers of the namespaces, rising.
const NAMESPACES: [i8; 18] = [-2, -1, 0, 1, 2, 3, 4, 5, 6, 7, 8, 9, 10, 11, 12, 13, 14, 15];

/// How much a wiki holds.
#[derive(Clone, Copy)]
pub struct Counts {
    pub revisions: u64,
    /// Jobs of both kinds.
    pub jobs: u64,
    /// Pages that exist.
    pub pages: u64,
}

/// The token that edits are sent with, which is the same for all.
pub fn tokens(alloc: Global, point: u64) -> Result<Value, Memory>
    ensures { IfOk result (λ v. view v ≡ (reply_beside tokens_entries point).value) }
{
    let token = object(alloc, &[("csrftoken", Plain::Text("+\\"))])?;
    let query = object_with(alloc, "tokens", token)?;
    reply(alloc, "query", query, point)
}

/// A namespace that has this name.
fn named_value(alloc: Global, ns: i8, name: &str) -> Result<Value, Memory>
    ensures { IfOk result (λ v. view v ≡ object_of ((codes "id", integer ns) ∷ (codes "name", string name.now) ∷ [])) }
{
    object(
        alloc,
        &[("id", Plain::Namespace(ns)), ("name", Plain::Text(name))],
    )
}

/// A namespace: its number and its name.
fn namespace_value(alloc: Global, ns: i8) -> Result<Value, Memory>
    ensures { IfOk result (λ v. view v ≡ namespace_value ns) }
{
    named_value(alloc, ns, namespace_name(ns))
}

/// All namespaces.
fn namespaces_value(alloc: Global) -> Result<Value, Memory>
    ensures { IfOk result (λ v. view v ≡ array_of (map namespace_value namespace_numbers)) }
{
    let mut values = Vec::new(alloc);
    for ns in &NAMESPACES {
        values.push(namespace_value(alloc, *ns)?)?;
    }
    Ok(array_value(values))
}

/// How much the wiki holds.
fn statistics_value(alloc: Global, counts: Counts) -> Result<Value, Memory>
    ensures { IfOk result (λ v. view v ≡ statistics_shown counts) }
{
    let table = &[
        ("edits", Plain::Number(counts.revisions)),
        ("jobs", Plain::Number(counts.jobs)),
        ("pages", Plain::Number(counts.pages)),
    ];
    object(alloc, table)
}

/// What is told of a wiki's namespaces and counts.
fn query_value(alloc: Global, counts: Counts) -> Result<Value, Memory>
    ensures { IfOk result (λ v. view v ≡ query_shown counts) }
{
    let mut members = Map::new(alloc);
    put(alloc, &mut members, "namespaces", namespaces_value(alloc)?)?;
    put(
        alloc,
        &mut members,
        "statistics",
        statistics_value(alloc, counts)?,
    )?;
    Ok(Value::Object(members))
}

/// What is told of a wiki that holds so much.
pub fn site_info(alloc: Global, counts: Counts, point: u64) -> Result<Value, Memory>
    ensures { IfOk result (λ v. view v ≡ (reply_beside (site_shown counts) point).value) }
{
    let query = query_value(alloc, counts)?;
    reply(alloc, "query", query, point)
}

/// What is told of counts is what is told of a state that has them.
pub fn counts_are_those_of_a_state()
    ensures { (counts : Held) (state : State)
        → counts.revisions ≡ length state.history.revisions → counts.jobs ≡ count_jobs state
        → counts.pages ≡ count_existing state.history → site_shown counts ≡ site_entries state }
{}

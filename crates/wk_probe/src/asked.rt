//! What the parameters of a request ask.

use crate::members::string_of;
use crate::refusal::Refusal;
use crate::values::{
    Plain, list, members_of, number_or_null, object, object_with, put, text_or_null, value_of,
};
use crate::wire::bytes_of;
use serde_json::{Map, Value};
use std::alloc::Global;
use wk_memory::Memory;
use wk_request::{Ask, Listing, Request, RequestRefusal};
use wk_revs::Edit;

fn edit_value(alloc: Global, edit: &Edit) -> Result<Value, Memory> {
    let asked = object(
        alloc,
        &[
            ("base", number_or_null(edit.base)),
            ("body", text_or_null(&edit.body)),
            ("create_only", Plain::Flag(edit.create_only)),
            ("no_create", Plain::Flag(edit.no_create)),
            ("title", Plain::Text(&edit.title)),
        ],
    )?;
    object_with(alloc, "edit", asked)
}

fn delete_value(alloc: Global, title: &str, base: Option<u64>) -> Result<Value, Memory> {
    let asked = object(
        alloc,
        &[
            ("base", number_or_null(base)),
            ("title", Plain::Text(title)),
        ],
    )?;
    object_with(alloc, "delete", asked)
}

/// From where on, how many, and of which title.
fn listing_members(alloc: Global, listing: &Listing) -> Result<Map<String, Value>, Memory> {
    members_of(
        alloc,
        &[
            ("from", number_or_null(listing.from)),
            ("limit", Plain::Number(listing.limit as u64)),
            ("title", Plain::Text(&listing.title)),
        ],
    )
}

fn listing_value(alloc: Global, word: &str, listing: &Listing) -> Result<Value, Memory> {
    let asked = listing_members(alloc, listing)?;
    object_with(alloc, word, Value::Object(asked))
}

fn revisions_value(alloc: Global, listing: &Listing, content: bool) -> Result<Value, Memory> {
    let mut asked = listing_members(alloc, listing)?;
    put(alloc, &mut asked, "content", Value::Bool(content))?;
    object_with(alloc, "revisions", Value::Object(asked))
}

fn page_value(alloc: Global, page: &str) -> Result<Value, Memory> {
    let asked = object(alloc, &[("page", Plain::Text(page))])?;
    object_with(alloc, "parse", asked)
}

fn text_value(alloc: Global, text: &str, title: &str) -> Result<Value, Memory> {
    let asked = object(
        alloc,
        &[("text", Plain::Text(text)), ("title", Plain::Text(title))],
    )?;
    object_with(alloc, "expand", asked)
}

/// What is asked, under its word.
fn ask_value(alloc: Global, ask: &Ask) -> Result<Value, Memory> {
    match ask {
        Ask::Edit(edit) => edit_value(alloc, edit),
        Ask::Delete { title, base } => delete_value(alloc, title, *base),
        Ask::Parse { page } => page_value(alloc, page),
        Ask::Expand { text, title } => text_value(alloc, text, title),
        Ask::Backlinks(listing) => listing_value(alloc, "backlinks", listing),
        Ask::Embedded(listing) => listing_value(alloc, "embedded", listing),
        Ask::Members(listing) => listing_value(alloc, "members", listing),
        Ask::Changes(listing) => listing_value(alloc, "changes", listing),
        Ask::Revisions(listing, content) => revisions_value(alloc, listing, *content),
        Ask::Tokens => value_of(alloc, Plain::Text("tokens")),
        Ask::SiteInfo => value_of(alloc, Plain::Text("siteinfo")),
    }
}

/// What is asked, the least point, and whether a text is to be transformed.
fn asked_value(alloc: Global, asked: &Request) -> Result<Value, Memory> {
    let mut members = members_of(
        alloc,
        &[
            ("least", Plain::Number(asked.least)),
            ("subst", Plain::Flag(asked.subst)),
        ],
    )?;
    put(alloc, &mut members, "ask", ask_value(alloc, &asked.ask)?)?;
    Ok(Value::Object(members))
}

/// Why it is refused: the number of the rule, and the parameter.
fn refused_value(alloc: Global, number: u8, parameter: &str) -> Result<Value, Memory> {
    let why = list(
        alloc,
        &[Plain::Number(u64::from(number)), Plain::Text(parameter)],
    )?;
    object_with(alloc, "refused", why)
}

/// What the parameters of the members `query` and `body` ask, or why they are refused.
pub fn request_value(alloc: Global, request: &Value) -> Result<Value, Refusal> {
    let query = bytes_of(alloc, string_of(request, "query").unwrap_or(""))?;
    let body = bytes_of(alloc, string_of(request, "body").unwrap_or(""))?;
    let posted = request
        .get("posted")
        .and_then(Value::as_bool)
        .unwrap_or(false);
    match Request::of(alloc, &query, &body, posted) {
        Ok(asked) => Ok(asked_value(alloc, &asked)?),
        Err(RequestRefusal::Refused { number, parameter }) => {
            Ok(refused_value(alloc, number, parameter)?)
        }
        Err(RequestRefusal::Memory) => Err(Refusal::Memory),
    }
}

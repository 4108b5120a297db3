//! The rows of a page.

use crate::members::add;
use crate::titles::shown_text;
use crate::values::{Plain, list, put};
use serde_json::{Map, Value};
use std::alloc::Global;
use wk_bytes::Text;
use wk_memory::Memory;
use wk_rows::PageRows;
use wk_title::Title;

/// The shown forms of titles.
fn titles_value(alloc: Global, titles: &[Title]) -> Result<Value, Memory> {
    let mut entries = Vec::new(alloc);
    for title in titles {
        add(&mut entries, Value::String(shown_text(alloc, title)?))?;
    }
    Ok(Value::Array(entries))
}

/// Categories with their sort keys and prefixes.
fn members_value(alloc: Global, members: &[(Title, Text, Text)]) -> Result<Value, Memory> {
    let mut entries = Vec::new(alloc);
    for (category, sortkey, prefix) in members {
        let category = shown_text(alloc, category)?;
        let (sortkey, prefix) = (Plain::Text(sortkey.as_str()), Plain::Text(prefix.as_str()));
        add(
            &mut entries,
            list(alloc, &[Plain::Text(&category), sortkey, prefix])?,
        )?;
    }
    Ok(Value::Array(entries))
}

/// The shown form of a title, if there is one, as a list.
fn redirect_value(alloc: Global, redirect: Option<&Title>) -> Result<Value, Memory> {
    let mut entries = Vec::new(alloc);
    if let Some(title) = redirect {
        add(&mut entries, Value::String(shown_text(alloc, title)?))?;
    }
    Ok(Value::Array(entries))
}

/// Puts the categories, and where the page redirects to.
fn put_members(
    alloc: Global,
    lists: &mut Map<String, Value>,
    rows: &PageRows,
) -> Result<(), Memory> {
    put(
        alloc,
        lists,
        "members",
        members_value(alloc, &rows.members)?,
    )?;
    put(
        alloc,
        lists,
        "redirect",
        redirect_value(alloc, rows.redirect.as_ref())?,
    )
}

/// The rows of a page, list by list.
pub fn rows_value(alloc: Global, rows: &PageRows) -> Result<Value, Memory> {
    let mut lists = Map::new(alloc);
    put(
        alloc,
        &mut lists,
        "exists",
        titles_value(alloc, &rows.exists)?,
    )?;
    put(
        alloc,
        &mut lists,
        "links",
        titles_value(alloc, &rows.links)?,
    )?;
    put(
        alloc,
        &mut lists,
        "templates",
        titles_value(alloc, &rows.templates)?,
    )?;
    put_members(alloc, &mut lists, rows)?;
    Ok(Value::Object(lists))
}

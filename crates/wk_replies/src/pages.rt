//! What is told of a page and of a text that are expanded (MediaWiki's API:Parsing wikitext and API:Expandtemplates; that
//! links, categories and templates come in title order is own).
ghost use Rattle.std.specs.Prelude.{◌≡◌, ◌∷◌, [], IfOk, OnOk, codes, map, string_bytes};
ghost use Rattle.serde_json.specs.Data.{string};
ghost use Rattle.serde_json.specs.View.{members_view, view};
ghost use Rattle.wk_table_rows.specs.Members.{member_of};
ghost use Rattle.wk_answer_rules.specs.Pages.{category_value, expand_entries, parse_entries, redirect_entries};
ghost use Rattle.wk_answer_rules.specs.Values.{array_of, object_of, reply_beside};
ghost use Rattle.wk_replies.specs.Members.{with_entries};
ghost use Rattle.wk_replies.specs.Shown.{first_entries, later_entries, page_data, page_of};

use crate::members::{Plain, put, put_rows, reply, reply_of};
use crate::values::{array_value, shown_text, title_value, titles_value};
use serde_json::{Map, Value};
use std::alloc::Global;
use wk_bytes::Text;
use wk_memory::Memory;
use wk_table_rows::PageRows;
use wk_title::{Title, spaced};

/// What a page shows.
#[derive(Drop)]
pub struct PageShown<'a> {
    pub title: &'a Title,
    /// The page's number.
    pub number: u32,
    /// Its current revision.
    pub revision: u64,
    /// What it expands to.
    pub text: &'a str,
    /// Its rows, by its expansion.
    pub rows: &'a PageRows,
}

/// A category, and what a page in it asks to be sorted by.
fn category_entry(alloc: Global, category: String, sort_key: &str) -> Result<Value, Memory>
    ensures { IfOk result (λ v. view v
        ≡ object_of ((codes "category", string (string_bytes category)) ∷ (codes "sortkey", string sort_key.now) ∷ [])) }
{
    let mut members = Map::new(alloc);
    put(alloc, &mut members, "category", Value::from(category))?;
    put_rows(alloc, &mut members, &[("sortkey", Plain::Text(sort_key))])?;
    Ok(Value::Object(members))
}

/// A category that a page is in: its key with spaces, and what the page asks to be sorted by.
fn category_value(alloc: Global, member: &(Title, Text, Text)) -> Result<Value, Memory>
    ensures { IfOk result (λ v. view v ≡ category_value (member_of member.now)) }
{
    let (category, _, prefix) = member;
    let key = spaced(alloc, category.key())?;
    category_entry(alloc, key, prefix.as_str())
}

/// Categories that a page is in.
fn categories_value(alloc: Global, members: &[(Title, Text, Text)]) -> Result<Value, Memory>
    ensures { IfOk result (λ v. view v ≡ array_of (map category_value (map member_of members.now))) }
{
    let mut values = Vec::new(alloc);
    for member in members {
        values.push(category_value(alloc, member)?)?;
    }
    Ok(array_value(values))
}

/// Puts where the page redirects to, if it does.
fn put_redirect(
    alloc: Global,
    members: &mut Map<String, Value>,
    rows: &PageRows,
) -> Result<(), Memory>
    ensures { OnOk result (members_view members.new.entries
        ≡ with_entries (members_view members.old.entries) (redirect_entries rows.now.redirect)) }
{
    match &rows.redirect {
        Some(target) => put(alloc, members, "redirect", title_value(alloc, target)?),
        None => Ok(()),
    }
}

/// Puts the page's categories, text and links.
fn put_first(
    alloc: Global,
    members: &mut Map<String, Value>,
    page: &PageShown<'_>,
) -> Result<(), Memory>
    ensures { OnOk result (members_view members.new.entries
        ≡ with_entries (members_view members.old.entries) (first_entries (page_of page.now))) }
{
    let rows = page.rows;
    put(
        alloc,
        members,
        "categories",
        categories_value(alloc, &rows.members)?,
    )?;
    put_rows(alloc, members, &[("expanded", Plain::Text(page.text))])?;
    put(alloc, members, "links", titles_value(alloc, &rows.links)?)
}

/// Puts the page's number, revision, templates and title.
fn put_later(
    alloc: Global,
    members: &mut Map<String, Value>,
    page: &PageShown<'_>,
) -> Result<(), Memory>
    ensures { OnOk result (members_view members.new.entries
        ≡ with_entries (members_view members.old.entries) (later_entries (page_of page.now))) }
{
    let rows = page.rows;
    let numbers = &[
        ("pageid", Plain::Number(u64::from(page.number))),
        ("revid", Plain::Number(page.revision)),
    ];
    put_rows(alloc, members, numbers)?;
    put(
        alloc,
        members,
        "templates",
        titles_value(alloc, &rows.templates)?,
    )?;
    let title = shown_text(alloc, page.title)?;
    put(alloc, members, "title", Value::from(title))
}

/// What stands in the reply for a page.
fn page_value(alloc: Global, page: &PageShown<'_>) -> Result<Value, Memory>
    ensures { IfOk result (λ v. view v ≡ page_data (page_of page.now)) }
{
    let mut members = Map::new(alloc);
    put_first(alloc, &mut members, page)?;
    put_later(alloc, &mut members, page)?;
    put_redirect(alloc, &mut members, page.rows)?;
    Ok(Value::Object(members))
}

/// What is told of a page that was parsed.
pub fn parsed(alloc: Global, page: &PageShown<'_>, point: u64) -> Result<Value, Memory>
    ensures { IfOk result (λ v. view v ≡ (reply_beside (parse_entries (page_of page.now)) point).value) }
{
    let value = page_value(alloc, page)?;
    reply(alloc, "parse", value, point)
}

/// What is told of a text that was expanded.
pub fn expanded(alloc: Global, text: &str, point: u64) -> Result<Value, Memory>
    ensures { IfOk result (λ v. view v ≡ (reply_beside (expand_entries text.now) point).value) }
{
    let table = &[("wikitext", Plain::Text(text))];
    reply_of(alloc, "expandtemplates", table, point)
}

//! Listings (MediaWiki's API:Backlinks, API:Embeddedin, API:Categorymembers, API:RecentChanges and API:Revisions; what a
//! listing goes on by is own).
ghost use Rattle.std.specs.Prelude.{◌≡◌, [], IfOk, OnOk, unwrap_or};
ghost use Rattle.serde_json.specs.Data.{no_members};
ghost use Rattle.serde_json.specs.View.{members_view, view};
ghost use Rattle.wk_answer_rules.specs.Lists.{change_type, content_entries, continue_entries, deleted_entries, revision_entries};
ghost use Rattle.wk_answer_rules.specs.Values.{object_of, reply_beside};
ghost use Rattle.wk_replies.specs.Listed.{change_shown, first_of_revision, listed_entries, member_shown, page_shown};
ghost use Rattle.wk_replies.specs.Members.{with_entries};

use crate::members::{Plain, object_with, put, put_rows};
use crate::values::titled;
use serde_json::{Map, Value};
use std::alloc::Global;
use wk_index::MemberPage;
use wk_memory::Memory;
use wk_revs::Revision;
use wk_title::Title;

/// A page: its number and its title.
pub fn page_entry(alloc: Global, page: u32, title: &Title) -> Result<Value, Memory>
    ensures { IfOk result (λ v. view v ≡ object_of (page_shown page title.now)) }
{
    let table = &[
        ("ns", Plain::Namespace(title.ns())),
        ("pageid", Plain::Number(u64::from(page))),
    ];
    titled(alloc, title, table)
}

/// A member of a category, whose page has this title: the prefix, and the page.
pub fn member_entry(alloc: Global, member: &MemberPage, title: &Title) -> Result<Value, Memory>
    ensures { IfOk result (λ v. view v ≡ object_of (member_shown member.now title.now)) }
{
    let table = &[
        ("ns", Plain::Namespace(title.ns())),
        ("pageid", Plain::Number(u64::from(member.page))),
        ("sortkeyprefix", Plain::Text(member.prefix.as_str())),
    ];
    titled(alloc, title, table)
}

/// What a revision does: a deletion has no text, and a page that was missing is new.
fn change_type(revision: &Revision) -> &'static str
    ensures { result.now ≡ change_type revision.now }
{
    if revision.text().is_none() {
        "delete"
    } else if revision.parent() == 0 {
        "new"
    } else {
        "edit"
    }
}

/// A change: the revision with this number, of a page with this title.
pub fn change_entry(
    alloc: Global,
    number: u64,
    revision: &Revision,
    title: &Title,
) -> Result<Value, Memory>
    ensures { IfOk result (λ v. view v ≡ object_of (change_shown number revision.now title.now)) }
{
    let table = &[
        ("ns", Plain::Namespace(title.ns())),
        ("oldrevid", Plain::Number(revision.parent())),
        ("pageid", Plain::Number(u64::from(revision.page()))),
        ("revid", Plain::Number(number)),
        ("timestamp", Plain::Number(revision.moment())),
        ("type", Plain::Text(change_type(revision))),
    ];
    titled(alloc, title, table)
}

/// The text of a revision, empty where it is a deletion.
fn text_or_empty(revision: &Revision) -> &str
    ensures { result.now ≡ unwrap_or revision.now.text [] }
{
    match revision.text() {
        Some(text) => text.as_str(),
        None => "",
    }
}

/// Puts that the revision is a deletion, where it is one.
fn put_deleted(
    alloc: Global,
    members: &mut Map<String, Value>,
    revision: &Revision,
) -> Result<(), Memory>
    ensures { OnOk result (members_view members.new.entries
        ≡ with_entries (members_view members.old.entries) (deleted_entries revision.now)) }
{
    if revision.text().is_none() {
        return put_rows(alloc, members, &[("deleted", Plain::Flag(true))]);
    }
    Ok(())
}

/// Puts the text of the revision, where it is asked for.
fn put_content(
    alloc: Global,
    members: &mut Map<String, Value>,
    revision: &Revision,
    content: bool,
) -> Result<(), Memory>
    ensures { OnOk result (members_view members.new.entries
        ≡ with_entries (members_view members.old.entries) (content_entries content revision.now)) }
{
    if content {
        let text = text_or_empty(revision);
        return put_rows(alloc, members, &[("content", Plain::Text(text))]);
    }
    Ok(())
}

/// The numbers of a revision: the one before it, its own, its size in bytes and its moment.
fn revision_numbers(
    alloc: Global,
    number: u64,
    revision: &Revision,
) -> Result<Map<String, Value>, Memory>
    ensures { IfOk result (λ members. members_view members.entries
        ≡ with_entries no_members (first_of_revision number revision.now)) }
{
    let size = text_or_empty(revision).len() as u64;
    // Lists have many of these, and a table costs more than the calls.
    let mut members = Map::new(alloc);
    put(
        alloc,
        &mut members,
        "parentid",
        Value::from(revision.parent()),
    )?;
    put(alloc, &mut members, "revid", Value::from(number))?;
    put(alloc, &mut members, "size", Value::from(size))?;
    put(
        alloc,
        &mut members,
        "timestamp",
        Value::from(revision.moment()),
    )?;
    Ok(members)
}

/// A revision of a page, with its text where that is asked for.
pub fn revision_entry(
    alloc: Global,
    number: u64,
    revision: &Revision,
    content: bool,
) -> Result<Value, Memory>
    ensures { IfOk result (λ v. view v ≡ object_of (revision_entries content (number, revision.now))) }
{
    let mut members = revision_numbers(alloc, number, revision)?;
    put_deleted(alloc, &mut members, revision)?;
    put_content(alloc, &mut members, revision, content)?;
    Ok(Value::Object(members))
}

/// Puts what the listing goes on by, where more is left.
fn put_continue(
    alloc: Global,
    members: &mut Map<String, Value>,
    place: Option<u64>,
) -> Result<(), Memory>
    ensures { OnOk result (members_view members.new.entries
        ≡ with_entries (members_view members.old.entries) (continue_entries place)) }
{
    match place {
        Some(place) => put_rows(alloc, members, &[("continue", Plain::Number(place))]),
        None => Ok(()),
    }
}

/// The reply with a list under its name; and what the listing goes on by, where more is left.
pub fn listed(
    alloc: Global,
    name: &str,
    place: Option<u64>,
    list: Value,
    point: u64,
) -> Result<Value, Memory>
    ensures { IfOk result (λ v. view v ≡ (reply_beside (listed_entries name.now place (view list)) point).value) }
{
    let query = object_with(alloc, name, list)?;
    let mut members = Map::new(alloc);
    put(alloc, &mut members, "point", Value::from(point))?;
    put_continue(alloc, &mut members, place)?;
    put(alloc, &mut members, "query", query)?;
    Ok(Value::Object(members))
}

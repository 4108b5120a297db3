//! What is told of a save (MediaWiki's API:Edit and API:Delete; that the revision before is told of both is own).
ghost use Rattle.std.specs.Prelude.{◌≡◌, IfOk};
ghost use Rattle.serde_json.specs.View.{view};
ghost use Rattle.wk_wiki_rules.specs.SaveOutcomes.{changed, created, unchanged};
ghost use Rattle.wk_answer_rules.specs.Saves.{delete_entries, edit_entries};
ghost use Rattle.wk_answer_rules.specs.Values.{reply_beside};
ghost use Rattle.wk_replies.specs.Shown.{numbers_of};

use crate::members::{Plain, reply};
use crate::values::titled;
use serde_json::Value;
use std::alloc::Global;
use wk_memory::Memory;
use wk_title::Title;

/// The numbers of a save.
#[derive(Clone, Copy)]
pub struct SavedNumbers {
    /// The page's number.
    pub page: u32,
    /// The current revision before the save, 0 where the page was missing.
    pub old: u64,
    /// The revision that was made.
    pub new: u64,
}

/// An edit of a page that was missing.
pub fn created(
    alloc: Global,
    title: &Title,
    numbers: SavedNumbers,
    point: u64,
) -> Result<Value, Memory>
    ensures { IfOk result (λ v. view v ≡ (reply_beside (edit_entries (created title.now (numbers_of numbers))) point).value) }
{
    let table = &[
        ("new", Plain::Flag(true)),
        ("newrevid", Plain::Number(numbers.new)),
        ("oldrevid", Plain::Number(numbers.old)),
        ("pageid", Plain::Number(u64::from(numbers.page))),
        ("result", Plain::Text("Success")),
    ];
    reply(alloc, "edit", titled(alloc, title, table)?, point)
}

/// An edit of a page that existed.
pub fn changed(
    alloc: Global,
    title: &Title,
    numbers: SavedNumbers,
    point: u64,
) -> Result<Value, Memory>
    ensures { IfOk result (λ v. view v ≡ (reply_beside (edit_entries (changed title.now (numbers_of numbers))) point).value) }
{
    let table = &[
        ("newrevid", Plain::Number(numbers.new)),
        ("oldrevid", Plain::Number(numbers.old)),
        ("pageid", Plain::Number(u64::from(numbers.page))),
        ("result", Plain::Text("Success")),
    ];
    reply(alloc, "edit", titled(alloc, title, table)?, point)
}

/// An edit by a text that the page has already.
pub fn unchanged(alloc: Global, title: &Title, page: u32, point: u64) -> Result<Value, Memory>
    ensures { IfOk result (λ v. view v ≡ (reply_beside (edit_entries (unchanged title.now page)) point).value) }
{
    let table = &[
        ("nochange", Plain::Flag(true)),
        ("pageid", Plain::Number(u64::from(page))),
        ("result", Plain::Text("Success")),
    ];
    reply(alloc, "edit", titled(alloc, title, table)?, point)
}

/// A deletion of a page, which existed.
pub fn deleted(
    alloc: Global,
    title: &Title,
    numbers: SavedNumbers,
    point: u64,
) -> Result<Value, Memory>
    ensures { IfOk result (λ v. view v ≡ (reply_beside (delete_entries (changed title.now (numbers_of numbers))) point).value) }
{
    let table = &[
        ("oldrevid", Plain::Number(numbers.old)),
        ("revid", Plain::Number(numbers.new)),
    ];
    reply(alloc, "delete", titled(alloc, title, table)?, point)
}

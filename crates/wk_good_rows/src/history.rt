//! The rule of revisions and pages together: parents and current revisions.
ghost use Rattle.std.specs.Prelude.{◌≡◌, [], None, IfOk, length};
ghost use Rattle.wk_table_rules.specs.GoodStore.{bad_history, current_of, first_bad, has_good_id, has_good_latest, has_good_parent, lesser};
ghost use Rattle.wk_good_rows.specs.Last.{AreLast, IsOfPages, current_in, is_latest, last_of};

use crate::number::{page_place, row_number};
use std::alloc::Global;
use wk_memory::Memory;
use wk_table_rows::{PageRow, RevisionRow, TableRows};

/// What a page's last revision leaves.
#[derive(Clone, Copy)]
struct LastRevision {
    /// Its number, 0 where it is a deletion.
    current: u64,
    /// The bytes of its text.
    len: u64,
}

fn last_of(revision: &RevisionRow) -> LastRevision
    ensures { result ≡ last_of revision.now }
{
    LastRevision {
        current: if revision.rev_gone {
            0
        } else {
            revision.rev_id
        },
        len: revision.rev_len,
    }
}

/// The current revision, 0 where there is none.
fn current_in(last: Option<LastRevision>) -> u64
    ensures { result ≡ current_in last }
{
    match last {
        Some(last) => last.current,
        None => 0,
    }
}

/// No page has a revision.
fn no_revisions(alloc: Global, pages: usize) -> Result<Vec<Option<LastRevision>>, Memory>
    ensures { IfOk result (λ last. AreLast last.items [] pages) }
{
    let mut last = Vec::new(alloc);
    last.resize(pages, None)?;
    Ok(last)
}

/// The first row whose parent isn't the revision that was current before it.
fn bad_parent(alloc: Global, pages: usize, revisions: &[RevisionRow]) -> Result<Option<u64>, Memory>
    requires { IsOfPages pages revisions.now }
    ensures { IfOk result (λ bad. bad ≡ first_bad has_good_parent revisions.now) }
{
    let mut last = no_revisions(alloc, pages)?;
    for i in 0..revisions.len() {
        let revision = &revisions[i];
        let place = page_place(pages, revision.rev_page);
        if revision.rev_parent_id != current_in(last[place]) {
            return Ok(Some(row_number(i)));
        }
        last[place] = Some(last_of(revision));
    }
    Ok(None)
}

/// The last revision of each page.
fn last_revisions(
    alloc: Global,
    pages: usize,
    revisions: &[RevisionRow],
) -> Result<Vec<Option<LastRevision>>, Memory>
    requires { IsOfPages pages revisions.now }
    ensures { IfOk result (λ last. AreLast last.items revisions.now pages) }
{
    let mut last = no_revisions(alloc, pages)?;
    for i in 0..revisions.len() {
        let revision = &revisions[i];
        let place = page_place(pages, revision.rev_page);
        last[place] = Some(last_of(revision));
    }
    Ok(last)
}

/// Whether the row says what the page's last revision is.
fn is_latest(page: &PageRow, last: Option<LastRevision>) -> bool
    ensures { result ≡ is_latest page.now last }
{
    match last {
        Some(last) => page.page_latest == last.current && page.page_len == last.len,
        None => false,
    }
}

/// The first row that doesn't say what its page's last revision is.
fn bad_latest(tables: &TableRows, last: &[Option<LastRevision>]) -> Option<u64>
    requires ids { first_bad has_good_id tables.now.pages ≡ None }
    requires last { AreLast last.now tables.now.revisions (length tables.now.pages) }
    ensures { result ≡ first_bad (has_good_latest tables.now) tables.now.pages }
{
    let pages = tables.pages.as_slice();
    for i in 0..pages.len() {
        if !is_latest(&pages[i], last[i]) {
            return Some(row_number(i));
        }
    }
    None
}

/// The lesser of two numbers of rows, where both are given.
fn lesser(row: Option<u64>, other: Option<u64>) -> Option<u64>
    ensures { result ≡ lesser row other }
{
    match (row, other) {
        (Some(row), Some(other)) => Some(row.min(other)),
        (Some(row), None) => Some(row),
        (None, other) => other,
    }
}

/// The least row of either table that breaks the rule: a revision whose parent isn't the one that was current before
/// it, or a page that doesn't say what its last revision is.
pub fn bad_history(alloc: Global, tables: &TableRows) -> Result<Option<u64>, Memory>
    requires ids { first_bad has_good_id tables.now.pages ≡ None }
    requires revisions { IsOfPages (length tables.now.pages) tables.now.revisions }
    ensures { IfOk result (λ bad. bad ≡ bad_history tables.now) }
{
    let pages = tables.pages.len();
    let parent = bad_parent(alloc, pages, &tables.revisions)?;
    let last = last_revisions(alloc, pages, &tables.revisions)?;
    let latest = bad_latest(tables, &last);
    Ok(lesser(parent, latest))
}

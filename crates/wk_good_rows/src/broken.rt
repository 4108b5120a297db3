//! The first rule that is broken.
ghost use Rattle.std.specs.Prelude.{◌≡◌, ◌&&◌, None, IfOk, length};
ghost use Rattle.wk_table_rules.specs.GoodStore.{bad_version, first_broken};

use crate::history::bad_history;
use crate::jobs::bad_job;
use crate::links::bad_link_row;
use crate::pages::{bad_id, bad_title};
use crate::revisions::bad_revision;
use crate::titles::TitleSet;
use std::alloc::Global;
use wk_memory::Memory;
use wk_table_rows::TableRows;
use wk_table_rules::BadStore;

/// The row at which the version isn't one that is known, or at which rows stand that it hasn't: it is counted on
/// behind the redirect rows, of which there are none with version 1.
fn bad_version(tables: &TableRows) -> Option<u64>
    ensures { result ≡ bad_version tables.now }
{
    let redirects = tables.redirects.len() as u64;
    match tables.version {
        1 if redirects == 0 => None,
        1 => Some(1),
        2 => None,
        _ => Some(redirects + 1),
    }
}

/// The first rule of a good store that the rows break, and the least row that breaks it, or `None` exactly where they
/// break none.
///
/// The rules: page ids are 1, 2, 3 and so on, at most 1,000,000. Titles are normal, not negative, and distinct.
/// Revisions are numbered so too and each is of a page; a deletion has no text; `rev_len` is the text's length, at most
/// 2,097,152, and all texts together have at most 1,073,741,824 bytes. `rev_parent_id` is the revision that was current
/// before, and a page's row tells its last revision. Link rows come from pages and are in order, their targets are
/// normal and not negative, and no row stands twice. Job numbers rise, and each job is a refresh of a page or a fan of
/// a normal title, each once. The version is 1 or 2, and with version 1 there is no redirect row.
///
/// The time is in proportion to the rows and the logarithms of the numbers of pages and jobs.
pub fn broken_rows(alloc: Global, tables: &TableRows) -> Result<Option<BadStore>, Memory>
    ensures { IfOk result (λ bad. bad ≡ first_broken tables.now) }
{
    if let Some(row) = bad_id(&tables.pages) {
        return Ok(Some(BadStore { rule: 1, row }));
    }
    let mut titles = TitleSet::new(alloc);
    if let Some(row) = bad_title(alloc, &tables.pages, &mut titles)? {
        return Ok(Some(BadStore { rule: 2, row }));
    }
    if let Some(row) = bad_revision(tables) {
        return Ok(Some(BadStore { rule: 3, row }));
    }
    if let Some(row) = bad_history(alloc, tables)? {
        return Ok(Some(BadStore { rule: 4, row }));
    }
    if let Some(row) = bad_link_row(alloc, tables)? {
        return Ok(Some(BadStore { rule: 5, row }));
    }
    if let Some(row) = bad_job(alloc, tables, &titles)? {
        return Ok(Some(BadStore { rule: 6, row }));
    }
    match bad_version(tables) {
        Some(row) => Ok(Some(BadStore { rule: 7, row })),
        None => Ok(None),
    }
}

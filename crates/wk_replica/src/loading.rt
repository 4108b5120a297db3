//! The wiki that a replica begins with: an empty one, and then that over the rows which were told.
ghost use Rattle.std.specs.Prelude.{◌≡◌, ◌∷◌, ◌++◌, [], None, IfOk, OnOk, map};
ghost use Rattle.wk_page_rules.specs.Verdict.{full_limits};
ghost use Rattle.wk_wiki_rules.specs.States.{no_state};
ghost use Rattle.wk_feed_rules.specs.Taking.{tables_of_rows};
ghost use Rattle.wk_core.specs.Loads.{HasOpened};
ghost use Rattle.wk_feed_lines.specs.Said.{row_of};
ghost use Rattle.wk_replica.specs.Loaded.{IsLoaded, IsOver, with_row_more};

use std::alloc::Global;
use wk_bytes::decimal;
use wk_core::{LoadCause, LoadRefusal, Wiki};
use wk_feed_lines::FeedRow;
use wk_keeper::MemKeeper;
use wk_memory::Memory;
use wk_revs::{Limits, full_is_the_full_limits};
use wk_table_rows::{Share, TableRows};
use wk_tables::Tables;

/// The newest version of a store's tables.
const NEWEST_VERSION: u64 = 2;

/// Appends the row for a further owner.
fn push_shared<R: Share>(rows: &mut Vec<R>, row: &R) -> Result<(), Memory>
    ensures { OnOk result (rows.new.items ≡ rows.old.items ++ row.now ∷ []) }
{
    rows.push(row.share()?)?;
    Ok(())
}

/// Appends the row to its table.
fn add_row(tables: &mut TableRows, row: &FeedRow) -> Result<(), Memory>
    ensures { OnOk result (tables.new ≡ with_row_more tables.old (row_of row.now)) }
{
    match row {
        FeedRow::Page(page) => push_shared(&mut tables.pages, page),
        FeedRow::Revision(revision) => push_shared(&mut tables.revisions, revision),
        FeedRow::PageLink(link) => push_shared(&mut tables.pagelinks, link),
        FeedRow::TemplateLink(link) => push_shared(&mut tables.templatelinks, link),
        FeedRow::ExistLink(link) => push_shared(&mut tables.existlinks, link),
        FeedRow::CategoryLink(link) => push_shared(&mut tables.categorylinks, link),
        FeedRow::Redirect(redirect) => push_shared(&mut tables.redirects, redirect),
        FeedRow::Job(job) => push_shared(&mut tables.jobs, job),
        FeedRow::Site(version) => {
            tables.version = decimal(version.as_str().as_bytes()).unwrap_or(0);
            Ok(())
        }
    }
}

/// The tables that the rows tell. No text is copied.
fn tables_of(alloc: Global, rows: &[FeedRow]) -> Result<TableRows, Memory>
    ensures { IfOk result (λ tables. tables ≡ tables_of_rows (map row_of rows.now)) }
{
    let mut tables = TableRows::new(alloc);
    tables.version = 0;
    'rows: for row in rows {
        add_row(&mut tables, row)?;
    }
    Ok(tables)
}

/// The wiki over these tables, `None` exactly where they break a rule of a good store.
fn wiki_over(alloc: Global, rows: TableRows) -> Result<Option<Wiki<MemKeeper>>, Memory>
    ensures { IfOk result (IsOver rows) }
{
    let keeper = MemKeeper::new(Tables::from_rows(alloc, rows)?);
    full_is_the_full_limits();
    match Wiki::load(alloc, keeper, Limits::FULL) {
        Ok(wiki) => Ok(Some(wiki)),
        Err(LoadRefusal { keeper: _, cause }) => match cause {
            LoadCause::BadStore(_) => Ok(None),
            LoadCause::Memory => Err(Memory),
            LoadCause::StoreFault => unreachable!(),
        },
    }
}

/// The wiki over these rows, `None` exactly where they aren't all tables of a good store of the newest version. The rows are shared
/// with it.
pub fn loaded(alloc: Global, rows: &[FeedRow]) -> Result<Option<Wiki<MemKeeper>>, Memory>
    ensures { IfOk result (IsLoaded (map row_of rows.now)) }
{
    let tables = tables_of(alloc, rows)?;
    if tables.version != NEWEST_VERSION {
        return Ok(None);
    }
    wiki_over(alloc, tables)
}

/// An empty wiki.
pub fn empty_wiki(alloc: Global) -> Result<Wiki<MemKeeper>, Memory>
    ensures opened { IfOk result (λ wiki. HasOpened wiki full_limits) }
    ensures state { IfOk result (λ wiki. wiki.state ≡ no_state) }
{
    match wiki_over(alloc, TableRows::new(alloc))? {
        Some(wiki) => Ok(wiki),
        None => unreachable!(),
    }
}

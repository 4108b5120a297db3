//! The tables of all that a wiki holds.
ghost use Rattle.std.specs.Prelude.{◌≡◌, ◌≤◌, ◌-◌, ◌++◌, map, length, Some, IfOk, IsSome, OnOk};
ghost use Rattle.std.specs.List.{enumerate_from};
ghost use Rattle.std.specs.Option.{option_copied};
ghost use Rattle.wk_page_rules.specs.History.{Page, Revision, text_of_revision};
ghost use Rattle.wk_page_rules.specs.Verdict.{max_pages};
ghost use Rattle.wk_table_rules.specs.JobTable.{refresh_row};
ghost use Rattle.wk_wiki_rules.specs.Jobs.{IsNumbered};
ghost use Rattle.wk_wiki_rules.specs.Steps.{rows_of_jobs};
ghost use Rattle.wk_wiki_rules.specs.States.{page_at, title_at};
ghost use Rattle.wk_wiki_rules.specs.Tables.{page_row, revision_row, tables_of};
ghost use Rattle.wk_wiki_rules.specs.Entries.{revision_at};
ghost use Rattle.wk_wiki_rules.specs.TableChanges.{row_of_fan};
ghost use Rattle.wk_changes.specs.Parts.{parts};

use crate::job_rows::{refresh_row_at, row_of_fan};
use crate::links::LinkTables;
use crate::rows::{page_row, revision_row};
use std::alloc::Global;
use wk_bytes::Text;
use wk_index::Index;
use wk_jobs::{FanJob, Jobs, ListedJobs, RefreshJob};
use wk_memory::Memory;
use wk_revs::Revs;
use wk_tables::{JobRow, PageRow, RevisionRow, TableRows, Tables};

/// The text of the revision with this number, where it has one.
fn text_of_revision(revs: &Revs, number: u64) -> Option<&Text>
    ensures { option_copied result ≡ text_of_revision revs.now.history number }
{
    match revs.revision(number) {
        Some(revision) => revision.text(),
        None => None,
    }
}

/// The row of the page with this number, which there is.
fn page_row_at(revs: &Revs, number: u32) -> Result<PageRow, Memory>
    requires { IsSome (page_at revs.now.history number) }
    ensures { IfOk result (λ row. (page : Page) → page_at revs.now.history number ≡ Some page → row ≡ page_row revs.now.history (number, page)) }
{
    let (title, current) = revs.page_at(number).unwrap();
    page_row(number, title, current, text_of_revision(revs, current))
}

/// The rows of the table page.
fn page_rows(alloc: Global, revs: &Revs) -> Result<Vec<PageRow>, Memory>
    requires { length revs.now.history.pages ≤ max_pages }
    ensures { IfOk result (λ rows. rows.items ≡ map (page_row revs.now.history) (enumerate_from 1 revs.now.history.pages)) }
{
    let count = revs.page_count();
    let mut rows = Vec::with_capacity(alloc, count)?;
    for place in 0..count {
        rows.push(page_row_at(revs, place as u32 + 1)?)?;
    }
    Ok(rows)
}

/// The row of the revision with this number, which there is.
fn revision_row_at(alloc: Global, revs: &Revs, number: u64) -> Result<RevisionRow, Memory>
    requires { IsSome (revision_at revs.now.history number) }
    ensures { IfOk result (λ row. (revision : Revision) → revision_at revs.now.history number ≡ Some revision → row ≡ revision_row (number, revision)) }
{
    let revision = revs.revision(number).unwrap();
    revision_row(
        alloc,
        number,
        revision.page(),
        revision.parent(),
        revision.moment(),
        revision.text(),
    )
}

/// The rows of the table revision.
fn revision_rows(alloc: Global, revs: &Revs) -> Result<Vec<RevisionRow>, Memory>
    ensures { IfOk result (λ rows. rows.items ≡ map revision_row (enumerate_from 1 revs.now.history.revisions)) }
{
    let count = revs.next_revision() - 1;
    let mut rows = Vec::new(alloc);
    for place in 0..count {
        rows.push(revision_row_at(alloc, revs, place + 1)?)?;
    }
    Ok(rows)
}

/// Appends the rows of the refresh jobs.
fn push_refreshes(
    alloc: Global,
    rows: &mut Vec<JobRow>,
    revs: &Revs,
    jobs: &[RefreshJob],
) -> Result<(), Memory>
    ensures { OnOk result (rows.new.items ≡ rows.old.items
        ++ map (λ job. refresh_row job.number (title_at revs.now.history job.page)) jobs.now) }
{
    for job in jobs {
        rows.push(refresh_row_at(alloc, revs, job.number, job.page)?)?;
    }
    Ok(())
}

/// Appends the rows of the fan jobs.
fn push_fans(alloc: Global, rows: &mut Vec<JobRow>, jobs: Vec<FanJob>) -> Result<(), Memory>
    ensures { OnOk result (rows.new.items ≡ rows.old.items ++ map row_of_fan jobs.items) }
{
    for job in jobs {
        rows.push(row_of_fan(alloc, job)?)?;
    }
    Ok(())
}

/// The rows of the table job, in the order of their numbers.
fn job_rows(alloc: Global, revs: &Revs, jobs: &Jobs) -> Result<Vec<JobRow>, Memory>
    requires { IsNumbered jobs.now.lists }
    ensures { IfOk result (λ rows. rows.items ≡ rows_of_jobs (title_at revs.now.history) jobs.now.lists) }
{
    let ListedJobs {
        refreshes,
        fans,
        ..
    } = jobs.listed()?;
    let mut rows = Vec::new(alloc);
    push_refreshes(alloc, &mut rows, revs, &refreshes)?;
    push_fans(alloc, &mut rows, fans)?;
    rows.sort_unstable_by_key(|row| row.job_id);
    Ok(rows)
}

/// The tables of the wiki: a row of each page and of each revision, the link rows of each page, and the jobs in the order of
/// their numbers. Texts are shared. It is one walk over all that the wiki holds.
pub fn tables(alloc: Global, revs: &Revs, jobs: &Jobs, index: &Index) -> Result<Tables, Memory>
    requires few { length revs.now.history.pages ≤ max_pages }
    requires same { length index.now.stored ≡ length revs.now.history.pages }
    requires numbered { IsNumbered jobs.now.lists }
    ensures { IfOk result (λ tables. tables.tables ≡ tables_of (parts revs.now jobs.now index.now)) }
{
    let links = LinkTables::of_pages(alloc, revs, index)?;
    let rows = TableRows {
        pages: page_rows(alloc, revs)?,
        revisions: revision_rows(alloc, revs)?,
        pagelinks: links.pagelinks,
        templatelinks: links.templatelinks,
        existlinks: links.existlinks,
        categorylinks: links.categorylinks,
        redirects: links.redirects,
        jobs: job_rows(alloc, revs, jobs)?,
        version: 2,
    };
    Tables::from_rows(alloc, rows)
}

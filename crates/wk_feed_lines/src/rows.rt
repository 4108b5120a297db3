//! Lines of rows, behind the name of their table.
ghost use Rattle.std.specs.Prelude.{◌≡◌, IfOk, option_map};
ghost use Rattle.wk_table_rules.specs.Rows.{LinkColumns};
ghost use Rattle.wk_feed_rules.specs.Lines.{TableRow, row};
ghost use Rattle.wk_feed_rules.specs.Reading.{category_said, ending, job_said, link_said, page_said, redirect_said, revision_said, site_said};
ghost use Rattle.wk_feed_lines.specs.Said.{line_of};
ghost use Rattle.wk_feed_lines.specs.Cells.{left_of, read_on};

use crate::cells::Cells;
use crate::line::{FeedLine, FeedRow};
use std::alloc::Global;
use wk_memory::Memory;
use wk_table_rows::{CategoryRow, JobRow, LinkRow, PageRow, RedirectRow, RevisionRow};

/// A row of page.
pub fn page_said(alloc: Global, cells: &mut Cells<'_>) -> Result<Option<FeedLine>, Memory>
    ensures { IfOk result (λ line. option_map line_of line ≡ read_on page_said (left_of cells.old)) }
{
    let page_id = cells.number();
    let page_namespace = cells.integer();
    let page_title = cells.text(alloc)?;
    let page_latest = cells.number();
    let page_len = cells.number();
    let row = PageRow {
        page_id,
        page_namespace,
        page_title,
        page_latest,
        page_len,
    };
    Ok(cells.ended(FeedLine::Row(FeedRow::Page(row))))
}

/// A row of revision.
pub fn revision_said(alloc: Global, cells: &mut Cells<'_>) -> Result<Option<FeedLine>, Memory>
    ensures { IfOk result (λ line. option_map line_of line ≡ read_on revision_said (left_of cells.old)) }
{
    let rev_id = cells.number();
    let rev_page = cells.number();
    let rev_parent_id = cells.number();
    let rev_timestamp = cells.number();
    let rev_len = cells.number();
    let rev_gone = cells.flag();
    let rev_text = cells.text(alloc)?;
    let row = RevisionRow {
        rev_id,
        rev_page,
        rev_parent_id,
        rev_timestamp,
        rev_len,
        rev_gone,
        rev_text,
    };
    Ok(cells.ended(FeedLine::Row(FeedRow::Revision(row))))
}

/// The columns of a row of a link table.
pub fn link_row(alloc: Global, cells: &mut Cells<'_>) -> Result<LinkRow, Memory>
    ensures { IfOk result (λ link. (kind : LinkColumns → TableRow)
        → read_on (link_said kind) (left_of cells.old) ≡ read_on (ending (row (kind link))) (left_of cells.new)) }
{
    let from = cells.number();
    let from_namespace = cells.integer();
    let namespace = cells.integer();
    let title = cells.text(alloc)?;
    Ok(LinkRow {
        from,
        from_namespace,
        namespace,
        title,
    })
}

/// A row of categorylinks.
pub fn category_said(alloc: Global, cells: &mut Cells<'_>) -> Result<Option<FeedLine>, Memory>
    ensures { IfOk result (λ line. option_map line_of line ≡ read_on category_said (left_of cells.old)) }
{
    let cl_from = cells.number();
    let cl_to = cells.text(alloc)?;
    let cl_sortkey = cells.text(alloc)?;
    let cl_sortkey_prefix = cells.text(alloc)?;
    let row = CategoryRow {
        cl_from,
        cl_to,
        cl_sortkey,
        cl_sortkey_prefix,
    };
    Ok(cells.ended(FeedLine::Row(FeedRow::CategoryLink(row))))
}

/// A row of redirect.
pub fn redirect_said(alloc: Global, cells: &mut Cells<'_>) -> Result<Option<FeedLine>, Memory>
    ensures { IfOk result (λ line. option_map line_of line ≡ read_on redirect_said (left_of cells.old)) }
{
    let rd_from = cells.number();
    let rd_namespace = cells.integer();
    let rd_title = cells.text(alloc)?;
    let row = RedirectRow {
        rd_from,
        rd_namespace,
        rd_title,
    };
    Ok(cells.ended(FeedLine::Row(FeedRow::Redirect(row))))
}

/// A row of job.
pub fn job_said(alloc: Global, cells: &mut Cells<'_>) -> Result<Option<FeedLine>, Memory>
    ensures { IfOk result (λ line. option_map line_of line ≡ read_on job_said (left_of cells.old)) }
{
    let job_id = cells.number();
    let job_cmd = cells.text(alloc)?;
    let job_namespace = cells.integer();
    let job_title = cells.text(alloc)?;
    let job_params = cells.text(alloc)?;
    let row = JobRow {
        job_id,
        job_cmd,
        job_namespace,
        job_title,
        job_params,
    };
    Ok(cells.ended(FeedLine::Row(FeedRow::Job(row))))
}

/// The row of site: its one key is `version`.
pub fn site_said(alloc: Global, cells: &mut Cells<'_>) -> Result<Option<FeedLine>, Memory>
    ensures { IfOk result (λ line. option_map line_of line ≡ read_on site_said (left_of cells.old)) }
{
    let key = cells.words();
    if key != "version" {
        return Ok(None);
    }
    let version = cells.text(alloc)?;
    Ok(cells.ended(FeedLine::Row(FeedRow::Site(version))))
}

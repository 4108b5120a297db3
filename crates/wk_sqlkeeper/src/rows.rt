//! The rows of a query as the rows of a table.
ghost use Rattle.std.specs.Prelude.{List, IfErr, IfOk};
ghost use Rattle.sqlite_value.specs.declared.value.Value.{Value};
ghost use Rattle.wk_sqlkeeper.specs.Reading.{IsJobRow, IsLinkRow, IsMemberRow, IsPageRow, IsRedirectRow, IsRevisionRow, OnlyUnless};
ghost use Rattle.wk_sqlkeeper.specs.Stored.{IsPage, IsRevision, IsLink, IsMember, IsRedirect, IsJob};

use crate::columns::{flag_at, moment_at, namespace_at, number_at, text_at};
use sqlite::{Error, Row};
use std::alloc::Global;
use wk_tables::{CategoryRow, JobRow, LinkRow, PageRow, RedirectRow, RevisionRow};

/// A row of a table, which stands in the database with a column for each field, in the order of the fields.
pub trait FromColumns: Drop {
    /// The columns are those of the row.
    ghost stands_as: { List Value → Self → Type 0 };

    /// Each column fits its field.
    ghost is_row: { List Value → Type 0 };

    /// The row that has these columns, or the error of the first one that doesn't fit its field.
    fn from_columns(alloc: Global, row: &Row) -> Result<Self, Error>
        ensures read { IfOk result (stands_as row.now) }
        ensures refused { IfErr result (OnlyUnless (is_row row.now)) };
}

impl FromColumns for PageRow {
    ghost stands_as = { IsPage };

    ghost is_row = { IsPageRow };

    fn from_columns(alloc: Global, row: &Row) -> Result<PageRow, Error> {
        Ok(PageRow {
            page_id: number_at(row, 0)?,
            page_namespace: namespace_at(row, 1)?,
            page_title: text_at(alloc, row, 2)?,
            page_latest: number_at(row, 3)?,
            page_len: number_at(row, 4)?,
        })
    }
}

impl FromColumns for RevisionRow {
    ghost stands_as = { IsRevision };

    ghost is_row = { IsRevisionRow };

    fn from_columns(alloc: Global, row: &Row) -> Result<RevisionRow, Error> {
        Ok(RevisionRow {
            rev_id: number_at(row, 0)?,
            rev_page: number_at(row, 1)?,
            rev_parent_id: number_at(row, 2)?,
            rev_timestamp: moment_at(row, 3)?,
            rev_len: number_at(row, 4)?,
            rev_gone: flag_at(row, 5)?,
            rev_text: text_at(alloc, row, 6)?,
        })
    }
}

impl FromColumns for LinkRow {
    ghost stands_as = { IsLink };

    ghost is_row = { IsLinkRow };

    fn from_columns(alloc: Global, row: &Row) -> Result<LinkRow, Error> {
        Ok(LinkRow {
            from: number_at(row, 0)?,
            from_namespace: namespace_at(row, 1)?,
            namespace: namespace_at(row, 2)?,
            title: text_at(alloc, row, 3)?,
        })
    }
}

impl FromColumns for CategoryRow {
    ghost stands_as = { IsMember };

    ghost is_row = { IsMemberRow };

    fn from_columns(alloc: Global, row: &Row) -> Result<CategoryRow, Error> {
        Ok(CategoryRow {
            cl_from: number_at(row, 0)?,
            cl_to: text_at(alloc, row, 1)?,
            cl_sortkey: text_at(alloc, row, 2)?,
            cl_sortkey_prefix: text_at(alloc, row, 3)?,
        })
    }
}

impl FromColumns for RedirectRow {
    ghost stands_as = { IsRedirect };

    ghost is_row = { IsRedirectRow };

    fn from_columns(alloc: Global, row: &Row) -> Result<RedirectRow, Error> {
        Ok(RedirectRow {
            rd_from: number_at(row, 0)?,
            rd_namespace: namespace_at(row, 1)?,
            rd_title: text_at(alloc, row, 2)?,
        })
    }
}

impl FromColumns for JobRow {
    ghost stands_as = { IsJob };

    ghost is_row = { IsJobRow };

    fn from_columns(alloc: Global, row: &Row) -> Result<JobRow, Error> {
        Ok(JobRow {
            job_id: number_at(row, 0)?,
            job_cmd: text_at(alloc, row, 1)?,
            job_namespace: namespace_at(row, 2)?,
            job_title: text_at(alloc, row, 3)?,
            job_params: text_at(alloc, row, 4)?,
        })
    }
}

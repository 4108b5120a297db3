//! The numbers of rows, and the rows that the items of a page give.
ghost use Rattle.std.specs.Prelude.{◌≡◌, refl};
ghost use Rattle.wk_table_rules.specs.Changes.{link_row, category_row, redirect_row};
ghost use Rattle.wk_table_rows.specs.Members.{member_of};

use crate::number::Numbered;
use crate::page_table::RowOf;
use crate::rows::{CategoryRow, JobRow, LinkRow, PageRow, RedirectRow, RevisionRow};
use wk_bytes::Text;
use wk_title::Title;

impl Numbered for PageRow {
    ghost number = { λ row. row.page_id };

    fn number(&self) -> u64 {
        self.page_id
    }
}

impl Numbered for RevisionRow {
    ghost number = { λ row. row.rev_id };

    fn number(&self) -> u64 {
        self.rev_id
    }
}

impl Numbered for JobRow {
    ghost number = { λ row. row.job_id };

    fn number(&self) -> u64 {
        self.job_id
    }
}

impl Numbered for LinkRow {
    ghost number = { λ row. row.from };

    fn number(&self) -> u64 {
        self.from
    }
}

impl RowOf<Title> for LinkRow {
    ghost row_of = { link_row };

    fn row_of(page: u64, namespace: i64, title: Title) -> LinkRow {
        let (ns, key) = title.into_parts();
        LinkRow {
            from: page,
            from_namespace: namespace,
            namespace: i64::from(ns),
            title: key,
        }
    }

    ghost is_of = { λ page namespace title. refl };
}

impl Numbered for CategoryRow {
    ghost number = { λ row. row.cl_from };

    fn number(&self) -> u64 {
        self.cl_from
    }
}

impl RowOf<(Title, Text, Text)> for CategoryRow {
    ghost row_of = { λ page namespace member. category_row page (member_of member) };

    fn row_of(page: u64, _: i64, member: (Title, Text, Text)) -> CategoryRow {
        let (category, sortkey, prefix) = member;
        let (_, key) = category.into_parts();
        CategoryRow {
            cl_from: page,
            cl_to: key,
            cl_sortkey: sortkey,
            cl_sortkey_prefix: prefix,
        }
    }

    ghost is_of = { λ page namespace member. refl };
}

impl Numbered for RedirectRow {
    ghost number = { λ row. row.rd_from };

    fn number(&self) -> u64 {
        self.rd_from
    }
}

impl RowOf<Title> for RedirectRow {
    ghost row_of = { λ page namespace title. redirect_row page title };

    fn row_of(page: u64, _: i64, title: Title) -> RedirectRow {
        let (ns, key) = title.into_parts();
        RedirectRow {
            rd_from: page,
            rd_namespace: i64::from(ns),
            rd_title: key,
        }
    }

    ghost is_of = { λ page namespace title. refl };
}

//! The keys of rows.
ghost use Rattle.std.specs.Prelude.{◌≡◌, Some, IfOk, IfSome, option_copied};
ghost use Rattle.wk_bad_rows.specs.Keys.{category_key, history_key, job_key, key_in, link_key, links_key, page_key, redirect_key, revision_key, version_key};

use crate::places::{is_bad_parent, row_at};
use std::fmt;
use wk_bytes::Text;
use wk_keeper::Keeper;
use wk_memory::Memory;
use wk_table_rows::{CategoryRow, JobRow, LinkRow, PageRow, RedirectRow, RevisionRow, TableRows};
use wk_table_rules::BadStore;

/// A table of links.
#[derive(Clone, Copy)]
pub enum LinkTable {
    Pagelinks,
    Templatelinks,
    Existlinks,
}

/// The table of a row, and its key there. What a page's row is known by besides is its title.
#[derive(Drop)]
pub enum RowKey {
    Page {
        id: u64,
        namespace: i64,
        title: Text,
    },
    Revision {
        id: u64,
    },
    Link {
        table: LinkTable,
        from: u64,
        namespace: i64,
        title: Text,
    },
    Category {
        from: u64,
        to: Text,
    },
    Redirect {
        from: u64,
    },
    Job {
        id: u64,
    },
    Version {
        version: u64,
    },
}

fn page_key(page: Option<&PageRow>) -> Result<Option<RowKey>, Memory>
    ensures { IfOk result (λ key. key ≡ page_key (option_copied page.entry)) }
{
    match page {
        None => Ok(None),
        Some(page) => Ok(Some(RowKey::Page {
            id: page.page_id,
            namespace: page.page_namespace,
            title: page.page_title.share()?,
        })),
    }
}

fn revision_key(revision: Option<&RevisionRow>) -> Option<RowKey>
    ensures { result ≡ revision_key (option_copied revision.entry) }
{
    match revision {
        None => None,
        Some(revision) => Some(RowKey::Revision {
            id: revision.rev_id,
        }),
    }
}

fn link_key(table: LinkTable, link: Option<&LinkRow>) -> Result<Option<RowKey>, Memory>
    ensures { IfOk result (λ key. key ≡ link_key table (option_copied link.entry)) }
{
    match link {
        None => Ok(None),
        Some(link) => Ok(Some(RowKey::Link {
            table,
            from: link.from,
            namespace: link.namespace,
            title: link.title.share()?,
        })),
    }
}

fn category_key(member: Option<&CategoryRow>) -> Result<Option<RowKey>, Memory>
    ensures { IfOk result (λ key. key ≡ category_key (option_copied member.entry)) }
{
    match member {
        None => Ok(None),
        Some(member) => Ok(Some(RowKey::Category {
            from: member.cl_from,
            to: member.cl_to.share()?,
        })),
    }
}

fn redirect_key(redirect: Option<&RedirectRow>) -> Option<RowKey>
    ensures { result ≡ redirect_key (option_copied redirect.entry) }
{
    match redirect {
        None => None,
        Some(redirect) => Some(RowKey::Redirect {
            from: redirect.rd_from,
        }),
    }
}

fn job_key(job: Option<&JobRow>) -> Option<RowKey>
    ensures { result ≡ job_key (option_copied job.entry) }
{
    match job {
        None => None,
        Some(job) => Some(RowKey::Job { id: job.job_id }),
    }
}

/// The key of the row of the revisions and pages with this number.
fn history_key(rows: &TableRows, row: u64) -> Result<Option<RowKey>, Memory>
    ensures { IfOk result (λ key. key ≡ history_key rows.now row) }
{
    if is_bad_parent(&rows.revisions, row) {
        Ok(revision_key(row_at(&rows.revisions, row)))
    } else {
        page_key(row_at(&rows.pages, row))
    }
}

/// The key of the row of the link tables with this number.
fn links_key(rows: &TableRows, row: u64) -> Result<Option<RowKey>, Memory>
    ensures { IfOk result (λ key. key ≡ links_key rows.now row) }
{
    let mut left = row;
    let links = rows.pagelinks.len() as u64;
    if left <= links {
        return link_key(LinkTable::Pagelinks, row_at(&rows.pagelinks, left));
    }
    left -= links;
    let templates = rows.templatelinks.len() as u64;
    if left <= templates {
        return link_key(LinkTable::Templatelinks, row_at(&rows.templatelinks, left));
    }
    left -= templates;
    let exists = rows.existlinks.len() as u64;
    if left <= exists {
        return link_key(LinkTable::Existlinks, row_at(&rows.existlinks, left));
    }
    left -= exists;
    let members = rows.categorylinks.len() as u64;
    if left <= members {
        return category_key(row_at(&rows.categorylinks, left));
    }
    Ok(redirect_key(row_at(&rows.redirects, left - members)))
}

/// The key of the redirect with this number, where the version hasn't redirects, and else of the version.
fn version_key(rows: &TableRows, row: u64) -> Option<RowKey>
    ensures { result ≡ version_key rows.now row }
{
    match rows.version {
        1 => redirect_key(row_at(&rows.redirects, row)),
        version => Some(RowKey::Version { version }),
    }
}

/// The key of the row that breaks the rule, and `None` where no row has its number.
fn key_of(rows: &TableRows, bad: BadStore) -> Result<Option<RowKey>, Memory>
    ensures { IfOk result (λ key. key ≡ key_in rows.now bad) }
{
    let BadStore { rule, row } = bad;
    match rule {
        1 | 2 => page_key(row_at(&rows.pages, row)),
        3 => Ok(revision_key(row_at(&rows.revisions, row))),
        4 => history_key(rows, row),
        5 => links_key(rows, row),
        6 => Ok(job_key(row_at(&rows.jobs, row))),
        7 => Ok(version_key(rows, row)),
        _ => Ok(None),
    }
}

/// The key of the row of the keeper's tables that breaks the rule, and `None` where no row has its number, the tables can't
/// be loaded, or memory is wanting.
pub fn key_in_store<K: Keeper>(keeper: &mut K, bad: BadStore) -> Option<RowKey>
    ensures { IfSome (K.told keeper.old) (λ tables. IfSome result (λ key. key_in tables bad ≡ Some key)) }
{
    let Ok(tables) = keeper.load() else {
        return None;
    };
    let Ok(rows) = tables.rows() else {
        return None;
    };
    match key_of(&rows, bad) {
        Ok(key) => key,
        Err(Memory) => None,
    }
}

/// What the names of the table's columns begin with, and the table's name.
fn names_of(table: LinkTable) -> (&'static str, &'static str) {
    match table {
        LinkTable::Pagelinks => ("pl", "pagelinks"),
        LinkTable::Templatelinks => ("tl", "templatelinks"),
        LinkTable::Existlinks => ("el", "existlinks"),
    }
}

/// The table, and then each column of the key with its value. A text is written as `{:?}` of a `str` does.
impl fmt::Display for RowKey {
    fn fmt<W: fmt::Write>(&self, f: &mut fmt::Formatter<W>) -> fmt::Result {
        match self {
            RowKey::Page {
                id,
                namespace,
                title,
            } => {
                let title = title.as_str();
                write!(
                    f,
                    "table page, page_id {id}, page_namespace {namespace}, page_title {title:?}"
                )
            }
            RowKey::Revision { id } => write!(f, "table revision, rev_id {id}"),
            RowKey::Link {
                table,
                from,
                namespace,
                title,
            } => {
                let (of, name) = names_of(*table);
                let title = title.as_str();
                write!(
                    f,
                    "table {name}, {of}_from {from}, {of}_namespace {namespace}, {of}_title {title:?}"
                )
            }
            RowKey::Category { from, to } => {
                let to = to.as_str();
                write!(f, "table categorylinks, cl_from {from}, cl_to {to:?}")
            }
            RowKey::Redirect { from } => write!(f, "table redirect, rd_from {from}"),
            RowKey::Job { id } => write!(f, "table job, job_id {id}"),
            RowKey::Version { version } => write!(
                f,
                "table site, site_key \"version\", site_value {version}"
            ),
        }
    }
}

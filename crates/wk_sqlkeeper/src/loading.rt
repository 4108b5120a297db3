//! The tables of a wiki out of the database, one query a table.
ghost use Rattle.std.specs.Prelude.{◌≡◌, [], IfOk, IsTrue, OnErr, OnOk};
ghost use Rattle.sqlite.specs.State.{HasCleanDisk, QueriesRow};
ghost use Rattle.sqlite.specs.Held.{state};
ghost use Rattle.sqlite.specs.Given.{IsPlain};
ghost use Rattle.sqlite.specs.Listing.{understood};
ghost use Rattle.wk_table_rules.specs.Rows.{StoreTables};
ghost use Rattle.wk_sqltables.specs.Held.{link_cmp, member_cmp};
ghost use Rattle.wk_sqltables.specs.Edits.{Keeps};
ghost use Rattle.wk_sqlkeeper.specs.Kept.{IsInRange, IsListOf, Rests, StillKeeps};
ghost use Rattle.wk_sqlkeeper.specs.Queries.{version_text};
ghost use Rattle.wk_sqlkeeper.specs.Reading.{ReadsAll, ReadsSorted};
ghost use Rattle.wk_sqlkeeper.specs.Stored.{IsLink, IsMember};

use crate::answers::{Permit, no_memory};
use crate::columns::text_at;
use crate::order::{sort_links, sort_members};
use crate::rows::FromColumns;
use sqlite::types::Type;
use sqlite::{Alter, Connection, Error, ErrorCode, Row};
use std::alloc::Global;
use wk_bytes::decimal;
use wk_tables::{
    CategoryRow, JobRow, LinkRow, PageRow, RedirectRow, RevisionRow, TableRows, Tables,
};

/// All rows that the query gives, in its order.
fn read_all<S: Alter, R: FromColumns>(
    alloc: Global,
    connection: &mut Connection<S>,
    query: &str,
) -> Result<Vec<R>, Error>
    ensures all { IsPlain (understood connection.old.schema query.now) → HasCleanDisk (state S.Store connection.new)
        → IfOk result (λ rows. ReadsAll R.FromColumns.stands_as query.now (state S.Store connection.old) (state S.Store connection.new) rows.items) }
    ensures refused { IsPlain (understood connection.old.schema query.now) → HasCleanDisk (state S.Store connection.new)
        → OnErr result (Rests (state S.Store connection.old) (state S.Store connection.new)) }
    ensures clean { HasCleanDisk (state S.Store connection.new) → HasCleanDisk (state S.Store connection.old) }
{
    let mut read = Vec::new(alloc);
    let mut rows = connection.query(query, &[])?;
    'rows: for _ in 0..u64::MAX {
        let Some(row) = rows.next()? else {
            return Ok(read);
        };
        read.push(R::from_columns(alloc, row)?)?;
    }
    Err(Error::SqliteFailure(ErrorCode::OutOfMemory))
}

fn read_pages<S: Alter>(
    alloc: Global,
    connection: &mut Connection<S>,
) -> Result<Vec<PageRow>, Error>
    ensures read { HasCleanDisk (state S.Store connection.new) → IfOk result (λ rows. IsListOf (λ tables. tables.pages) (state S.Store connection.old) rows.items) }
    ensures kept { HasCleanDisk (state S.Store connection.new) → OnOk result (StillKeeps (state S.Store connection.old) (state S.Store connection.new)) }
    ensures stays { HasCleanDisk (state S.Store connection.new) → IsTrue (state S.Store connection.new).is_open → OnErr result (StillKeeps (state S.Store connection.old) (state S.Store connection.new)) }
    ensures clean { HasCleanDisk (state S.Store connection.new) → HasCleanDisk (state S.Store connection.old) }
{
    read_all(
        alloc,
        connection,
        "SELECT page_id, page_namespace, page_title, page_latest, page_len FROM page ORDER BY page_id",
    )
}

fn read_revisions<S: Alter>(
    alloc: Global,
    connection: &mut Connection<S>,
) -> Result<Vec<RevisionRow>, Error>
    ensures read { HasCleanDisk (state S.Store connection.new) → IfOk result (λ rows. IsListOf (λ tables. tables.revisions) (state S.Store connection.old) rows.items) }
    ensures kept { HasCleanDisk (state S.Store connection.new) → OnOk result (StillKeeps (state S.Store connection.old) (state S.Store connection.new)) }
    ensures stays { HasCleanDisk (state S.Store connection.new) → IsTrue (state S.Store connection.new).is_open → OnErr result (StillKeeps (state S.Store connection.old) (state S.Store connection.new)) }
    ensures clean { HasCleanDisk (state S.Store connection.new) → HasCleanDisk (state S.Store connection.old) }
{
    read_all(
        alloc,
        connection,
        "SELECT rev_id, rev_page, rev_parent_id, rev_timestamp, rev_len, rev_gone, rev_text FROM revision ORDER BY rev_id",
    )
}

/// The rows of a link table that the query gives, in the order of their titles.
fn read_links<S: Alter>(
    alloc: Global,
    connection: &mut Connection<S>,
    query: &str,
) -> Result<Vec<LinkRow>, Error>
    ensures all { IsPlain (understood connection.old.schema query.now) → HasCleanDisk (state S.Store connection.new)
        → IfOk result (λ rows. ReadsSorted IsLink link_cmp query.now (state S.Store connection.old) (state S.Store connection.new) rows.items) }
    ensures refused { IsPlain (understood connection.old.schema query.now) → HasCleanDisk (state S.Store connection.new)
        → OnErr result (Rests (state S.Store connection.old) (state S.Store connection.new)) }
    ensures clean { HasCleanDisk (state S.Store connection.new) → HasCleanDisk (state S.Store connection.old) }
{
    let mut rows = read_all(alloc, connection, query)?;
    sort_links(&mut rows);
    Ok(rows)
}

fn read_pagelinks<S: Alter>(
    alloc: Global,
    connection: &mut Connection<S>,
) -> Result<Vec<LinkRow>, Error>
    ensures read { HasCleanDisk (state S.Store connection.new) → IfOk result (λ rows. IsListOf (λ tables. tables.pagelinks) (state S.Store connection.old) rows.items) }
    ensures kept { HasCleanDisk (state S.Store connection.new) → OnOk result (StillKeeps (state S.Store connection.old) (state S.Store connection.new)) }
    ensures stays { HasCleanDisk (state S.Store connection.new) → IsTrue (state S.Store connection.new).is_open → OnErr result (StillKeeps (state S.Store connection.old) (state S.Store connection.new)) }
    ensures clean { HasCleanDisk (state S.Store connection.new) → HasCleanDisk (state S.Store connection.old) }
{
    read_links(
        alloc,
        connection,
        "SELECT pl_from, pl_from_namespace, pl_namespace, pl_title FROM pagelinks ORDER BY pl_from, pl_namespace, pl_title",
    )
}

fn read_templatelinks<S: Alter>(
    alloc: Global,
    connection: &mut Connection<S>,
) -> Result<Vec<LinkRow>, Error>
    ensures read { HasCleanDisk (state S.Store connection.new) → IfOk result (λ rows. IsListOf (λ tables. tables.templatelinks) (state S.Store connection.old) rows.items) }
    ensures kept { HasCleanDisk (state S.Store connection.new) → OnOk result (StillKeeps (state S.Store connection.old) (state S.Store connection.new)) }
    ensures stays { HasCleanDisk (state S.Store connection.new) → IsTrue (state S.Store connection.new).is_open → OnErr result (StillKeeps (state S.Store connection.old) (state S.Store connection.new)) }
    ensures clean { HasCleanDisk (state S.Store connection.new) → HasCleanDisk (state S.Store connection.old) }
{
    read_links(
        alloc,
        connection,
        "SELECT tl_from, tl_from_namespace, tl_namespace, tl_title FROM templatelinks ORDER BY tl_from, tl_namespace, tl_title",
    )
}

fn read_existlinks<S: Alter>(
    alloc: Global,
    connection: &mut Connection<S>,
) -> Result<Vec<LinkRow>, Error>
    ensures read { HasCleanDisk (state S.Store connection.new) → IfOk result (λ rows. IsListOf (λ tables. tables.existlinks) (state S.Store connection.old) rows.items) }
    ensures kept { HasCleanDisk (state S.Store connection.new) → OnOk result (StillKeeps (state S.Store connection.old) (state S.Store connection.new)) }
    ensures stays { HasCleanDisk (state S.Store connection.new) → IsTrue (state S.Store connection.new).is_open → OnErr result (StillKeeps (state S.Store connection.old) (state S.Store connection.new)) }
    ensures clean { HasCleanDisk (state S.Store connection.new) → HasCleanDisk (state S.Store connection.old) }
{
    read_links(
        alloc,
        connection,
        "SELECT el_from, el_from_namespace, el_namespace, el_title FROM existlinks ORDER BY el_from, el_namespace, el_title",
    )
}

/// The rows of categorylinks that the query gives, in the order of their categories.
fn read_members<S: Alter>(
    alloc: Global,
    connection: &mut Connection<S>,
    query: &str,
) -> Result<Vec<CategoryRow>, Error>
    ensures all { IsPlain (understood connection.old.schema query.now) → HasCleanDisk (state S.Store connection.new)
        → IfOk result (λ rows. ReadsSorted IsMember member_cmp query.now (state S.Store connection.old) (state S.Store connection.new) rows.items) }
    ensures refused { IsPlain (understood connection.old.schema query.now) → HasCleanDisk (state S.Store connection.new)
        → OnErr result (Rests (state S.Store connection.old) (state S.Store connection.new)) }
    ensures clean { HasCleanDisk (state S.Store connection.new) → HasCleanDisk (state S.Store connection.old) }
{
    let mut rows = read_all(alloc, connection, query)?;
    sort_members(&mut rows);
    Ok(rows)
}

fn read_categorylinks<S: Alter>(
    alloc: Global,
    connection: &mut Connection<S>,
) -> Result<Vec<CategoryRow>, Error>
    ensures read { HasCleanDisk (state S.Store connection.new) → IfOk result (λ rows. IsListOf (λ tables. tables.categorylinks) (state S.Store connection.old) rows.items) }
    ensures kept { HasCleanDisk (state S.Store connection.new) → OnOk result (StillKeeps (state S.Store connection.old) (state S.Store connection.new)) }
    ensures stays { HasCleanDisk (state S.Store connection.new) → IsTrue (state S.Store connection.new).is_open → OnErr result (StillKeeps (state S.Store connection.old) (state S.Store connection.new)) }
    ensures clean { HasCleanDisk (state S.Store connection.new) → HasCleanDisk (state S.Store connection.old) }
{
    read_members(
        alloc,
        connection,
        "SELECT cl_from, cl_to, cl_sortkey, cl_sortkey_prefix FROM categorylinks ORDER BY cl_from, cl_to",
    )
}

fn read_redirects<S: Alter>(
    alloc: Global,
    connection: &mut Connection<S>,
) -> Result<Vec<RedirectRow>, Error>
    ensures read { HasCleanDisk (state S.Store connection.new) → IfOk result (λ rows. IsListOf (λ tables. tables.redirects) (state S.Store connection.old) rows.items) }
    ensures kept { HasCleanDisk (state S.Store connection.new) → OnOk result (StillKeeps (state S.Store connection.old) (state S.Store connection.new)) }
    ensures stays { HasCleanDisk (state S.Store connection.new) → IsTrue (state S.Store connection.new).is_open → OnErr result (StillKeeps (state S.Store connection.old) (state S.Store connection.new)) }
    ensures clean { HasCleanDisk (state S.Store connection.new) → HasCleanDisk (state S.Store connection.old) }
{
    read_all(
        alloc,
        connection,
        "SELECT rd_from, rd_namespace, rd_title FROM redirect ORDER BY rd_from",
    )
}

fn read_jobs<S: Alter>(alloc: Global, connection: &mut Connection<S>) -> Result<Vec<JobRow>, Error>
    ensures read { HasCleanDisk (state S.Store connection.new) → IfOk result (λ rows. IsListOf (λ tables. tables.jobs) (state S.Store connection.old) rows.items) }
    ensures kept { HasCleanDisk (state S.Store connection.new) → OnOk result (StillKeeps (state S.Store connection.old) (state S.Store connection.new)) }
    ensures stays { HasCleanDisk (state S.Store connection.new) → IsTrue (state S.Store connection.new).is_open → OnErr result (StillKeeps (state S.Store connection.old) (state S.Store connection.new)) }
    ensures clean { HasCleanDisk (state S.Store connection.new) → HasCleanDisk (state S.Store connection.old) }
{
    read_all(
        alloc,
        connection,
        "SELECT job_id, job_cmd, job_namespace, job_title, job_params FROM job ORDER BY job_id",
    )
}

fn run_version<S: Alter>(connection: &mut Connection<S>) -> Result<Row, Error>
    ensures row { HasCleanDisk (state S.Store connection.new) → QueriesRow version_text [] (state S.Store connection.old) (state S.Store connection.new) result }
    ensures clean { HasCleanDisk (state S.Store connection.new) → HasCleanDisk (state S.Store connection.old) }
{
    connection.query_row(
        "SELECT site_value FROM site WHERE site_key = 'version'",
        &[],
    )
}

/// The number of the table site's row `version`.
fn read_version<S: Alter>(alloc: Global, connection: &mut Connection<S>) -> Result<u64, Error>
    ensures read { HasCleanDisk (state S.Store connection.new) → IfOk result (λ version. (tables : StoreTables) → Keeps (state S.Store connection.old) tables → IsInRange tables → version ≡ tables.version) }
    ensures kept { HasCleanDisk (state S.Store connection.new) → OnOk result (StillKeeps (state S.Store connection.old) (state S.Store connection.new)) }
    ensures stays { HasCleanDisk (state S.Store connection.new) → IsTrue (state S.Store connection.new).is_open → OnErr result (StillKeeps (state S.Store connection.old) (state S.Store connection.new)) }
    ensures clean { HasCleanDisk (state S.Store connection.new) → HasCleanDisk (state S.Store connection.old) }
{
    let row = run_version(connection)?;
    let value = text_at(alloc, &row, 0)?;
    let Some(version) = decimal(value.as_str().as_bytes()) else {
        return Err(Error::InvalidColumnType(0, Type::Text));
    };
    Ok(version)
}

/// The tables of these rows.
fn made(alloc: Global, rows: TableRows) -> Result<Tables, Error>
    ensures { IfOk result (λ made. made.tables ≡ rows) }
{
    Tables::from_rows(alloc, rows).map_err(no_memory)
}

/// The tables of the wiki. Each list is in the order of its first column, and then of the titles.
pub fn load_tables<S: Alter>(
    alloc: Global,
    connection: &mut Connection<S>,
    _: Permit,
) -> Result<Tables, Error>
    ensures read { HasCleanDisk (state S.Store connection.new) → IfOk result (λ loaded. (tables : StoreTables) → Keeps (state S.Store connection.old) tables → IsInRange tables → loaded.tables ≡ tables) }
    ensures kept { HasCleanDisk (state S.Store connection.new) → OnOk result (StillKeeps (state S.Store connection.old) (state S.Store connection.new)) }
    ensures stays { HasCleanDisk (state S.Store connection.new) → IsTrue (state S.Store connection.new).is_open → OnErr result (StillKeeps (state S.Store connection.old) (state S.Store connection.new)) }
{
    let pages = read_pages(alloc, connection)?;
    let revisions = read_revisions(alloc, connection)?;
    let pagelinks = read_pagelinks(alloc, connection)?;
    let templatelinks = read_templatelinks(alloc, connection)?;
    let existlinks = read_existlinks(alloc, connection)?;
    let categorylinks = read_categorylinks(alloc, connection)?;
    let redirects = read_redirects(alloc, connection)?;
    let jobs = read_jobs(alloc, connection)?;
    let version = read_version(alloc, connection)?;
    let rows = TableRows {
        pages,
        revisions,
        pagelinks,
        templatelinks,
        existlinks,
        categorylinks,
        redirects,
        jobs,
        version,
    };
    made(alloc, rows)
}

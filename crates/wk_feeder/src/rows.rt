//! The lines of the rows of a store's tables.
ghost use Rattle.std.specs.Prelude.{◌≡◌, ◌++◌, ◌∷◌, [], map, string_bytes, OnOk};
ghost use Rattle.std.specs.Fmt.{decimal};
ghost use Rattle.serde_json.specs.Data.{string};
ghost use Rattle.wk_feed_rules.specs.Feeds.{rows_of_tables};
ghost use Rattle.wk_feed_rules.specs.Lines.{link_values, of_categorylinks, of_existlinks, of_job, of_page, of_pagelinks, of_redirect, of_revision, of_site, of_templatelinks, row};
ghost use Rattle.wk_feeder.specs.Bytes.{bytes_of_values, feed_bytes};

use crate::lines::{Cell, push_line};
use std::alloc::Global;
use wk_memory::Memory;
use wk_tables::{CategoryRow, JobRow, LinkRow, PageRow, RedirectRow, RevisionRow, TableRows};

/// A table, whose rows have lines.
trait Table {
    ghost use Rattle.wk_feed_rules.specs.Lines.{TableRow};

    /// A row.
    type Row: Drop;

    /// What the line of a row says.
    ghost told: { Self.Row → TableRow };

    /// Appends the line of a row.
    fn push_row(alloc: Global, entry: &Self::Row, lines: &mut String) -> Result<(), Memory>
        ensures { OnOk result (string_bytes lines.new ≡ string_bytes lines.old ++ feed_bytes (row (told entry.now) ∷ [])) };
}

/// The table page.
struct Pages;

impl Table for Pages {
    type Row = PageRow;

    ghost told = { of_page };

    fn push_row(alloc: Global, entry: &PageRow, lines: &mut String) -> Result<(), Memory> {
        let cells = [
            Cell::Text("page"),
            Cell::Whole(entry.page_id),
            Cell::Integer(entry.page_namespace),
            Cell::Text(entry.page_title.as_str()),
            Cell::Whole(entry.page_latest),
            Cell::Whole(entry.page_len),
        ];
        push_line(alloc, &cells, lines)
    }
}

/// The table revision.
struct Revisions;

impl Table for Revisions {
    type Row = RevisionRow;

    ghost told = { of_revision };

    fn push_row(alloc: Global, entry: &RevisionRow, lines: &mut String) -> Result<(), Memory> {
        let gone = if entry.rev_gone { 1 } else { 0 };
        let cells = [
            Cell::Text("revision"),
            Cell::Whole(entry.rev_id),
            Cell::Whole(entry.rev_page),
            Cell::Whole(entry.rev_parent_id),
            Cell::Whole(entry.rev_timestamp),
            Cell::Whole(entry.rev_len),
            Cell::Whole(gone),
            Cell::Text(entry.rev_text.as_str()),
        ];
        push_line(alloc, &cells, lines)
    }
}

/// Appends the line of a row of the link table of this name.
fn push_link<'x>(
    alloc: Global,
    table: &'x str,
    entry: &'x LinkRow,
    lines: &mut String,
) -> Result<(), Memory>
    ensures { OnOk result (string_bytes lines.new ≡ string_bytes lines.old ++ bytes_of_values (string table.now ∷ link_values entry.now)) }
{
    let cells = [
        Cell::Text(table),
        Cell::Whole(entry.from),
        Cell::Integer(entry.from_namespace),
        Cell::Integer(entry.namespace),
        Cell::Text(entry.title.as_str()),
    ];
    push_line(alloc, &cells, lines)
}

/// The table pagelinks.
struct Links;

impl Table for Links {
    type Row = LinkRow;

    ghost told = { of_pagelinks };

    fn push_row(alloc: Global, entry: &LinkRow, lines: &mut String) -> Result<(), Memory> {
        push_link(alloc, "pagelinks", entry, lines)
    }
}

/// The table templatelinks.
struct Templates;

impl Table for Templates {
    type Row = LinkRow;

    ghost told = { of_templatelinks };

    fn push_row(alloc: Global, entry: &LinkRow, lines: &mut String) -> Result<(), Memory> {
        push_link(alloc, "templatelinks", entry, lines)
    }
}

/// The table existlinks.
struct Tested;

impl Table for Tested {
    type Row = LinkRow;

    ghost told = { of_existlinks };

    fn push_row(alloc: Global, entry: &LinkRow, lines: &mut String) -> Result<(), Memory> {
        push_link(alloc, "existlinks", entry, lines)
    }
}

/// The table categorylinks.
struct Categories;

impl Table for Categories {
    type Row = CategoryRow;

    ghost told = { of_categorylinks };

    fn push_row(alloc: Global, entry: &CategoryRow, lines: &mut String) -> Result<(), Memory> {
        let cells = [
            Cell::Text("categorylinks"),
            Cell::Whole(entry.cl_from),
            Cell::Text(entry.cl_to.as_str()),
            Cell::Text(entry.cl_sortkey.as_str()),
            Cell::Text(entry.cl_sortkey_prefix.as_str()),
        ];
        push_line(alloc, &cells, lines)
    }
}

/// The table redirect.
struct Redirects;

impl Table for Redirects {
    type Row = RedirectRow;

    ghost told = { of_redirect };

    fn push_row(alloc: Global, entry: &RedirectRow, lines: &mut String) -> Result<(), Memory> {
        let cells = [
            Cell::Text("redirect"),
            Cell::Whole(entry.rd_from),
            Cell::Integer(entry.rd_namespace),
            Cell::Text(entry.rd_title.as_str()),
        ];
        push_line(alloc, &cells, lines)
    }
}

/// The table job.
struct Jobs;

impl Table for Jobs {
    type Row = JobRow;

    ghost told = { of_job };

    fn push_row(alloc: Global, entry: &JobRow, lines: &mut String) -> Result<(), Memory> {
        let cells = [
            Cell::Text("job"),
            Cell::Whole(entry.job_id),
            Cell::Text(entry.job_cmd.as_str()),
            Cell::Integer(entry.job_namespace),
            Cell::Text(entry.job_title.as_str()),
            Cell::Text(entry.job_params.as_str()),
        ];
        push_line(alloc, &cells, lines)
    }
}

/// Appends the lines of these rows of a table.
#[tactic(auto, using(crate::proofs::Tables::rows_more))]
fn push_rows<T: Table>(alloc: Global, rows: &[T::Row], lines: &mut String) -> Result<(), Memory>
    ensures { OnOk result (string_bytes lines.new ≡ string_bytes lines.old ++ feed_bytes (map row (map T.told rows.now))) }
{
    'rows: for entry in rows {
        T::push_row(alloc, entry, lines)?;
    }
    Ok(())
}

/// Appends the lines of pages and revisions.
fn push_page_tables(alloc: Global, rows: &TableRows, lines: &mut String) -> Result<(), Memory>
    ensures { OnOk result (string_bytes lines.new ≡ (string_bytes lines.old
        ++ feed_bytes (map row (map of_page rows.now.pages))) ++ feed_bytes (map row (map of_revision rows.now.revisions))) }
{
    push_rows::<Pages>(alloc, &rows.pages, lines)?;
    push_rows::<Revisions>(alloc, &rows.revisions, lines)
}

/// Appends the lines of links: plain ones, inclusions, and tests of whether a page exists.
fn push_link_rows(alloc: Global, rows: &TableRows, lines: &mut String) -> Result<(), Memory>
    ensures { OnOk result (string_bytes lines.new ≡ ((string_bytes lines.old
        ++ feed_bytes (map row (map of_pagelinks rows.now.pagelinks)))
        ++ feed_bytes (map row (map of_templatelinks rows.now.templatelinks)))
        ++ feed_bytes (map row (map of_existlinks rows.now.existlinks))) }
{
    push_rows::<Links>(alloc, &rows.pagelinks, lines)?;
    push_rows::<Templates>(alloc, &rows.templatelinks, lines)?;
    push_rows::<Tested>(alloc, &rows.existlinks, lines)
}

/// Appends the lines of the tables that name titles.
fn push_link_tables(alloc: Global, rows: &TableRows, lines: &mut String) -> Result<(), Memory>
    ensures { OnOk result (string_bytes lines.new ≡ ((((string_bytes lines.old
        ++ feed_bytes (map row (map of_pagelinks rows.now.pagelinks)))
        ++ feed_bytes (map row (map of_templatelinks rows.now.templatelinks)))
        ++ feed_bytes (map row (map of_existlinks rows.now.existlinks)))
        ++ feed_bytes (map row (map of_categorylinks rows.now.categorylinks)))
        ++ feed_bytes (map row (map of_redirect rows.now.redirects))) }
{
    push_link_rows(alloc, rows, lines)?;
    push_rows::<Categories>(alloc, &rows.categorylinks, lines)?;
    push_rows::<Redirects>(alloc, &rows.redirects, lines)
}

/// Appends the line of the table site, whose one row is `version`.
fn push_version(alloc: Global, version: u64, lines: &mut String) -> Result<(), Memory>
    ensures { OnOk result (string_bytes lines.new ≡ string_bytes lines.old ++ feed_bytes (row (of_site (decimal version)) ∷ [])) }
{
    let number = version.to_string(alloc)?;
    let cells = [
        Cell::Text("site"),
        Cell::Text("version"),
        Cell::Text(number.as_str()),
    ];
    push_line(alloc, &cells, lines)
}

/// Appends the lines of the rows of all tables, table by table and each in its order.
#[tactic(auto, using(crate::proofs::Tables::all_tables))]
pub fn push_tables(alloc: Global, rows: &TableRows, lines: &mut String) -> Result<(), Memory>
    ensures { OnOk result (string_bytes lines.new ≡ string_bytes lines.old ++ feed_bytes (map row (rows_of_tables rows.now))) }
{
    push_page_tables(alloc, rows, lines)?;
    push_link_tables(alloc, rows, lines)?;
    push_rows::<Jobs>(alloc, &rows.jobs, lines)?;
    push_version(alloc, rows.version, lines)
}

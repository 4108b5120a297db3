//! The rule of the link tables and the redirect table.
ghost use Rattle.std.specs.Prelude.{◌≡◌, ◌+◌, ◌<◌, None, nat_lt, IfOk, length, option_map, slice_index_or, take};
ghost use Rattle.wk_table_rules.specs.Rows.{LinkColumns, CategoryColumns, RedirectColumns, category_title};
ghost use Rattle.wk_table_rules.specs.GoodStore.{first_bad, first_in_tables, has_good_id, is_good_category, is_good_link, is_good_redirect, judged_links, row_lt};
ghost use Rattle.wk_good_rows.specs.FromPage.{is_from_page};
ghost use Rattle.wk_good_rows.specs.Order.{IsInOrder};

use crate::normals::Normals;
use crate::number::{has_page, page_place, row_number};
use crate::order::is_behind;
use std::alloc::Global;
use wk_memory::Memory;
use wk_table_rows::{CategoryRow, LinkRow, RedirectRow, TableRows};
use wk_title::CATEGORY;

/// Whether the row is of a page, whose namespace it has.
fn is_from_page(tables: &TableRows, row: &LinkRow) -> bool
    requires { first_bad has_good_id tables.now.pages ≡ None }
    ensures { result ≡ is_from_page tables.now row.now }
{
    if !has_page(&tables.pages, row.from) {
        return false;
    }
    let place = page_place(tables.pages.len(), row.from);
    row.from_namespace == tables.pages[place].page_namespace
}

/// Whether the row at this place is of a page, whose namespace it has, its target is a title that a page can have, and
/// it stands behind all before it.
fn is_good_link(
    alloc: Global,
    normals: &mut Normals,
    tables: &TableRows,
    rows: &[LinkRow],
    place: usize,
) -> Result<bool, Memory>
    requires ids { first_bad has_good_id tables.now.pages ≡ None }
    requires within { place < length rows.now }
    requires order { IsInOrder (λ a b. row_lt a.from a.target b.from b.target) rows.now place }
    ensures { IfOk result (λ good. (row : LinkColumns) → row ≡ slice_index_or rows.now place row → good ≡ is_good_link tables.now (take place rows.now) row) }
{
    let row = &rows[place];
    if !is_from_page(tables, row) || !is_behind(rows, place) {
        return Ok(false);
    }
    normals.is_page_title(alloc, row.namespace, &row.title)
}

/// Whether the row at this place is of a page, its category is a normal title, and it stands behind all before it.
fn is_good_category(
    alloc: Global,
    normals: &mut Normals,
    tables: &TableRows,
    rows: &[CategoryRow],
    place: usize,
) -> Result<bool, Memory>
    requires ids { first_bad has_good_id tables.now.pages ≡ None }
    requires within { place < length rows.now }
    requires order { IsInOrder (λ a b. row_lt a.cl_from (category_title a.cl_to) b.cl_from (category_title b.cl_to)) rows.now place }
    ensures { IfOk result (λ good. (row : CategoryColumns) → row ≡ slice_index_or rows.now place row → good ≡ is_good_category tables.now (take place rows.now) row) }
{
    let row = &rows[place];
    if !has_page(&tables.pages, row.cl_from) || !is_behind(rows, place) {
        return Ok(false);
    }
    normals.is_normal(alloc, i64::from(CATEGORY), &row.cl_to)
}

/// Whether the row at this place is of a page that is above those of all rows before it, and its target is a title that
/// a page can have.
fn is_good_redirect(
    alloc: Global,
    normals: &mut Normals,
    tables: &TableRows,
    rows: &[RedirectRow],
    place: usize,
) -> Result<bool, Memory>
    requires ids { first_bad has_good_id tables.now.pages ≡ None }
    requires within { place < length rows.now }
    requires order { IsInOrder (λ a b. nat_lt a.rd_from b.rd_from) rows.now place }
    ensures { IfOk result (λ good. (row : RedirectColumns) → row ≡ slice_index_or rows.now place row → good ≡ is_good_redirect tables.now (take place rows.now) row) }
{
    let row = &rows[place];
    if !has_page(&tables.pages, row.rd_from) || !is_behind(rows, place) {
        return Ok(false);
    }
    normals.is_page_title(alloc, row.rd_namespace, &row.rd_title)
}

/// The first row of a link table that isn't good.
fn bad_link(
    alloc: Global,
    normals: &mut Normals,
    tables: &TableRows,
    rows: &[LinkRow],
) -> Result<Option<u64>, Memory>
    requires { first_bad has_good_id tables.now.pages ≡ None }
    ensures { IfOk result (λ bad. bad ≡ first_bad (is_good_link tables.now) rows.now) }
{
    for i in 0..rows.len() {
        if !is_good_link(alloc, normals, tables, rows, i)? {
            return Ok(Some(row_number(i)));
        }
    }
    Ok(None)
}

/// The first row of categorylinks that isn't good.
fn bad_category(
    alloc: Global,
    normals: &mut Normals,
    tables: &TableRows,
    rows: &[CategoryRow],
) -> Result<Option<u64>, Memory>
    requires { first_bad has_good_id tables.now.pages ≡ None }
    ensures { IfOk result (λ bad. bad ≡ first_bad (is_good_category tables.now) rows.now) }
{
    for i in 0..rows.len() {
        if !is_good_category(alloc, normals, tables, rows, i)? {
            return Ok(Some(row_number(i)));
        }
    }
    Ok(None)
}

/// The first row of redirect that isn't good.
fn bad_redirect(
    alloc: Global,
    normals: &mut Normals,
    tables: &TableRows,
    rows: &[RedirectRow],
) -> Result<Option<u64>, Memory>
    requires { first_bad has_good_id tables.now.pages ≡ None }
    ensures { IfOk result (λ bad. bad ≡ first_bad (is_good_redirect tables.now) rows.now) }
{
    for i in 0..rows.len() {
        if !is_good_redirect(alloc, normals, tables, rows, i)? {
            return Ok(Some(row_number(i)));
        }
    }
    Ok(None)
}

/// The row behind so many others, where its number is one of the machine's.
fn behind(rows: usize, row: Option<u64>) -> Result<Option<u64>, Memory>
    ensures { IfOk result (λ behind. behind ≡ option_map (λ row. rows + row) row) }
{
    match row {
        Some(row) => match row.checked_add(rows as u64) {
            Some(row) => Ok(Some(row)),
            None => Err(Memory),
        },
        None => Ok(None),
    }
}

/// The first bad row of several tables, whose rows are counted one after the other, where its number is one of the
/// machine's.
fn first_in_tables(tables: &[(usize, Option<u64>)]) -> Result<Option<u64>, Memory>
    ensures { IfOk result (λ bad. bad ≡ first_in_tables tables.now) }
{
    let mut rows: usize = 0;
    for table in tables {
        if table.1.is_some() {
            return behind(rows, table.1);
        }
        let Some(more) = rows.checked_add(table.0) else {
            return Err(Memory);
        };
        rows = more;
    }
    Ok(None)
}

/// The first bad row of the link tables and the redirect table, whose rows are counted one after the other.
pub fn bad_link_row(alloc: Global, tables: &TableRows) -> Result<Option<u64>, Memory>
    requires { first_bad has_good_id tables.now.pages ≡ None }
    ensures { IfOk result (λ bad. bad ≡ first_in_tables (judged_links tables.now)) }
{
    let mut normals = Normals::new(alloc);
    let normals = &mut normals;
    let pagelink = bad_link(alloc, normals, tables, &tables.pagelinks)?;
    let templatelink = bad_link(alloc, normals, tables, &tables.templatelinks)?;
    let existlink = bad_link(alloc, normals, tables, &tables.existlinks)?;
    let category = bad_category(alloc, normals, tables, &tables.categorylinks)?;
    let redirect = bad_redirect(alloc, normals, tables, &tables.redirects)?;
    let judged = [
        (tables.pagelinks.len(), pagelink),
        (tables.templatelinks.len(), templatelink),
        (tables.existlinks.len(), existlink),
        (tables.categorylinks.len(), category),
        (tables.redirects.len(), redirect),
    ];
    first_in_tables(&judged)
}

//! The rows of a page, out of the tables of a store.
ghost use Rattle.std.specs.Prelude.{◌≡◌, ◌≤◌, ◌==◌, true, nat_lt, nat_le, map, filter, slice_get, IfOk, OnOk};
ghost use Rattle.std.specs.List.{All};
ghost use Rattle.std.specs.Option.{option_map};
ghost use Rattle.std.specs.List.Sorted.{IsNonDecreasingBy};
ghost use Rattle.wk_text_rules.specs.Titles.{is_normal};
ghost use Rattle.wk_table_rules.specs.Rows.{category_title};
ghost use Rattle.wk_table_rules.specs.Stored.{member_of, rows_of_page};
ghost use Rattle.wk_table_rows.specs.Members.{member_of as member_of_triple};
ghost use Rattle.wk_index.specs.Gathered.{AreAllTitled, GathersRows, GrowsAll};
ghost use Rattle.wk_index.specs.Loadable.{AreLoadable};
ghost use Rattle.wk_index.specs.Places.{AreTitled, GathersTitles, Grows};

use crate::gathered::{Gathered, push_members};
use crate::pages_by_title::{PagesByTitle, add_page};
use crate::title_map::TitleMap;
use std::alloc::Global;
use wk_bytes::Text;
use wk_memory::Memory;
use wk_table_rows::{CategoryRow, LinkRow, Numbered, PageRows, RedirectRow, Share, TableRows};
use wk_title::{CATEGORY, Title};

/// The rows of the page, among rows in the order of their pages.
fn own_rows<T: Numbered>(rows: &[T], page: u64) -> &[T]
    requires { IsNonDecreasingBy T.number rows.now }
    ensures { result.now ≡ filter (λ row. T.number row == page) rows.now }
{
    let start = rows.partition_point(
        |row: &T| -> bool
            ensures { result ≡ nat_lt (T.number row.now) page }
        { row.number() < page },
    );
    let end = rows.partition_point(
        |row: &T| -> bool
            ensures { result ≡ nat_le (T.number row.now) page }
        { row.number() <= page },
    );
    &rows[start..end]
}

/// The titles that the rows name. From now on the page is found by them.
fn targets(
    alloc: Global,
    made: &mut TitleMap,
    gathered: &mut PagesByTitle,
    rows: &[LinkRow],
    page: u32,
) -> Result<Vec<Title>, Memory>
    requires normal { All (λ row. is_normal row.target ≡ true) rows.now }
    requires titled { AreTitled gathered.old }
    ensures titles { IfOk result (λ titles. titles.items ≡ map (λ row. row.target) rows.now) }
    ensures there { IfOk result (λ titles. GathersTitles titles.items page gathered.new) }
    ensures kept { Grows gathered.old gathered.new }
    ensures titled { AreTitled gathered.new }
{
    let mut titles = Vec::with_capacity(alloc, rows.len())?;
    for row in rows {
        let title = add_page(alloc, gathered, made, row.namespace, &row.title, page)?;
        titles.push(title)?;
    }
    Ok(titles)
}

/// The category of the row, the sort key and the prefix.
fn member(
    alloc: Global,
    made: &mut TitleMap,
    row: &CategoryRow,
) -> Result<(Title, Text, Text), Memory>
    requires { is_normal (category_title row.now.cl_to) ≡ true }
    ensures { IfOk result (λ member. member_of_triple member ≡ member_of row.now) }
{
    let category = made.title(alloc, i64::from(CATEGORY), &row.cl_to)?;
    let sortkey = row.cl_sortkey.share()?;
    let prefix = row.cl_sortkey_prefix.share()?;
    Ok((category, sortkey, prefix))
}

/// The categories of the rows.
fn members(
    alloc: Global,
    made: &mut TitleMap,
    rows: &[CategoryRow],
) -> Result<Vec<(Title, Text, Text)>, Memory>
    requires { All (λ row. is_normal (category_title row.cl_to) ≡ true) rows.now }
    ensures { IfOk result (λ members. map member_of_triple members.items ≡ map member_of rows.now) }
{
    let mut members = Vec::with_capacity(alloc, rows.len())?;
    for row in rows {
        members.push(member(alloc, made, row)?)?;
    }
    Ok(members)
}

/// The title that the first row names.
fn redirect(
    alloc: Global,
    made: &mut TitleMap,
    rows: &[RedirectRow],
) -> Result<Option<Title>, Memory>
    requires { All (λ row. is_normal row.rd_title ≡ true) rows.now }
    ensures { IfOk result (λ title. title ≡ option_map (λ row. row.rd_title) (slice_get rows.now 0)) }
{
    match rows.first() {
        Some(row) => Ok(Some(made.title(alloc, row.rd_namespace, &row.rd_title)?)),
        None => Ok(None),
    }
}

/// The rows of the page. Their titles are shared with those that were made for the rows of other pages, and from now on
/// the page is found by its rows under this number.
pub fn page_rows(
    alloc: Global,
    made: &mut TitleMap,
    gathered: &mut Gathered,
    tables: &TableRows,
    page: u64,
    number: u32,
) -> Result<PageRows, Memory>
    requires loadable { AreLoadable tables.now }
    requires titled { AreAllTitled gathered.old }
    ensures rows { IfOk result (λ rows. rows ≡ rows_of_page tables.now page) }
    ensures there { OnOk result (GathersRows (rows_of_page tables.now page) number gathered.new) }
    ensures kept { GrowsAll gathered.old gathered.new }
    ensures titled { AreAllTitled gathered.new }
{
    let templates = own_rows(&tables.templatelinks, page);
    let exists = own_rows(&tables.existlinks, page);
    let links = own_rows(&tables.pagelinks, page);
    let templates = targets(alloc, made, &mut gathered.included, templates, number)?;
    let exists = targets(alloc, made, &mut gathered.tested, exists, number)?;
    let links = targets(alloc, made, &mut gathered.linked, links, number)?;
    let members = members(alloc, made, own_rows(&tables.categorylinks, page))?;
    let redirect = redirect(alloc, made, own_rows(&tables.redirects, page))?;
    push_members(&mut gathered.members, &members, number)?;
    Ok(PageRows {
        templates,
        exists,
        links,
        members,
        redirect,
    })
}

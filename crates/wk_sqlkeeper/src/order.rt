//! The order of rows of the link tables: by the page, and then by the title that is linked to.
ghost use Rattle.std.specs.Prelude.{◌≡◌};
ghost use Rattle.std.specs.List.Sorted.{IsPermutation, IsSorted};
ghost use Rattle.wk_sqltables.specs.Held.{link_cmp, member_cmp};

use std::cmp::Ordering;
use wk_tables::{CategoryRow, LinkRow};

/// By the page, and then by the title.
fn compare_links(a: &LinkRow, b: &LinkRow) -> Ordering
    ensures { result ≡ link_cmp a.now b.now }
{
    let namespaces = a.namespace.cmp(&b.namespace);
    let titles = a.title.cmp(&b.title);
    a.from.cmp(&b.from).then(namespaces).then(titles)
}

/// By the page, and then by the title of the category.
fn compare_members(a: &CategoryRow, b: &CategoryRow) -> Ordering
    ensures { result ≡ member_cmp a.now b.now }
{
    a.cl_from.cmp(&b.cl_from).then(a.cl_to.cmp(&b.cl_to))
}

/// Puts the rows of a link table into their order. Takes no memory.
pub fn sort_links(rows: &mut Vec<LinkRow>)
    ensures same { IsPermutation rows.old.items rows.new.items }
    ensures sorted { IsSorted link_cmp rows.new.items }
{
    rows.sort_unstable_by(|a, b| compare_links(a, b));
}

/// Puts the rows of the table categorylinks into their order. Takes no memory.
pub fn sort_members(rows: &mut Vec<CategoryRow>)
    ensures same { IsPermutation rows.old.items rows.new.items }
    ensures sorted { IsSorted member_cmp rows.new.items }
{
    rows.sort_unstable_by(|a, b| compare_members(a, b));
}

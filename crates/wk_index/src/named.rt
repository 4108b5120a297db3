//! The pages that are found by a title: the titles in order, and the pages of each, which rise.
ghost use Rattle.std.specs.Prelude.{◌≡◌, ℕ, true, filter, take, IfOk, None, OnOk};
ghost use Rattle.std.specs.BTreeMap.{get};
ghost use Rattle.std.specs.BTreeSet.{IsFromIterResult};
ghost use Rattle.std.specs.List.Sorted.{IsStrictlySortedBy};
ghost use Rattle.std.specs.List.{list_any};
ghost use Rattle.std.specs.Ordering.{nat_cmp};
ghost use Rattle.wk_text_rules.specs.Titles.{PageTitle, title_cmp, title_eq};
ghost use Rattle.wk_index.specs.Named.{Finds, FindsBy, Kept, Spares, SparesAt, has, is_above, is_in, kind_of, listed, page_lists};

use crate::lookup::Lookup;
use crate::shared_rows::SharedRows;
use std::alloc::Global;
use std::collections::{BTreeMap, BTreeSet};
use std::ops::Bound;
use wk_memory::Memory;
use wk_page_rules::Reach;
use wk_table_rows::PageRows;
use wk_title::Title;

/// Which rows a page is found by.
#[derive(Clone, Copy, PartialEq, Eq)]
pub enum Kind {
    /// The titles that it includes.
    Included,
    /// The titles that it includes, and those whose existence it tests.
    Mentioned,
    /// The titles that it links to.
    Linked,
}

/// Titles, each with the pages that are found by it.
pub type Named = BTreeMap<Title, BTreeSet<u32>>;

/// The kind of rows that count under the reach.
pub fn kind_of(reach: Reach) -> Kind
    ensures { result ≡ kind_of reach }
{
    match reach {
        Reach::Text => Kind::Included,
        Reach::Both => Kind::Mentioned,
    }
}

/// Whether the page is there, and its rows have the title.
fn page_has_title(stored: &[SharedRows], page: u32, title: &Title, kind: Kind) -> bool
    ensures { result ≡ page_lists kind stored.now title.now page }
{
    if page == 0 {
        return false;
    }
    match stored.get(page as usize - 1) {
        Some(rows) => Lookup::once(rows.rows()).has(title, kind),
        None => false,
    }
}

/// The pages as a set.
pub fn set_of(alloc: Global, pages: &[u32]) -> Result<BTreeSet<u32>, Memory>
    ensures { IfOk result (λ set. IsFromIterResult nat_cmp pages.now set) }
{
    let set = pages.iter().copied().collect(alloc)?;
    Ok(set)
}

/// Finds the pages by a title that no page is found by.
pub fn add_set(named: &mut Named, title: &Title, pages: BTreeSet<u32>) -> Result<(), Memory>
    requires { get title_cmp named.old title.now ≡ None }
    ensures there { OnOk result ((page : ℕ) → is_in page pages.keys ≡ true → has named.new title.now page ≡ true) }
    ensures kept { Kept named.old named.new }
{
    let title = title.share()?;
    named.insert(title, pages)?;
    Ok(())
}

/// Finds the page by a title that no page is found by.
fn add_first(alloc: Global, named: &mut Named, title: &Title, page: u32) -> Result<(), Memory>
    requires { get title_cmp named.old title.now ≡ None }
    ensures there { OnOk result (has named.new title.now page ≡ true) }
    ensures kept { Kept named.old named.new }
{
    let pages = set_of(alloc, &[page])?;
    add_set(named, title, pages)?;
    Ok(())
}

/// Finds the page by the title.
fn add_title(alloc: Global, named: &mut Named, title: &Title, page: u32) -> Result<(), Memory>
    ensures there { OnOk result (has named.new title.now page ≡ true) }
    ensures kept { Kept named.old named.new }
{
    match named.get_mut(title) {
        Some(pages) => {
            pages.insert(page)?;
            Ok(())
        }
        None => add_first(alloc, named, title, page),
    }
}

/// Finds the page by the titles.
fn add_titles(alloc: Global, named: &mut Named, titles: &[Title], page: u32) -> Result<(), Memory>
    ensures there { OnOk result ((title : PageTitle) → list_any (title_eq title) titles.now ≡ true → has named.new title page ≡ true) }
    ensures kept { Kept named.old named.new }
{
    for title in titles {
        add_title(alloc, named, title, page)?;
    }
    Ok(())
}

/// Finds the page by the titles that its rows have.
pub fn add_rows(named: &mut Named, rows: &PageRows, page: u32, kind: Kind) -> Result<(), Memory>
    ensures there { OnOk result (FindsBy kind rows.now page named.new) }
    ensures kept { Kept named.old named.new }
{
    let alloc = *rows.templates.allocator();
    match kind {
        Kind::Included => add_titles(alloc, named, &rows.templates, page),
        Kind::Mentioned => {
            add_titles(alloc, named, &rows.templates, page)?;
            add_titles(alloc, named, &rows.exists, page)
        }
        Kind::Linked => add_titles(alloc, named, &rows.links, page),
    }
}

/// Finds the pages by the title, one after the other.
fn add_each(alloc: Global, named: &mut Named, title: &Title, pages: &[u32]) -> Result<(), Memory>
    ensures there { OnOk result ((page : ℕ) → is_in page pages.now ≡ true → has named.new title.now page ≡ true) }
    ensures kept { Kept named.old named.new }
{
    for page in pages {
        add_title(alloc, named, title, *page)?;
    }
    Ok(())
}

/// Finds the pages by the title: those of a title that isn't there yet all at once.
pub fn add_pages(
    alloc: Global,
    named: &mut Named,
    title: &Title,
    pages: &[u32],
) -> Result<(), Memory>
    ensures there { OnOk result ((page : ℕ) → is_in page pages.now ≡ true → has named.new title.now page ≡ true) }
    ensures kept { Kept named.old named.new }
{
    if named.contains_key(title) {
        return add_each(alloc, named, title, pages);
    }
    let pages = set_of(alloc, pages)?;
    add_set(named, title, pages)?;
    Ok(())
}

/// Finds the page no longer by the title. Takes no memory.
fn drop_page(named: &mut Named, title: &Title, page: u32)
    ensures { SparesAt title.now page named.old named.new }
{
    if let Some(pages) = named.get_mut(title) {
        pages.remove(&page);
    }
}

/// Takes the title away, where no page is found by it. Takes no memory.
fn drop_if_empty(named: &mut Named, title: &Title)
    ensures { Kept named.old named.new }
{
    let Some(pages) = named.get(title) else {
        return;
    };
    if pages.is_empty() {
        named.remove(title);
    }
}

/// Finds the page no longer by the title, where its rows don't have the title. Takes no memory.
pub fn drop_key(named: &mut Named, title: &Title, page: u32, rows: &Lookup<'_>, kind: Kind)
    ensures { Spares kind rows.now page named.old named.new }
{
    if !rows.has(title, kind) {
        drop_page(named, title, page);
        drop_if_empty(named, title);
    }
}

/// Finds the page no longer by those of the titles that its rows don't have. Takes no memory.
pub fn drop_titles(named: &mut Named, titles: Vec<Title>, page: u32, rows: &Lookup<'_>, kind: Kind)
    ensures { Spares kind rows.now page named.old named.new }
{
    for title in titles {
        drop_key(named, &title, page, rows, kind);
    }
}

/// Those of the pages above a number whose rows have the title, rising, at most so many.
fn pages_above(
    alloc: Global,
    pages: &BTreeSet<u32>,
    stored: &[SharedRows],
    title: &Title,
    kind: Kind,
    above: u32,
    most: usize,
) -> Result<Vec<u32>, Memory>
    ensures pages { IfOk result (λ found. found.items ≡ take most (filter (page_lists kind stored.now title.now) (filter (is_above above) pages.now.keys))) }
    ensures ordered { IsStrictlySortedBy nat_cmp pages.now.keys }
{
    let found = pages
        .range((Bound::Excluded(above), Bound::Unbounded))
        .copied()
        .filter(|page| page_has_title(stored, *page, title, kind))
        .take(most)
        .collect(alloc)?;
    Ok(found)
}

/// The pages above a number whose rows have the title, rising, at most so many.
pub fn pages(
    alloc: Global,
    named: &Named,
    stored: &[SharedRows],
    title: &Title,
    kind: Kind,
    above: u32,
    most: usize,
) -> Result<Vec<u32>, Memory>
    requires found { Finds kind stored.now named.now }
    ensures { IfOk result (λ pages. pages.items ≡ listed kind stored.now title.now above most) }
{
    let Some(pages) = named.get(title) else {
        return Ok(Vec::new(alloc));
    };
    let found = pages_above(alloc, pages, stored, title, kind, above, most)?;
    Ok(found)
}

//! The listings of pages by their links (MediaWiki's API:Backlinks and API:Embeddedin; that they go on above a page's
//! number is own).
ghost use Rattle.std.specs.Prelude.{◌≡◌, ◌≤◌, ◌-◌, ◌^◌, get_or, nat_lt, if◌then◌else◌, IfOk, map};
ghost use Rattle.serde_json.specs.View.{view};
ghost use Rattle.wk_page_rules.specs.declared.Reach.TheVariants.{Text};
ghost use Rattle.wk_wiki_rules.specs.Users.{users};
ghost use Rattle.wk_wiki_rules.specs.Links.{linking_pages};
ghost use Rattle.wk_request.specs.Asked.{listing_of};
ghost use Rattle.wk_answer_rules.specs.Lists.{backlinks_answer, backlinks_of, embedded_answer, embedding_of, page_entries, pages_listed};
ghost use Rattle.wk_answer_rules.specs.Values.{array_of, object_of};
ghost use Rattle.wk_listings.specs.Replied.{state_with, value_at};

use crate::entries::title_of;
use crate::fails::invalid_title;
use crate::taken::{first, last_page, one_more};
use serde_json::Value;
use std::alloc::Global;
use wk_index::Index;
use wk_memory::Memory;
use wk_page_rules::Reach;
use wk_replies::{array_value, listed, page_entry};
use wk_request::Listing;
use wk_revs::Revs;
use wk_title::{Title, named};

/// The entry of the page with this number.
fn told(alloc: Global, revs: &Revs, page: u32) -> Result<Value, Memory>
    ensures { IfOk result (λ v. view v ≡ object_of (page_entries revs.now.history page)) }
{
    match title_of(revs, page) {
        Some(title) => page_entry(alloc, page, title),
        // Each page that is listed is there.
        None => Err(Memory),
    }
}

/// The entries of the pages with these numbers.
fn told_all(alloc: Global, revs: &Revs, pages: &[u32]) -> Result<Value, Memory>
    ensures { IfOk result (λ v. view v ≡ array_of (map (λ page. object_of (page_entries revs.now.history page)) pages.now)) }
{
    let mut values = Vec::new(alloc);
    for page in pages {
        values.push(told(alloc, revs, *page)?)?;
    }
    Ok(array_value(values))
}

/// The reply that lists so many of these pages.
fn listed_pages(
    alloc: Global,
    name: &str,
    revs: &Revs,
    pages: &[u32],
    limit: usize,
    point: u64,
) -> Result<Value, Memory>
    ensures { IfOk result (λ v. view v ≡ value_at point (pages_listed name.now revs.now.history limit pages.now)) }
{
    let list = told_all(alloc, revs, first(pages, limit))?;
    listed(alloc, name, last_page(pages, limit), list, point)
}

/// A page's number that is as good as this one: no page has a number of 2^32 or more.
fn page_above(above: u64) -> u32
    ensures { result ≡ (if nat_lt above (2 ^ 32) then above else 2 ^ 32 - 1) }
{
    u32::try_from(above).unwrap_or(u32::MAX)
}

/// Numbers of pages have 32 bits. Does nothing.
fn pages_fit(pages: &[u32])
    ensures { get_or pages.now 0 0 ≤ 2 ^ 32 - 1 }
{
    if let Some(page) = pages.first() {
        let _page = *page;
    }
}

/// The pages above a number that link to the title, at most so many.
fn linking_pages(index: &Index, title: &Title, above: u64, most: usize) -> Result<Vec<u32>, Memory>
    ensures { IfOk result (λ pages. pages.items ≡ linking_pages index.now.stored title.now above most) }
{
    let pages = index.linking_pages(title, page_above(above), most)?;
    pages_fit(&pages);
    Ok(pages)
}

/// The pages above a number that include the title, at most so many.
fn including_pages(
    index: &Index,
    title: &Title,
    above: u64,
    most: usize,
) -> Result<Vec<u32>, Memory>
    ensures { IfOk result (λ pages. pages.items ≡ users index.now.stored title.now Text above most) }
{
    let pages = index.users(title, Reach::Text, page_above(above), most)?;
    pages_fit(&pages);
    Ok(pages)
}

/// The pages that link to a title.
fn backlinks_of(
    alloc: Global,
    revs: &Revs,
    index: &Index,
    listing: &Listing,
    title: &Title,
    point: u64,
) -> Result<Value, Memory>
    ensures { IfOk result (λ v. view v
        ≡ value_at point (backlinks_of (state_with revs.now.history index.now.stored) (listing_of listing.now) title.now)) }
{
    let limit = listing.limit;
    let most = one_more(limit)?;
    let pages = linking_pages(index, title, listing.from.unwrap_or(0), most)?;
    listed_pages(alloc, "backlinks", revs, &pages, limit, point)
}

/// The pages that link to the title that a text names: an error where it names none.
pub fn backlinks(
    alloc: Global,
    revs: &Revs,
    index: &Index,
    listing: &Listing,
    point: u64,
) -> Result<Value, Memory>
    ensures { IfOk result (λ v. view v
        ≡ value_at point (backlinks_answer (state_with revs.now.history index.now.stored) (listing_of listing.now))) }
{
    match named(alloc, &listing.title, 0)? {
        None => invalid_title(alloc, point),
        Some(title) => backlinks_of(alloc, revs, index, listing, &title, point),
    }
}

/// The pages that include a title.
fn embedding_of(
    alloc: Global,
    revs: &Revs,
    index: &Index,
    listing: &Listing,
    title: &Title,
    point: u64,
) -> Result<Value, Memory>
    ensures { IfOk result (λ v. view v
        ≡ value_at point (embedding_of (state_with revs.now.history index.now.stored) (listing_of listing.now) title.now)) }
{
    let limit = listing.limit;
    let most = one_more(limit)?;
    let pages = including_pages(index, title, listing.from.unwrap_or(0), most)?;
    listed_pages(alloc, "embeddedin", revs, &pages, limit, point)
}

/// The pages that include the title that a text names: an error where it names none.
pub fn embedded(
    alloc: Global,
    revs: &Revs,
    index: &Index,
    listing: &Listing,
    point: u64,
) -> Result<Value, Memory>
    ensures { IfOk result (λ v. view v
        ≡ value_at point (embedded_answer (state_with revs.now.history index.now.stored) (listing_of listing.now))) }
{
    match named(alloc, &listing.title, 0)? {
        None => invalid_title(alloc, point),
        Some(title) => embedding_of(alloc, revs, index, listing, &title, point),
    }
}

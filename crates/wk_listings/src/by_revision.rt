//! The listings of revisions (MediaWiki's API:RecentChanges and API:Revisions; that they go on below a number is own).
ghost use Rattle.std.specs.Prelude.{◌≡◌, ◌+◌, [], IfOk, codes};
ghost use Rattle.serde_json.specs.View.{view};
ghost use Rattle.wk_wiki_rules.specs.Revisions.{page_revisions_below};
ghost use Rattle.wk_request.specs.Asked.{listing_of};
ghost use Rattle.wk_answer_rules.specs.Lists.{below, changes_answer, revision_entries, revisions_answer, revisions_listed, revisions_of};
ghost use Rattle.wk_listings.specs.Replied.{state_with, value_at};

use crate::entries::{Shape, listed_revisions};
use crate::fails::{invalid_title, missing_title};
use crate::numbers::{Owner, numbers_below};
use crate::taken::one_more;
use serde_json::Value;
use std::alloc::Global;
use wk_memory::Memory;
use wk_request::Listing;
use wk_revs::Revs;
use wk_title::{Title, named};

/// The number that the listing begins below.
fn end(revs: &Revs, listing: &Listing) -> u64
    ensures { result ≡ below revs.now.history (listing_of listing.now) }
{
    match listing.from {
        Some(number) => number,
        None => revs.next_revision(),
    }
}

/// The changes of all pages, the newest first.
pub fn changes(alloc: Global, revs: &Revs, listing: &Listing, point: u64) -> Result<Value, Memory>
    ensures { IfOk result (λ v. view v
        ≡ value_at point (changes_answer (state_with revs.now.history []) (listing_of listing.now))) }
{
    let limit = listing.limit;
    let most = one_more(limit)?;
    let numbers = numbers_below(alloc, revs, Owner::Every, end(revs, listing), most)?;
    listed_revisions(
        alloc,
        "recentchanges",
        revs,
        &numbers,
        Shape::Change,
        limit,
        point,
    )
}

/// The revisions of the page with this number, deletions among them, the newest first; with their texts where that is
/// asked for.
fn revisions_of_page(
    alloc: Global,
    revs: &Revs,
    listing: &Listing,
    content: bool,
    page: u32,
    point: u64,
) -> Result<Value, Memory>
    ensures { IfOk result (λ v. view v
        ≡ value_at point (revisions_listed (codes "revisions") (revision_entries content) listing.now.limit
        (page_revisions_below revs.now.history page (below revs.now.history (listing_of listing.now)) (listing.now.limit + 1)))) }
{
    let limit = listing.limit;
    let most = one_more(limit)?;
    let numbers = numbers_below(alloc, revs, Owner::OfPage(page), end(revs, listing), most)?;
    let shape = Shape::OfItsPage(content);
    listed_revisions(alloc, "revisions", revs, &numbers, shape, limit, point)
}

/// The revisions of a title's page: an error where the title was never saved.
fn revisions_of(
    alloc: Global,
    revs: &Revs,
    listing: &Listing,
    content: bool,
    title: &Title,
    point: u64,
) -> Result<Value, Memory>
    ensures { IfOk result (λ v. view v
        ≡ value_at point (revisions_of revs.now.history (listing_of listing.now) content title.now)) }
{
    match revs.page(title) {
        None => missing_title(alloc, point),
        Some(page) => revisions_of_page(alloc, revs, listing, content, page, point),
    }
}

/// The revisions of the page that a text names: an error where it names no title, or one that was never saved.
pub fn revisions(
    alloc: Global,
    revs: &Revs,
    listing: &Listing,
    content: bool,
    point: u64,
) -> Result<Value, Memory>
    ensures { IfOk result (λ v. view v
        ≡ value_at point (revisions_answer (state_with revs.now.history []) (listing_of listing.now) content)) }
{
    match named(alloc, &listing.title, 0)? {
        None => invalid_title(alloc, point),
        Some(title) => revisions_of(alloc, revs, listing, content, &title, point),
    }
}

//! The listing of a category's members (MediaWiki's API:Categorymembers; that it goes on behind so many is own).
ghost use Rattle.std.specs.Prelude.{◌≡◌, IfOk, map};
ghost use Rattle.serde_json.specs.View.{view};
ghost use Rattle.wk_request.specs.Asked.{listing_of};
ghost use Rattle.wk_answer_rules.specs.Lists.{member_entries, members_answer, members_listed, members_of, members_passed};
ghost use Rattle.wk_answer_rules.specs.Values.{array_of, object_of};
ghost use Rattle.wk_listings.specs.Replied.{state_with, value_at};

use crate::entries::title_of;
use crate::fails::{invalid_category, invalid_title};
use crate::taken::{first, one_more};
use serde_json::Value;
use std::alloc::Global;
use wk_index::{Index, MemberPage};
use wk_memory::Memory;
use wk_replies::{array_value, listed, member_entry};
use wk_request::Listing;
use wk_revs::Revs;
use wk_title::{CATEGORY, Title, named};

/// The entry of a member.
fn told(alloc: Global, revs: &Revs, member: &MemberPage) -> Result<Value, Memory>
    ensures { IfOk result (λ v. view v ≡ object_of (member_entries revs.now.history member.now)) }
{
    match title_of(revs, member.page) {
        Some(title) => member_entry(alloc, member, title),
        // The page of each member is there.
        None => Err(Memory),
    }
}

/// The entries of these members.
fn told_all(alloc: Global, revs: &Revs, members: &[MemberPage]) -> Result<Value, Memory>
    ensures { IfOk result (λ v. view v
        ≡ array_of (map (λ member. object_of (member_entries revs.now.history member)) members.now)) }
{
    let mut values = Vec::new(alloc);
    for member in members {
        values.push(told(alloc, revs, member)?)?;
    }
    Ok(array_value(values))
}

/// How many members were passed over so far, where more was found.
fn passed_so_far(passed: u64, limit: usize, found: &[MemberPage]) -> Result<Option<u64>, Memory>
    ensures { IfOk result (λ place. place ≡ members_passed passed limit found.now) }
{
    if limit < found.len() {
        // No category has as many members as 2^64.
        let place = passed.checked_add(limit as u64).ok_or(Memory)?;
        return Ok(Some(place));
    }
    Ok(None)
}

/// The members of a category behind so many.
fn members_listed(
    alloc: Global,
    revs: &Revs,
    index: &Index,
    category: &Title,
    passed: u64,
    limit: usize,
    point: u64,
) -> Result<Value, Memory>
    ensures { IfOk result (λ v. view v
        ≡ value_at point (members_listed (state_with revs.now.history index.now.stored) category.now passed limit)) }
{
    let most = one_more(limit)?;
    let found = index.members(category, passed as usize, most)?;
    let place = passed_so_far(passed, limit, &found)?;
    let list = told_all(alloc, revs, first(&found, limit))?;
    listed(alloc, "categorymembers", place, list, point)
}

/// The members of a category: an error where the title isn't one.
fn members_of(
    alloc: Global,
    revs: &Revs,
    index: &Index,
    listing: &Listing,
    title: &Title,
    point: u64,
) -> Result<Value, Memory>
    ensures { IfOk result (λ v. view v
        ≡ value_at point (members_of (state_with revs.now.history index.now.stored) (listing_of listing.now) title.now)) }
{
    if title.ns() != CATEGORY {
        return invalid_category(alloc, point);
    }
    let passed = listing.from.unwrap_or(0);
    members_listed(alloc, revs, index, title, passed, listing.limit, point)
}

/// The members of the category that a text names: an error where it names no title, or none of a category.
pub fn members(
    alloc: Global,
    revs: &Revs,
    index: &Index,
    listing: &Listing,
    point: u64,
) -> Result<Value, Memory>
    ensures { IfOk result (λ v. view v
        ≡ value_at point (members_answer (state_with revs.now.history index.now.stored) (listing_of listing.now))) }
{
    match named(alloc, &listing.title, 0)? {
        None => invalid_title(alloc, point),
        Some(title) => members_of(alloc, revs, index, listing, &title, point),
    }
}

//! Revisions as they are listed.
ghost use Rattle.std.specs.Prelude.{◌≡◌, IfOk, IfSome, map};
ghost use Rattle.serde_json.specs.View.{view};
ghost use Rattle.wk_wiki_rules.specs.States.{title_at};
ghost use Rattle.wk_answer_rules.specs.Lists.{change_entries, revisions_listed};
ghost use Rattle.wk_answer_rules.specs.Values.{array_of, object_of};
ghost use Rattle.wk_listings.specs.Replied.{value_at};
ghost use Rattle.wk_listings.specs.Owners.{numbered_at};
ghost use Rattle.wk_listings.specs.Shapes.{entries_in};

use crate::taken::{first, last_number};
use serde_json::Value;
use std::alloc::Global;
use wk_memory::Memory;
use wk_replies::{array_value, change_entry, listed, revision_entry};
use wk_revs::{Revision, Revs};
use wk_title::Title;

/// What is told of a revision.
#[derive(Clone, Copy, PartialEq, Eq)]
pub enum Shape {
    /// The change that it is, with its page.
    Change,
    /// What it is among the revisions of its page; with its text or without.
    OfItsPage(bool),
}

/// The title of the page with this number.
pub fn title_of(revs: &Revs, page: u32) -> Option<&Title>
    ensures { IfSome result (λ title. title_at revs.now.history page ≡ title.now) }
{
    match revs.page_at(page) {
        Some((title, _)) => Some(title),
        None => None,
    }
}

/// The revision with this number.
fn revision_of(revs: &Revs, number: u64) -> Option<&Revision>
    ensures { IfSome result (λ revision. numbered_at revs.now.history number ≡ (number, revision.now)) }
{
    revs.revision(number)
}

/// A revision as a change.
fn told_change(
    alloc: Global,
    revs: &Revs,
    number: u64,
    revision: &Revision,
) -> Result<Value, Memory>
    ensures { IfOk result (λ v. view v ≡ object_of (change_entries revs.now.history (number, revision.now))) }
{
    match title_of(revs, revision.page()) {
        Some(title) => change_entry(alloc, number, revision, title),
        // Each revision is of a page that is there.
        None => Err(Memory),
    }
}

/// The entry of the revision with this number.
fn told(alloc: Global, revs: &Revs, number: u64, shape: Shape) -> Result<Value, Memory>
    ensures { IfOk result (λ v. view v ≡ object_of (entries_in revs.now.history shape (numbered_at revs.now.history number))) }
{
    match revision_of(revs, number) {
        Some(revision) => match shape {
            Shape::Change => told_change(alloc, revs, number, revision),
            Shape::OfItsPage(content) => revision_entry(alloc, number, revision, content),
        },
        // Each revision that is listed is there.
        None => Err(Memory),
    }
}

/// The entries of the revisions with these numbers.
fn told_all(alloc: Global, revs: &Revs, numbers: &[u64], shape: Shape) -> Result<Value, Memory>
    ensures { IfOk result (λ v. view v
        ≡ array_of (map (λ number. object_of (entries_in revs.now.history shape (numbered_at revs.now.history number))) numbers.now)) }
{
    let mut values = Vec::new(alloc);
    for number in numbers {
        values.push(told(alloc, revs, *number, shape)?)?;
    }
    Ok(array_value(values))
}

/// The reply that lists so many of the revisions with these numbers.
pub fn listed_revisions(
    alloc: Global,
    name: &str,
    revs: &Revs,
    numbers: &[u64],
    shape: Shape,
    limit: usize,
    point: u64,
) -> Result<Value, Memory>
    ensures { IfOk result (λ v. view v
        ≡ value_at point (revisions_listed name.now (entries_in revs.now.history shape) limit (map (numbered_at revs.now.history) numbers.now))) }
{
    let list = told_all(alloc, revs, first(numbers, limit), shape)?;
    listed(alloc, name, last_number(numbers, limit), list, point)
}

//! What the pages of a store are found by, gathered page by page. The ordered sets of an index are made of it at once,
//! which costs no search for each.
ghost use Rattle.std.specs.Prelude.{◌≡◌, [], true, ◌&&◌, ℕ, List, IfOk, OnOk, bytes_eq};
ghost use Rattle.std.specs.BTreeSet.{IsFromIterResult};
ghost use Rattle.std.specs.List.{list_any};
ghost use Rattle.wk_text_rules.specs.Titles.{PageTitle, title_eq};
ghost use Rattle.wk_index.specs.Entries.{KeptEntries, has_entry};
ghost use Rattle.wk_index.specs.Gathered.{AreAllTitled, GathersAll, Joins};
ghost use Rattle.wk_index.specs.Places.{AddsGathered, AreTitled};

use crate::entries::Entry;
use crate::found::Found;
use crate::named::Named;
use crate::pages_by_title::{PagesByTitle, add_to};
use std::alloc::Global;
use std::collections::{BTreeMap, BTreeSet};
use wk_bytes::Text;
use wk_memory::Memory;
use wk_title::Title;

/// The pages by the titles that they include, by those whose existence they test, by those that they link to, and by
/// their categories and the sort keys in them.
#[derive(Drop)]
pub struct Gathered {
    pub included: PagesByTitle,
    pub tested: PagesByTitle,
    pub linked: PagesByTitle,
    pub members: Vec<Entry>,
}

impl Gathered {
    /// No pages. Takes no memory.
    pub fn new(alloc: Global) -> Gathered
        ensures { GathersAll [] result }
    {
        Gathered {
            included: BTreeMap::new(alloc),
            tested: BTreeMap::new(alloc),
            linked: BTreeMap::new(alloc),
            members: Vec::new(alloc),
        }
    }

    /// The sets by which the pages are found.
    pub fn into_found(self, alloc: Global) -> Result<Found, Memory>
        requires { AreAllTitled self }
        ensures { IfOk result (λ found. Joins self found) }
    {
        let Gathered {
            included,
            tested,
            linked,
            members,
        } = self;
        let mentioned = both(alloc, &included, &tested)?;
        let included = one(alloc, &included)?;
        let linked = one(alloc, &linked)?;
        let members = set_of(alloc, members)?;
        Ok(Found {
            included,
            mentioned,
            linked,
            members,
        })
    }
}

/// Finds the page by the category and the sort key.
fn push_entry(
    entries: &mut Vec<Entry>,
    category: &Title,
    sortkey: &Text,
    page: u32,
) -> Result<(), Memory>
    ensures there { OnOk result (has_entry entries.new.items (category.now, sortkey.now) page ≡ true) }
    ensures kept { KeptEntries entries.old.items entries.new.items }
{
    let category = category.share()?;
    let sortkey = sortkey.share()?;
    entries.push(Entry {
        category,
        sortkey,
        page,
    })?;
    Ok(())
}

/// Finds the page by the categories of the members and the sort keys in them.
pub fn push_members(
    entries: &mut Vec<Entry>,
    members: &[(Title, Text, Text)],
    page: u32,
) -> Result<(), Memory>
    ensures there { OnOk result ((x : PageTitle × List ℕ) → list_any (λ m. title_eq x.0 m.0 && bytes_eq x.1 m.1) members.now ≡ true → has_entry entries.new.items x page ≡ true) }
    ensures kept { KeptEntries entries.old.items entries.new.items }
{
    for member in members {
        push_entry(entries, &member.0, &member.1, page)?;
    }
    Ok(())
}

/// The keys as a set.
fn set_of<K: Ord + Drop>(alloc: Global, keys: Vec<K>) -> Result<BTreeSet<K>, Memory>
    ensures { IfOk result (λ set. IsFromIterResult K.cmp keys.items set) }
{
    let set = keys.into_iter().collect(alloc)?;
    Ok(set)
}

/// The sets of what was gathered.
fn one(alloc: Global, gathered: &PagesByTitle) -> Result<Named, Memory>
    requires { AreTitled gathered.now }
    ensures { IfOk result (λ named. AddsGathered gathered.now named) }
{
    let mut named = BTreeMap::new(alloc);
    add_to(alloc, gathered, &mut named)?;
    Ok(named)
}

/// The sets of what was gathered in two.
fn both(alloc: Global, first: &PagesByTitle, second: &PagesByTitle) -> Result<Named, Memory>
    requires first { AreTitled first.now }
    requires second { AreTitled second.now }
    ensures { IfOk result (λ named. AddsGathered first.now named × AddsGathered second.now named) }
{
    let mut named = one(alloc, first)?;
    add_to(alloc, second, &mut named)?;
    Ok(named)
}

//! The members of a category.
ghost use Rattle.std.specs.Prelude.{◌≡◌, ◌&&◌, ◌++◌, ◌∷◌, [], List, bytes_eq, length, IfOk};
ghost use Rattle.wk_text_rules.specs.Titles.{title_eq};
ghost use Rattle.wk_wiki_rules.specs.Members.{MemberPage as Listed, members_behind};
ghost use Rattle.wk_index.specs.Entries.{FindsEntries};
ghost use Rattle.wk_index.specs.Listing.{members_from, own_members, page_members};

use crate::entries::{Entries, Entry};
use crate::pages::rows_at;
use crate::shared_rows::SharedRows;
use std::alloc::Global;
use std::marker::Model;
use std::ops::Bound;
use wk_bytes::Text;
use wk_memory::Memory;
use wk_title::Title;

/// A page in a category.
#[derive(Drop, PartialEq, Eq)]
pub struct MemberPage {
    /// What the page is sorted by in the category.
    pub sortkey: Text,
    /// The number of the page.
    pub page: u32,
    /// What the page itself asks to be sorted by, empty where it doesn't.
    pub prefix: Text,
}

impl Model for MemberPage {
    ghost use Rattle.wk_wiki_rules.specs.Members.{MemberPage as Listed};

    ghost Value = { Listed };

    ghost view = { λ m. record { sortkey = m.sortkey; page = m.page; prefix = m.prefix } };

    ghost inverse = { λ m. record { sortkey = m.sortkey; page = m.page; prefix = m.prefix } };
}

/// Lists the member, unless so many are still to be passed over, or enough are listed. Answers how many are to be passed
/// over behind it.
fn push_one(
    listed: &mut Vec<MemberPage>,
    member: &(Title, Text, Text),
    page: u32,
    passed: usize,
    most: usize,
) -> Result<usize, Memory>
    ensures { IfOk result (λ left. (rest : List Listed) → members_from most listed.new.items left rest ≡ members_from most listed.old.items passed (record { sortkey = member.now.1; page = page; prefix = member.now.2 } ∷ rest)) }
{
    if 0 < passed {
        return Ok(passed - 1);
    }
    if most <= listed.len() {
        return Ok(0);
    }
    let sortkey = member.1.share()?;
    let prefix = member.2.share()?;
    listed.push(MemberPage {
        sortkey,
        page,
        prefix,
    })?;
    Ok(0)
}

/// Whether the member is in the category of the entry, by its sort key.
fn is_own(member: &(Title, Text, Text), entry: &Entry) -> bool
    ensures { result ≡ (title_eq member.now.0 entry.now.category && bytes_eq member.now.1 entry.now.sortkey) }
{
    member.0 == entry.category && member.1 == entry.sortkey
}

/// Lists the member where it is the entry's. Answers how many are to be passed over behind it.
fn push_if_own(
    listed: &mut Vec<MemberPage>,
    member: &(Title, Text, Text),
    entry: &Entry,
    passed: usize,
    most: usize,
) -> Result<usize, Memory>
    ensures { IfOk result (λ left. (rest : List Listed) → members_from most listed.new.items left rest ≡ members_from most listed.old.items passed (own_members entry.now (member.now ∷ []) ++ rest)) }
{
    if !is_own(member, entry) {
        return Ok(passed);
    }
    push_one(listed, member, entry.page, passed, most)
}

/// Lists those of the members that are the entry's. Answers how many are to be passed over behind them.
fn push_own(
    listed: &mut Vec<MemberPage>,
    members: &[(Title, Text, Text)],
    entry: &Entry,
    passed: usize,
    most: usize,
) -> Result<usize, Memory>
    ensures { IfOk result (λ left. (rest : List Listed) → members_from most listed.new.items left rest ≡ members_from most listed.old.items passed (own_members entry.now members.now ++ rest)) }
{
    let mut left = passed;
    for member in members {
        left = push_if_own(listed, member, entry, left, most)?;
    }
    Ok(left)
}

/// Lists what the rows of the entry's page have of it. Answers how many are to be passed over behind that.
fn push_entry(
    listed: &mut Vec<MemberPage>,
    stored: &[SharedRows],
    entry: &Entry,
    passed: usize,
    most: usize,
) -> Result<usize, Memory>
    ensures { IfOk result (λ left. (rest : List Listed) → members_from most listed.new.items left rest ≡ members_from most listed.old.items passed (page_members stored.now entry.now ++ rest)) }
{
    match rows_at(stored, entry.page) {
        Some(shared) => {
            let rows = shared.rows();
            push_own(listed, &rows.members, entry, passed, most)
        }
        None => Ok(passed),
    }
}

/// What stands before all entries of the category.
fn first_entry(alloc: Global, category: &Title) -> Result<Entry, Memory>
    ensures { IfOk result (λ entry. entry ≡ record { category = category.now; sortkey = []; page = 0 }) }
{
    let category = category.share()?;
    let sortkey = Text::new(alloc, "")?;
    Ok(Entry {
        category,
        sortkey,
        page: 0,
    })
}

fn is_of(entry: &Entry, category: &Title) -> bool
    ensures { result ≡ title_eq entry.now.category category.now }
{
    entry.category == *category
}

/// The members of the category, by sort key and then by page, behind the first so many and at most so many.
pub fn members(
    alloc: Global,
    entries: &Entries,
    stored: &[SharedRows],
    category: &Title,
    passed: usize,
    most: usize,
) -> Result<Vec<MemberPage>, Memory>
    requires { FindsEntries stored.now entries.now.keys }
    ensures { IfOk result (λ members. members.items ≡ members_behind stored.now category.now passed most) }
{
    let start = first_entry(alloc, category)?;
    let mut listed = Vec::new(alloc);
    let mut left = passed;
    for entry in entries.range((Bound::Included(start), Bound::Unbounded)) {
        if !is_of(entry, category) {
            return Ok(listed);
        }
        if most <= listed.len() {
            return Ok(listed);
        }
        left = push_entry(&mut listed, stored, entry, left, most)?;
    }
    Ok(listed)
}

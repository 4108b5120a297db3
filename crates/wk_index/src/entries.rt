//! Sets of categories, sort keys in them and pages, in order: the members of a category are next to each other, in the
//! order in which they are listed.
ghost use Rattle.std.specs.Prelude.{◌≡◌, true, ◌&&◌, ℕ, List, bytes_eq, OnOk};
ghost use Rattle.std.specs.List.{list_any};
ghost use Rattle.wk_text_rules.specs.Titles.{PageTitle, title_eq};
ghost use Rattle.wk_index.specs.Entries.{FindsRowsEntries, KeptEntries, SparesEntries, has_entry};

use crate::lookup::Lookup;
use std::collections::BTreeSet;
use std::marker::Model;
use wk_bytes::Text;
use wk_memory::Memory;
use wk_table_rows::PageRows;
use wk_title::Title;

/// A category, a sort key in it, and a page that is found by the two. In order by the category, then by the sort key,
/// and then by the page.
#[derive(Drop, PartialEq, Eq, PartialOrd, Ord)]
pub struct Entry {
    pub category: Title,
    pub sortkey: Text,
    pub page: u32,
}

impl Model for Entry {
    ghost use Rattle.wk_index.specs.Entries.{Entry as Seen};

    ghost Value = { Seen };

    ghost view = { λ e. record { category = e.category; sortkey = e.sortkey; page = e.page } };

    ghost inverse = { λ e. record { category = e.category; sortkey = e.sortkey; page = e.page } };
}

/// Categories and sort keys, each with the pages that are found by them.
pub type Entries = BTreeSet<Entry>;

/// Finds the page by the category and the sort key.
fn add_entry(
    entries: &mut Entries,
    category: &Title,
    sortkey: &Text,
    page: u32,
) -> Result<(), Memory>
    ensures there { OnOk result (has_entry entries.new.keys (category.now, sortkey.now) page ≡ true) }
    ensures kept { KeptEntries entries.old.keys entries.new.keys }
{
    let category = category.share()?;
    let sortkey = sortkey.share()?;
    entries.insert(Entry {
        category,
        sortkey,
        page,
    })?;
    Ok(())
}

/// Finds the page by the categories of the members and the sort keys in them.
fn add_members(
    entries: &mut Entries,
    members: &[(Title, Text, Text)],
    page: u32,
) -> Result<(), Memory>
    ensures there { OnOk result ((x : PageTitle × List ℕ) → list_any (λ m. title_eq x.0 m.0 && bytes_eq x.1 m.1) members.now ≡ true → has_entry entries.new.keys x page ≡ true) }
    ensures kept { KeptEntries entries.old.keys entries.new.keys }
{
    for member in members {
        add_entry(entries, &member.0, &member.1, page)?;
    }
    Ok(())
}

/// Finds the page by the categories of its rows and the sort keys in them.
pub fn add_entries(entries: &mut Entries, rows: &PageRows, page: u32) -> Result<(), Memory>
    ensures there { OnOk result (FindsRowsEntries rows.now page entries.new.keys) }
    ensures kept { KeptEntries entries.old.keys entries.new.keys }
{
    add_members(entries, &rows.members, page)?;
    Ok(())
}

/// Finds the page no longer by the category and the sort key, where its rows don't have them. Takes no memory.
fn drop_entry(entries: &mut Entries, entry: &Entry, rows: &Lookup<'_>)
    ensures { SparesEntries rows.now entry.now.page entries.old.keys entries.new.keys }
{
    if !rows.has_entry(&entry.category, &entry.sortkey) {
        entries.remove(entry);
    }
}

/// Finds the page no longer by those of the categories and sort keys that its rows don't have. Takes no memory.
pub fn drop_entries(
    entries: &mut Entries,
    members: Vec<(Title, Text, Text)>,
    page: u32,
    rows: &Lookup<'_>,
)
    ensures { SparesEntries rows.now page entries.old.keys entries.new.keys }
{
    for member in members {
        let (category, sortkey, _) = member;
        let entry = Entry {
            category,
            sortkey,
            page,
        };
        drop_entry(entries, &entry, rows);
    }
}

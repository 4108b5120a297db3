//! What the pages of an index are found by.
ghost use Rattle.std.specs.Prelude.{[], OnOk};
ghost use Rattle.wk_index.specs.Held.{rows_of};
ghost use Rattle.wk_index.specs.Found.{FindsAll, FindsRows, KeepsAll, SparesAll};
ghost use Rattle.wk_index.specs.Named.{Spares};
ghost use Rattle.wk_index.specs.declared.named.Kind.TheVariants.{Included as ByIncluded, Mentioned as ByMentioned};

use crate::entries::{Entries, add_entries, drop_entries};
use crate::lookup::Lookup;
use crate::named::{Kind, Named, add_rows, drop_key, drop_titles};
use crate::pages::rows_at;
use crate::shared_rows::SharedRows;
use std::alloc::Global;
use std::collections::{BTreeMap, BTreeSet};
use wk_memory::Memory;
use wk_table_rows::PageRows;
use wk_title::Title;

/// The pages by the titles of each kind, and by their categories and the sort keys in them.
#[derive(Drop)]
pub struct Found {
    pub included: Named,
    pub mentioned: Named,
    pub linked: Named,
    pub members: Entries,
}

impl Found {
    /// No pages. Takes no memory.
    pub fn new(alloc: Global) -> Found
        ensures { FindsAll [] result }
    {
        Found {
            included: BTreeMap::new(alloc),
            mentioned: BTreeMap::new(alloc),
            linked: BTreeMap::new(alloc),
            members: BTreeSet::new(alloc),
        }
    }

    /// Finds the page by its rows.
    pub fn add(&mut self, rows: &PageRows, page: u32) -> Result<(), Memory>
        ensures there { OnOk result (FindsRows rows.now page self.new) }
        ensures kept { KeepsAll self.old self.new }
    {
        add_rows(&mut self.included, rows, page, Kind::Included)?;
        add_rows(&mut self.mentioned, rows, page, Kind::Mentioned)?;
        add_rows(&mut self.linked, rows, page, Kind::Linked)?;
        add_entries(&mut self.members, rows, page)
    }

    /// Finds the page no longer by what the old rows have and its rows don't, where nobody else has the old rows, as
    /// those between the two halves of a change. Takes no memory.
    pub fn shed(&mut self, old: SharedRows, stored: &[SharedRows], page: u32)
        ensures { SparesAll (rows_of stored.now page) page self.old self.new }
    {
        match (old.into_rows(), rows_at(stored, page)) {
            (Some(old), Some(rows)) => self.drop_rows(old, &Lookup::new(rows.rows()), page),
            _ => {}
        }
    }

    /// Finds the page no longer by what the old rows have and these don't. Takes no memory.
    fn drop_rows(&mut self, old: PageRows, rows: &Lookup<'_>, page: u32)
        ensures { SparesAll rows.now page self.old self.new }
    {
        let PageRows {
            templates,
            exists,
            links,
            members,
            ..
        } = old;
        drop_included(
            &mut self.included,
            &mut self.mentioned,
            templates,
            page,
            rows,
        );
        drop_titles(&mut self.mentioned, exists, page, rows, Kind::Mentioned);
        drop_titles(&mut self.linked, links, page, rows, Kind::Linked);
        drop_entries(&mut self.members, members, page, rows);
    }
}

/// Finds the page no longer by those of the titles that it included and its rows don't have. Takes no memory.
fn drop_included(
    included: &mut Named,
    mentioned: &mut Named,
    titles: Vec<Title>,
    page: u32,
    rows: &Lookup<'_>,
)
    ensures included { Spares ByIncluded rows.now page included.old included.new }
    ensures mentioned { Spares ByMentioned rows.now page mentioned.old mentioned.new }
{
    for title in titles {
        drop_key(included, &title, page, rows, Kind::Included);
        drop_key(mentioned, &title, page, rows, Kind::Mentioned);
    }
}

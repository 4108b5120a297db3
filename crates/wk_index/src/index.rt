//! The stored link rows of the pages, and the pages that are found by a title.
ghost use Rattle.std.specs.Prelude.{◌≡◌, ◌+◌, ◌≤◌, ◌<◌, ◌++◌, ◌∷◌, [], IfOk, IsSome, OnErr, OnOk, length};
ghost use Rattle.std.specs.Option.{option_copied};
ghost use Rattle.wk_page_rules.specs.Verdict.{max_pages};
ghost use Rattle.wk_page_rules.specs.PageRows.{no_rows};
ghost use Rattle.wk_table_rules.specs.GoodStore.{IsGood};
ghost use Rattle.wk_table_rules.specs.Stored.{stored_rows};
ghost use Rattle.wk_wiki_rules.specs.Users.{some_page_names, users};
ghost use Rattle.wk_wiki_rules.specs.Links.{linking_pages};
ghost use Rattle.wk_wiki_rules.specs.Members.{members_behind};
ghost use Rattle.wk_wiki_rules.specs.Names.{AreAmong, admitted, with_rows_at};
ghost use Rattle.wk_index.specs.Found.{FindsAll};
ghost use Rattle.wk_index.specs.Held.{rows_of};
ghost use Rattle.wk_index.specs.Named.{listed, rows_at};

use crate::blanks::Blanks;
use crate::found::Found;
use crate::loading::load_rows;
use crate::members::{MemberPage, members};
use crate::named::{Kind, kind_of, pages};
use crate::pages::{joined_at, replace_rows, rows_at};
use crate::shared_rows::SharedRows;
use std::alloc::Global;
use std::marker::Model;
use wk_memory::Memory;
use wk_page_rules::Reach;
use wk_table_rows::{PageRows, share_all};
use wk_tables::Tables;
use wk_title::Title;

/// The stored link rows of each page, which other owners' texts and titles are shared with, and the pages and members
/// that are found by a title. Contracts see the rows page by page, where pages are numbered from 1, and for how many
/// pages more there is room. A page that isn't there counts as one without rows.
///
/// The pages of a title and the members of a category are listed in a time that grows with those that are listed or
/// passed over, with the rows of these pages, and with the logarithm of all. A change of a page's rows takes a time that
/// grows with the rows that it has and those that it gets, times a logarithm, where these are in the order of their
/// titles, as those of a draft and of a good store are.
#[derive(Drop)]
pub struct Index {
    rows: Vec<SharedRows>,
    /// Each page is found by all that its rows have, and may be found by more, so what is found is looked up in the rows.
    /// A change that memory ran out for may leave such more.
    found: Found,
    /// For the pages that there is room for.
    blanks: Blanks,
    spare: usize,
}

impl Model for Index {
    ghost use Rattle.std.specs.Prelude.{◌+◌, ◌≤◌, vec_len, vec_capacity};
    ghost use Rattle.wk_page_rules.specs.Verdict.{max_pages};
    ghost use Rattle.wk_index.specs.Found.{FindsAll};
    ghost use Rattle.wk_index.specs.Held.{Held};

    ghost Value = { Held };

    ghost view = { λ i. record { stored = i.rows.items; spare = i.spare } };

    ghost invariant = { λ i. (i.spare + vec_len i.rows ≤ vec_capacity i.rows) × (vec_len i.rows ≤ max_pages)
        × FindsAll i.rows.items i.found × (i.spare ≤ i.blanks) };
}

impl Index {
    /// No pages, and no room. Takes no memory.
    pub fn new(alloc: Global) -> Index
        ensures { result ≡ record { stored = []; spare = 0 } }
    {
        Index {
            rows: Vec::new(alloc),
            found: Found::new(alloc),
            blanks: Blanks::new(alloc),
            spare: 0,
        }
    }

    /// The link rows of each page in the tables of a good store, and no room.
    pub fn load(tables: &Tables) -> Result<Index, Memory>
        requires { IsGood tables.now.tables }
        ensures { IfOk result (λ index. index.stored ≡ stored_rows tables.now.tables) }
    {
        let rows = tables.rows()?;
        load_rows(&rows)
    }

    /// The index of these rows, which the pages are found by, and no room. Takes no memory.
    pub(crate) fn found_by(alloc: Global, rows: Vec<SharedRows>, found: Found) -> Index
        requires found { FindsAll rows.items found }
        requires few { length rows.items ≤ max_pages }
        ensures { result ≡ record { stored = rows.items; spare = 0 } }
    {
        Index {
            rows,
            found,
            blanks: Blanks::new(alloc),
            spare: 0,
        }
    }

    /// Makes room for this many pages more than there are. Room that was there before stays.
    pub fn make_room(&mut self, pages: usize) -> Result<(), Memory>
        ensures stored { self.new.stored ≡ self.old.stored }
        ensures room { OnOk result (pages ≤ self.new.spare) }
        ensures not_less { self.old.spare ≤ self.new.spare }
    {
        self.rows.reserve(pages)?;
        self.blanks.fill(pages)?;
        self.spare = self.spare.max(pages);
        Ok(())
    }

    /// Adds a page without rows behind all pages. Takes no memory.
    pub fn add_page(&mut self)
        requires room { 0 < self.old.spare }
        requires fits { length self.old.stored < max_pages }
        ensures stored { self.new.stored ≡ self.old.stored ++ no_rows ∷ [] }
        ensures spare { self.new.spare + 1 ≡ self.old.spare }
    {
        let rows = self.blanks.take();
        self.rows.push_reserved(rows);
        self.spare -= 1;
    }

    /// How many pages there are. Takes no memory.
    pub fn page_count(&self) -> usize
        ensures { result ≡ length self.now.stored }
    {
        self.rows.len()
    }

    /// The rows of the page with this number, `None` exactly where there is no such page, which then counts as one
    /// without rows. Takes no memory.
    pub fn rows(&self, page: u32) -> Option<&SharedRows>
        ensures { option_copied result ≡ rows_at self.now.stored page }
    {
        rows_at(&self.rows, page)
    }

    /// The rows of each page, for a further owner: a pointer a page.
    pub fn stored(&self) -> Result<Vec<SharedRows>, Memory>
        ensures { IfOk result (λ stored. stored.items ≡ self.now.stored) }
    {
        let stored = share_all(*self.rows.allocator(), &self.rows)?;
        Ok(stored)
    }

    /// Adds the rows to those of the page, which is there: from now on it is found by the old ones and by the new.
    /// `Memory` leaves all rows as they were.
    pub fn admit(&mut self, page: u32, rows: &PageRows) -> Result<(), Memory>
        requires { IsSome (rows_at self.old.stored page) }
        ensures stored { OnOk result (self.new.stored ≡ with_rows_at self.old.stored page (admitted (rows_of self.old.stored page) rows.now)) }
        ensures refused { OnErr result (self.new.stored ≡ self.old.stored) }
        ensures spare { self.new.spare ≡ self.old.spare }
    {
        let joined = SharedRows::new(joined_at(&self.rows, page, rows)?)?;
        self.found.add(rows, page)?;
        replace_rows(&mut self.rows, page, joined);
        Ok(())
    }

    /// Makes these all rows of the page, which is there, and has each of them. Takes no memory.
    pub fn shed(&mut self, page: u32, rows: SharedRows)
        requires there { IsSome (rows_at self.old.stored page) }
        requires among { AreAmong rows (rows_of self.old.stored page) }
        ensures stored { self.new.stored ≡ with_rows_at self.old.stored page rows }
        ensures spare { self.new.spare ≡ self.old.spare }
    {
        let old = replace_rows(&mut self.rows, page, rows);
        self.found.shed(old, &self.rows, page);
    }

    /// The pages above a number whose rows have the title, rising, at most so many.
    fn listed(&self, title: &Title, kind: Kind, above: u32, most: usize) -> Result<Vec<u32>, Memory>
        ensures { IfOk result (λ pages. pages.items ≡ listed kind self.now.stored title.now above most) }
    {
        let alloc = *self.rows.allocator();
        match kind {
            Kind::Included => {
                let named = &self.found.included;
                pages(alloc, named, &self.rows, title, kind, above, most)
            }
            Kind::Mentioned => {
                let named = &self.found.mentioned;
                pages(alloc, named, &self.rows, title, kind, above, most)
            }
            Kind::Linked => {
                let named = &self.found.linked;
                pages(alloc, named, &self.rows, title, kind, above, most)
            }
        }
    }

    /// The numbers above a number of the pages whose rows name the title, rising, at most so many.
    pub fn users(
        &self,
        title: &Title,
        reach: Reach,
        above: u32,
        most: usize,
    ) -> Result<Vec<u32>, Memory>
        ensures { IfOk result (λ pages. pages.items ≡ users self.now.stored title.now reach above most) }
    {
        let pages = self.listed(title, kind_of(reach), above, most)?;
        Ok(pages)
    }

    /// Whether the rows of some page name the title.
    pub fn some_page_names(&self, title: &Title, reach: Reach) -> Result<bool, Memory>
        ensures { IfOk result (λ some. some ≡ some_page_names self.now.stored title.now reach) }
    {
        let first = self.users(title, reach, 0, 1)?;
        let pages = first.as_slice();
        Ok(0 < pages.len())
    }

    /// The numbers above a number of the pages whose rows link to the title, rising, at most so many (MediaWiki's
    /// API:Backlinks).
    pub fn linking_pages(&self, title: &Title, above: u32, most: usize) -> Result<Vec<u32>, Memory>
        ensures { IfOk result (λ pages. pages.items ≡ linking_pages self.now.stored title.now above most) }
    {
        let pages = self.listed(title, Kind::Linked, above, most)?;
        Ok(pages)
    }

    /// The members of the category in the order of their sort keys, and then of their pages, behind the first so many and
    /// at most so many (MediaWiki's API:Categorymembers; the order of pages with one sort key is own).
    pub fn members(
        &self,
        category: &Title,
        passed: usize,
        most: usize,
    ) -> Result<Vec<MemberPage>, Memory>
        ensures { IfOk result (λ members. members.items ≡ members_behind self.now.stored category.now passed most) }
    {
        let alloc = *self.rows.allocator();
        members(
            alloc,
            &self.found.members,
            &self.rows,
            category,
            passed,
            most,
        )
    }
}

//! The tables of a store.
ghost use Rattle.std.specs.Prelude.{◌≡◌, ℕ, ◌+◌, ◌≤◌, ◌<◌, ◌==◌, true, None, Some, IfOk, OnOk, position, vec_len, vec_capacity};
ghost use Rattle.std.specs.List.{All};
ghost use Rattle.wk_table_rules.specs.Rows.{no_tables};
ghost use Rattle.wk_table_rules.specs.Changes.{edited, edit_fits, fits, applied, namespace_of, with_page, add_revision, set_page, set_rows, add_job, set_job, drop_job, set_version};
ghost use Rattle.wk_table_rules.specs.GoodStore.{first_broken};
ghost use Rattle.wk_tables.specs.Edits.{edit_of};
ghost use Rattle.wk_tables.specs.Room.{edit_room, room_for};
ghost use Rattle.wk_tables.specs.Links.{ArePagesOf, HaveRoom, lists_of, pages_of};
ghost use Rattle.wk_table_rows.specs.Rising.{IsRising};

use crate::change::{Change, RowEdit, lists_room};
use crate::job_list::JobList;
use crate::links::Links;
use std::alloc::Global;
use std::marker::Model;
use wk_good_rows::broken_rows;
use wk_memory::Memory;
use wk_table_rows::{
    JobRow, PageRow, PageRows, PageTable, RevisionRow, TableRows, is_rising, place_of, share_all,
};
use wk_table_rules::BadStore;

/// The tables of a store. Contracts see them, and how much room there is for changes of them.
///
/// Where the rows are in order, as in a good store, the work of a change is in proportion to its edits, the rows of
/// their pages and the logarithms of the numbers of pages and jobs. Elsewhere a change may go over all rows.
#[derive(Drop)]
pub struct Tables {
    pages: Vec<PageRow>,
    /// Whether the numbers of the pages rise.
    is_in_order: bool,
    revisions: Vec<RevisionRow>,
    links: Links,
    jobs: JobList,
    version: u64,
    spare: usize,
}

impl Model for Tables {
    ghost use Rattle.wk_tables.specs.Held.{Held};

    ghost Value = { Held };

    ghost use Rattle.wk_tables.specs.TablesHeld.{held, IsHeld};

    ghost view = { held };

    ghost invariant = { IsHeld };
}

impl Tables {
    /// The tables of a new store: no rows, and version 2. Takes no memory.
    pub fn new(alloc: Global) -> Tables
        ensures { result ≡ record { tables = no_tables; spare = 0 } }
    {
        Tables {
            pages: Vec::new(alloc),
            is_in_order: true,
            revisions: Vec::new(alloc),
            links: Links::new(alloc),
            jobs: JobList::new(alloc),
            version: 2,
            spare: 0,
        }
    }

    /// The tables with these rows, which may be in any order, and no room.
    pub fn from_rows(alloc: Global, rows: TableRows) -> Result<Tables, Memory>
        ensures { IfOk result (λ tables. tables.tables ≡ rows) }
    {
        let TableRows {
            pages,
            revisions,
            pagelinks,
            templatelinks,
            existlinks,
            categorylinks,
            redirects,
            jobs,
            version,
        } = rows;
        let is_in_order = is_rising(&pages);
        let links = Links {
            pagelinks: PageTable::from_rows(alloc, &pages, is_in_order, pagelinks)?,
            templatelinks: PageTable::from_rows(alloc, &pages, is_in_order, templatelinks)?,
            existlinks: PageTable::from_rows(alloc, &pages, is_in_order, existlinks)?,
            categorylinks: PageTable::from_rows(alloc, &pages, is_in_order, categorylinks)?,
            redirects: PageTable::from_rows(alloc, &pages, is_in_order, redirects)?,
        };
        Ok(Tables {
            pages,
            is_in_order,
            revisions,
            links,
            jobs: JobList::from_rows(alloc, jobs)?,
            version,
            spare: 0,
        })
    }

    /// All rows, table by table, for a further owner. No text is copied.
    pub fn rows(&self) -> Result<TableRows, Memory>
        ensures { IfOk result (λ rows. rows ≡ self.now.tables) }
    {
        let alloc = *self.pages.allocator();
        Ok(TableRows {
            pages: share_all(alloc, &self.pages)?,
            revisions: share_all(alloc, &self.revisions)?,
            pagelinks: self.links.pagelinks.rows()?,
            templatelinks: self.links.templatelinks.rows()?,
            existlinks: self.links.existlinks.rows()?,
            categorylinks: self.links.categorylinks.rows()?,
            redirects: self.links.redirects.rows()?,
            jobs: self.jobs.rows()?,
            version: self.version,
        })
    }

    /// The same tables for a further owner, with no room. No text is copied.
    pub fn copy(&self) -> Result<Tables, Memory>
        ensures { IfOk result (λ tables. tables.tables ≡ self.now.tables) }
    {
        Tables::from_rows(*self.pages.allocator(), self.rows()?)
    }

    /// The rows of the table page. Takes no memory.
    pub fn pages(&self) -> &[PageRow]
        ensures { result.now ≡ self.now.tables.pages }
    {
        &self.pages
    }

    /// The rows of the table revision. Takes no memory.
    pub fn revisions(&self) -> &[RevisionRow]
        ensures { result.now ≡ self.now.tables.revisions }
    {
        &self.revisions
    }

    /// The number in the table site. Takes no memory.
    pub fn version(&self) -> u64
        ensures { result ≡ self.now.tables.version }
    {
        self.version
    }

    /// Makes room for so many edits and link rows more. Room that was there before stays.
    fn reserve(&mut self, more: usize) -> Result<(), Memory>
        ensures tables { self.new.tables ≡ self.old.tables }
        ensures room { OnOk result (more ≤ self.new.spare) }
        ensures not_less { self.old.spare ≤ self.new.spare }
    {
        self.pages.reserve(more)?;
        self.revisions.reserve(more)?;
        self.links.reserve(more)?;
        self.jobs.reserve(more)?;
        self.spare = self.spare.max(more);
        Ok(())
    }

    /// Where the row of the page with this number stands.
    fn page_place(&self, id: u64) -> Option<usize>
        ensures { result ≡ position (λ page. page.page_id == id) self.now.tables.pages }
    {
        place_of(&self.pages, self.is_in_order, id)
    }

    /// The namespace of the title of the page with this number, which stands at this place.
    fn namespace_of(&self, id: u64, place: usize) -> i64
        requires { position (λ page. page.page_id == id) self.now.tables.pages ≡ Some place }
        ensures { result ≡ namespace_of self.now.tables id }
    {
        self.pages[place].page_namespace
    }

    fn add_revision(&mut self, row: RevisionRow)
        requires { 0 < self.old.spare }
        ensures tables { self.new.tables ≡ edited self.old.tables (add_revision row) }
        ensures spare { self.new.spare + 1 ≡ self.old.spare }
    {
        self.revisions.push_reserved(row);
        self.spare -= 1;
    }

    fn set_page(&mut self, row: PageRow)
        requires room { 0 < self.old.spare }
        requires fits { edit_fits self.old.tables (set_page row) ≡ true }
        ensures tables { self.new.tables ≡ edited self.old.tables (set_page row) }
        ensures spare { self.new.spare + 1 ≡ self.old.spare }
    {
        let place = self.page_place(row.page_id);
        put_page(&mut self.pages, &mut self.links, place, row);
        self.spare -= 1;
    }

    fn set_rows(&mut self, page: u64, rows: PageRows)
        requires room { edit_room (set_rows page rows) ≤ self.old.spare }
        requires fits { edit_fits self.old.tables (set_rows page rows) ≡ true }
        ensures tables { self.new.tables ≡ edited self.old.tables (set_rows page rows) }
        ensures spare { self.new.spare + edit_room (set_rows page rows) ≡ self.old.spare }
    {
        let place = self.page_place(page).unwrap();
        let namespace = self.namespace_of(page, place);
        self.spare -= lists_room(&rows).unwrap();
        self.links.set_rows(place, page, namespace, rows);
    }

    fn add_job(&mut self, row: JobRow)
        requires { 0 < self.old.spare }
        ensures tables { self.new.tables ≡ edited self.old.tables (add_job row) }
        ensures spare { self.new.spare + 1 ≡ self.old.spare }
    {
        self.jobs.add(row);
        self.spare -= 1;
    }

    fn set_job(&mut self, row: JobRow)
        ensures tables { self.new.tables ≡ edited self.old.tables (set_job row) }
        ensures spare { self.new.spare ≡ self.old.spare }
    {
        self.jobs.set(row);
    }

    fn drop_job(&mut self, id: u64)
        ensures tables { self.new.tables ≡ edited self.old.tables (drop_job id) }
        ensures spare { self.new.spare ≡ self.old.spare }
    {
        self.jobs.take_away(id);
    }

    fn set_version(&mut self, version: u64)
        ensures tables { self.new.tables ≡ edited self.old.tables (set_version version) }
        ensures spare { self.new.spare ≡ self.old.spare }
    {
        self.version = version;
    }

    fn edit(&mut self, edit: RowEdit)
        requires room { edit_room (edit_of edit) ≤ self.old.spare }
        requires fits { edit_fits self.old.tables (edit_of edit) ≡ true }
        ensures tables { self.new.tables ≡ edited self.old.tables (edit_of edit) }
        ensures room { self.old.spare ≤ self.new.spare + edit_room (edit_of edit) }
    {
        match edit {
            RowEdit::AddRevision(row) => self.add_revision(row),
            RowEdit::SetPage(row) => self.set_page(row),
            RowEdit::SetRows(page, rows) => self.set_rows(u64::from(page), rows),
            RowEdit::AddJob(row) => self.add_job(row),
            RowEdit::SetJob(row) => self.set_job(row),
            RowEdit::DropJob(id) => self.drop_job(id),
            RowEdit::SetVersion(version) => self.set_version(version),
        }
    }
}

/// Puts the row at the place of its page, or at the end.
fn put_page(pages: &mut Vec<PageRow>, links: &mut Links, place: Option<usize>, row: PageRow)
    requires place { place ≡ position (λ page. page.page_id == row.page_id) pages.old.items }
    requires above { place ≡ None → All (λ earlier. earlier.page_id < row.page_id) pages.old.items }
    requires room { (vec_len pages.old < vec_capacity pages.old) × HaveRoom links.old 1 }
    requires by_page { ArePagesOf (pages_of links.old) pages.old.items }
    ensures pages { pages.new.items ≡ with_page pages.old.items row }
    ensures links { lists_of links.new ≡ lists_of links.old }
    ensures by_page { ArePagesOf (pages_of links.new) pages.new.items }
    ensures rising { IsRising (λ page. page.page_id) pages.old.items → IsRising (λ page. page.page_id) pages.new.items }
    ensures len { vec_len pages.new ≤ vec_len pages.old + 1 }
    ensures room { (n m : ℕ) → n + 1 ≤ m → HaveRoom links.old m → HaveRoom links.new n }
    ensures capacity { vec_capacity pages.new ≡ vec_capacity pages.old }
{
    match place {
        Some(place) => pages[place] = row,
        None => {
            links.add_page(row.page_id);
            pages.push_reserved(row);
        }
    }
}

/// The first rule of a good store that the tables break, and the least row that breaks it, counted from 1, or `None`
/// exactly where they break none. `broken_rows` lists the rules.
pub fn broken(alloc: Global, tables: &Tables) -> Result<Option<BadStore>, Memory>
    ensures { IfOk result (λ bad. bad ≡ first_broken tables.now.tables) }
{
    let rows = tables.rows()?;
    broken_rows(alloc, &rows)
}

/// Makes room for the change. The tables stay as they were, and the room stays until they change.
pub fn make_room(tables: &mut Tables, change: &Change) -> Result<(), Memory>
    ensures tables { tables.new.tables ≡ tables.old.tables }
    ensures room { OnOk result (room_for change.now ≤ tables.new.spare) }
    ensures not_less { tables.old.spare ≤ tables.new.spare }
{
    let room = change.room()?;
    tables.reserve(room)
}

/// Makes the edits of the change in order. The change fits the tables, and they have room for it. Takes no memory.
pub fn apply(tables: &mut Tables, change: Change)
    requires fits { fits tables.old.tables change ≡ true }
    requires room { room_for change ≤ tables.old.spare }
    ensures { tables.new.tables ≡ applied tables.old.tables change }
{
    let Change { edits } = change;
    for edit in edits {
        tables.edit(edit);
    }
}

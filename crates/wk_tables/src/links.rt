//! The link tables and the redirect table.
ghost use Rattle.std.specs.Prelude.{◌≡◌, ℕ, ◌+◌, ◌≤◌, ◌<◌, ◌==◌, ◌++◌, ◌∷◌, [], IfSome, OnOk, Some, option_map, position};
ghost use Rattle.std.specs.List.{All};
ghost use Rattle.std.specs.Option.{option_to_list};
ghost use Rattle.wk_tables.specs.LinkLists.{no_lists, rows_of_lists, with_rows_of_page};
ghost use Rattle.wk_tables.specs.Links.{EachPages, HaveRoom, lists_of, map_pages, none_held, pages_of};
ghost use Rattle.wk_table_rows.specs.PageTable.{items_of};
ghost use Rattle.wk_tables.specs.Room.{lists_room};

use std::alloc::Global;
use wk_bytes::Text;
use wk_memory::Memory;
use wk_table_rows::{CategoryRow, Items, LinkRow, PageRows, PageTable, RedirectRow};
use wk_title::Title;

/// The link tables and the redirect table, each kept by page where its rows are in the order of their pages.
#[derive(Drop)]
pub struct Links {
    pub pagelinks: PageTable<LinkRow, Title>,
    pub templatelinks: PageTable<LinkRow, Title>,
    pub existlinks: PageTable<LinkRow, Title>,
    pub categorylinks: PageTable<CategoryRow, (Title, Text, Text)>,
    pub redirects: PageTable<RedirectRow, Title>,
}

/// The title, where there is one.
fn items_of_title(alloc: Global, title: Option<Title>) -> Items<Title>
    ensures { items_of result ≡ option_to_list title }
{
    match title {
        Some(title) => Items::One(title),
        None => Items::Many(Vec::new(alloc)),
    }
}

impl Links {
    /// No rows and no pages. Takes no memory.
    pub fn new(alloc: Global) -> Links
        ensures rows { lists_of result ≡ no_lists }
        ensures pages { pages_of result ≡ none_held }
    {
        Links {
            pagelinks: PageTable::new(alloc),
            templatelinks: PageTable::new(alloc),
            existlinks: PageTable::new(alloc),
            categorylinks: PageTable::new(alloc),
            redirects: PageTable::new(alloc),
        }
    }

    /// Makes room for this many pages, or rows of each table, more than there are. Room that was there before stays.
    pub fn reserve(&mut self, more: usize) -> Result<(), Memory>
        ensures rows { lists_of self.new ≡ lists_of self.old }
        ensures pages { pages_of self.new ≡ pages_of self.old }
        ensures room { OnOk result (HaveRoom self.new more) }
        ensures not_less { (n : ℕ) → HaveRoom self.old n → HaveRoom self.new n }
    {
        self.pagelinks.reserve(more)?;
        self.templatelinks.reserve(more)?;
        self.existlinks.reserve(more)?;
        self.categorylinks.reserve(more)?;
        self.redirects.reserve(more)
    }

    /// Adds a page without rows, above all pages. Takes no memory.
    pub fn add_page(&mut self, page: u64)
        requires room { HaveRoom self.old 1 }
        requires above { EachPages (λ held. IfSome held (All (λ earlier. earlier < page))) (pages_of self.old) }
        ensures rows { lists_of self.new ≡ lists_of self.old }
        ensures pages { pages_of self.new ≡ map_pages (option_map (λ pages. pages ++ page ∷ [])) (pages_of self.old) }
        ensures kept { (n m : ℕ) → n + 1 ≤ m → HaveRoom self.old m → HaveRoom self.new n }
    {
        self.pagelinks.add_page(page);
        self.templatelinks.add_page(page);
        self.existlinks.add_page(page);
        self.categorylinks.add_page(page);
        self.redirects.add_page(page);
    }

    /// Makes these all rows of the page, which stands at this place among the pages, and whose title is in this namespace.
    /// Takes no memory.
    pub fn set_rows(&mut self, place: usize, page: u64, namespace: i64, rows: PageRows)
        requires room { HaveRoom self.old (lists_room rows) }
        requires at { EachPages (λ held. IfSome held (λ pages. position (λ other. other == page) pages ≡ Some place)) (pages_of self.old) }
        ensures rows { lists_of self.new ≡ with_rows_of_page (lists_of self.old) page (rows_of_lists page namespace rows) }
        ensures pages { pages_of self.new ≡ pages_of self.old }
        ensures kept { (n m : ℕ) → n + lists_room rows ≤ m → HaveRoom self.old m → HaveRoom self.new n }
    {
        let PageRows {
            templates,
            exists,
            links,
            members,
            redirect,
        } = rows;
        let redirect = items_of_title(*links.allocator(), redirect);
        self.pagelinks
            .set(place, page, namespace, Items::Many(links));
        self.templatelinks
            .set(place, page, namespace, Items::Many(templates));
        self.existlinks
            .set(place, page, namespace, Items::Many(exists));
        self.categorylinks
            .set(place, page, namespace, Items::Many(members));
        self.redirects.set(place, page, namespace, redirect);
    }
}

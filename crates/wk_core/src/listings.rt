//! What answers and tools read of a wiki: revisions and pages by number, stored link rows, and the pages of a title.
ghost use Rattle.std.specs.Prelude.{◌≡◌, length, IfOk, Some, None};
ghost use Rattle.std.specs.Option.{option_copied, option_map};
ghost use Rattle.wk_page_rules.specs.History.{current_revision, page_number};
ghost use Rattle.wk_wiki_rules.specs.Users.{users};
ghost use Rattle.wk_wiki_rules.specs.Links.{linking_pages};
ghost use Rattle.wk_wiki_rules.specs.Members.{members_behind};
ghost use Rattle.wk_wiki_rules.specs.Revisions.{count_existing, newest_below};
ghost use Rattle.wk_wiki_rules.specs.States.{page_at};
ghost use Rattle.wk_wiki_rules.specs.Entries.{revision_at};
ghost use Rattle.wk_index.specs.Named.{rows_at};

use crate::wiki::Wiki;
use wk_index::MemberPage;
use wk_keeper::Keeper;
use wk_memory::Memory;
use wk_page_rules::Reach;
use wk_revs::Revision;
use wk_table_rows::PageRows;
use wk_title::Title;

impl<K: Keeper> Wiki<K> {
    /// The revision with this number, `None` exactly where there is none. Takes no memory.
    pub fn revision(&self, number: u64) -> Option<&Revision>
        ensures { option_copied result ≡ revision_at self.now.state.history number }
    {
        self.life.live().revs().revision(number)
    }

    /// How many revisions there are. Takes no memory.
    pub fn revision_count(&self) -> u64
        ensures { result ≡ length self.now.state.history.revisions }
    {
        self.life.live().revs().next_revision() - 1
    }

    /// The page's newest revision below this number, deletions among them, `None` exactly where there is none. Takes no
    /// memory.
    pub fn newest_below(&self, page: u32, number: u64) -> Option<u64>
        ensures { result ≡ newest_below self.now.state.history page number }
    {
        self.life.live().revs().newest_below(page, number)
    }

    /// The number of the title's page, `None` exactly where no save of the title was ever made. Takes no memory.
    pub fn page(&self, title: &Title) -> Option<u32>
        ensures { result ≡ page_number self.now.state.history title.now }
    {
        self.life.live().revs().page(title)
    }

    /// The page's current revision, 0 where the page is missing. Takes no memory.
    pub fn current(&self, title: &Title) -> u64
        ensures { result ≡ current_revision self.now.state.history title.now }
    {
        self.life.live().revs().current(title)
    }

    /// The title and the current revision, 0 where it is missing, of the page with this number, `None` exactly where
    /// there is none. Takes no memory.
    pub fn page_at(&self, number: u32) -> Option<(&Title, u64)>
        ensures { option_map (λ page. record { title = page.0.now; current = page.1 }) result ≡ page_at self.now.state.history number }
    {
        self.life.live().revs().page_at(number)
    }

    /// How many pages there are, those that are missing now among them. Takes no memory.
    pub fn page_count(&self) -> usize
        ensures { result ≡ length self.now.state.history.pages }
    {
        self.life.live().revs().page_count()
    }

    /// How many pages exist. Takes no memory.
    pub fn existing_count(&self) -> usize
        ensures { result ≡ count_existing self.now.state.history }
    {
        self.life.live().revs().existing_count()
    }

    /// The stored link rows of the page with this number, `None` exactly where there is no such page. Takes no memory.
    pub fn rows(&self, page: u32) -> Option<&PageRows>
        ensures { option_copied result ≡ rows_at self.now.state.stored page }
    {
        match self.life.live().index().rows(page) {
            Some(rows) => Some(rows.rows()),
            None => None,
        }
    }

    /// The numbers above a number of the pages whose stored rows name the title, rising, at most so many (MediaWiki's
    /// API:Embeddedin lists those that include it).
    pub fn users(
        &self,
        title: &Title,
        reach: Reach,
        above: u32,
        most: usize,
    ) -> Result<Vec<u32>, Memory>
        ensures { IfOk result (λ pages. pages.items ≡ users self.now.state.stored title.now reach above most) }
    {
        self.life.live().index().users(title, reach, above, most)
    }

    /// The numbers above a number of the pages whose stored rows link to the title, rising, at most so many (MediaWiki's
    /// API:Backlinks).
    pub fn linking_pages(&self, title: &Title, above: u32, most: usize) -> Result<Vec<u32>, Memory>
        ensures { IfOk result (λ pages. pages.items ≡ linking_pages self.now.state.stored title.now above most) }
    {
        self.life.live().index().linking_pages(title, above, most)
    }

    /// The members of the category in the order of their sort keys, and then of their pages, behind the first so many and
    /// at most so many (MediaWiki's API:Categorymembers; the order of pages with one sort key is own).
    pub fn members(
        &self,
        category: &Title,
        passed: usize,
        most: usize,
    ) -> Result<Vec<MemberPage>, Memory>
        ensures { IfOk result (λ members. members.items ≡ members_behind self.now.state.stored category.now passed most) }
    {
        self.life.live().index().members(category, passed, most)
    }
}

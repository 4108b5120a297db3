//! An index out of the tables of a store, in one walk over the pages.
ghost use Rattle.std.specs.Prelude.{◌≡◌, ◌<◌, ◌++◌, ◌∷◌, [], IfOk, OnOk, length};
ghost use Rattle.wk_page_rules.specs.Verdict.{max_pages};
ghost use Rattle.wk_table_rules.specs.Stored.{rows_of_page, stored_rows};
ghost use Rattle.wk_index.specs.Loadable.{AreLoadable};

use crate::gathered::Gathered;
use crate::index::Index;
use crate::load::page_rows;
use crate::shared_rows::SharedRows;
use crate::title_map::TitleMap;
use std::alloc::Global;
use std::marker::Model;
use wk_memory::Memory;
use wk_table_rows::TableRows;

/// The rows of the pages that were walked over, and what the pages are found by. Contracts see the rows page by page.
#[derive(Drop)]
struct Loading {
    rows: Vec<SharedRows>,
    gathered: Gathered,
}

impl Model for Loading {
    ghost use Rattle.std.specs.Prelude.{◌≤◌, List, vec_len};
    ghost use Rattle.wk_page_rules.specs.Verdict.{max_pages};
    ghost use Rattle.wk_page_rules.specs.PageRows.{PageRows};
    ghost use Rattle.wk_index.specs.Gathered.{GathersAll};

    ghost Value = { List PageRows };

    ghost view = { λ l. l.rows.items };

    ghost invariant = { λ l. (vec_len l.rows ≤ max_pages) × GathersAll l.rows.items l.gathered };
}

impl Loading {
    /// No pages. Takes no memory.
    fn new(alloc: Global) -> Loading
        ensures { result ≡ [] }
    {
        Loading {
            rows: Vec::new(alloc),
            gathered: Gathered::new(alloc),
        }
    }

    /// Adds the page with this number in the tables.
    fn push(
        &mut self,
        alloc: Global,
        made: &mut TitleMap,
        tables: &TableRows,
        page: u64,
    ) -> Result<(), Memory>
        requires few { length self.old < max_pages }
        requires loadable { AreLoadable tables.now }
        ensures { OnOk result (self.new ≡ self.old ++ rows_of_page tables.now page ∷ []) }
    {
        let number = self.rows.len() as u32 + 1;
        let rows = page_rows(alloc, made, &mut self.gathered, tables, page, number)?;
        self.rows.push(SharedRows::new(rows)?)?;
        Ok(())
    }

    /// The index of the pages.
    fn into_index(self, alloc: Global) -> Result<Index, Memory>
        ensures { IfOk result (λ index. index ≡ record { stored = self; spare = 0 }) }
    {
        let Loading { rows, gathered } = self;
        let found = gathered.into_found(alloc)?;
        Ok(Index::found_by(alloc, rows, found))
    }
}

/// The rows of each page, in one walk over the pages. Rows that name one title share it.
pub fn load_rows(rows: &TableRows) -> Result<Index, Memory>
    requires { AreLoadable rows.now }
    ensures { IfOk result (λ index. index.stored ≡ stored_rows rows.now) }
{
    let pages = rows.pages.as_slice();
    let alloc = *rows.pages.allocator();
    let mut made = TitleMap::new(alloc);
    let mut loading = Loading::new(alloc);
    for page in pages {
        loading.push(alloc, &mut made, rows, page.page_id)?;
    }
    let index = loading.into_index(alloc)?;
    Ok(index)
}

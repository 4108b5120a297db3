//! The change of a store of version 1.
ghost use Rattle.std.specs.Prelude.{◌≡◌, ◌≤◌, IfOk};
ghost use Rattle.std.specs.List.{range_with_len};
ghost use Rattle.wk_page_rules.specs.Verdict.{max_pages};
ghost use Rattle.wk_table_rules.specs.GoodStore.{IsGood};
ghost use Rattle.wk_wiki_rules.specs.TableChanges.{migration};

use crate::job_rows::refreshes_edits;
use std::alloc::Global;
use wk_jobs::Jobs;
use wk_memory::Memory;
use wk_revs::Revs;
use wk_tables::{Change, RowEdit, Tables};

/// The version of a new store.
const NEWEST_VERSION: u64 = 2;

/// The numbers of so many pages.
fn page_numbers(alloc: Global, count: usize) -> Result<Vec<u32>, Memory>
    requires { count ≤ max_pages }
    ensures { IfOk result (λ pages. pages.items ≡ range_with_len 1 count) }
{
    let mut pages = Vec::with_capacity(alloc, count)?;
    for place in 0..count {
        pages.push(place as u32 + 1)?;
    }
    Ok(pages)
}

/// The change of the tables of a good store by which one of version 1 gets the newest version, and a refresh job of each
/// page that has none, in the order of the pages. For another version it has no edits. It goes over all pages, revisions and
/// jobs of a store of version 1.
pub fn migration(alloc: Global, tables: &Tables) -> Result<Change, Memory>
    requires { IsGood tables.now.tables }
    ensures { IfOk result (λ change. change ≡ migration tables.now.tables) }
{
    let mut edits = Vec::new(alloc);
    if tables.version() != 1 {
        return Ok(Change { edits });
    }
    let revs = Revs::load(alloc, tables)?;
    let jobs = Jobs::load(tables)?;
    let pages = page_numbers(alloc, revs.page_count())?;
    let mut refreshes = refreshes_edits(alloc, &revs, &jobs, &pages)?;
    edits.push(RowEdit::SetVersion(NEWEST_VERSION))?;
    edits.append(&mut refreshes)?;
    Ok(Change { edits })
}

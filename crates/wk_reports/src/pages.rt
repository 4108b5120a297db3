//! The pages of a wiki, one after the other, with their stored link rows.
ghost use Rattle.std.specs.Prelude.{◌≡◌, ◌≤◌, ◌<◌, ◌+◌, Some, is_some, length, slice_get};
ghost use Rattle.wk_wiki_rules.specs.States.{stored_at, world_of};
ghost use Rattle.wk_wiki_laws.specs.Kept.{IsKept};
ghost use Rattle.wk_report_rules.specs.Pages.{stored_pages};
ghost use Rattle.wk_reports.specs.Titled.{IsPageTitled};

use wk_core::{Kind, Live};
use wk_table_rows::PageRows;
use wk_title::Title;

/// How many pages there are, those that are missing now among them. Takes no memory.
pub fn page_count(live: &Live) -> u32
    requires { IsKept live.now.state }
    ensures { result ≡ length (stored_pages live.now.state) }
{
    live.revs().page_count() as u32
}

/// The stored link rows of a page that is there. Takes no memory.
pub fn rows_of(live: &Live, page: u32) -> &PageRows
    requires some { 1 ≤ page }
    requires there { page ≤ length live.now.state.stored }
    ensures { result.now ≡ stored_at live.now.state page }
{
    let Some(stored) = live.index().rows(page) else {
        unreachable!()
    };
    stored.rows()
}

/// The title of a page that is there. Takes no memory.
fn title_at(live: &Live, page: u32) -> &Title
    requires some { 1 ≤ page }
    requires there { page ≤ length live.now.state.history.pages }
    ensures { IsPageTitled live.now.state page result.now }
{
    let Some((title, _)) = live.revs().page_at(page) else {
        unreachable!()
    };
    title
}

/// The title and the stored link rows of the page at a place, of which the first is 0. Takes no memory.
pub fn page_at(live: &Live, place: u32) -> (&Title, &PageRows)
    requires kept { IsKept live.now.state }
    requires there { place < length (stored_pages live.now.state) }
    ensures { slice_get (stored_pages live.now.state) place ≡ Some (record { title = result.0.now; rows = result.1.now }) }
{
    let page = place + 1;
    (title_at(live, page), rows_of(live, page))
}

/// Whether the page of the title exists. Takes no memory.
pub fn is_there(live: &Live, title: &Title) -> bool
    ensures { result ≡ is_some (world_of live.now.state title.now) }
{
    live.present_mark(title, Kind::Exists) == 1
}

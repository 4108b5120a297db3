//! The numbers of rows and of pages.
ghost use Rattle.std.specs.Prelude.{◌≡◌, ◌+◌, ◌^◌, ◌<◌, ◌==◌, None, length};
ghost use Rattle.std.specs.List.{list_any};
ghost use Rattle.wk_table_rules.specs.GoodStore.{first_bad, has_good_id};

use wk_table_rows::PageRow;

/// The number of the row at this place: rows are counted from 1.
pub fn row_number(place: usize) -> u64
    requires { place < 2 ^ 63 }
    ensures { result ≡ place + 1 }
{
    place as u64 + 1
}

/// Whether a page has this number. The numbers of the pages are their places, counted from 1.
pub fn has_page(pages: &[PageRow], id: u64) -> bool
    requires { first_bad has_good_id pages.now ≡ None }
    ensures { result ≡ list_any (λ page. page.page_id == id) pages.now }
{
    1 <= id && id <= pages.len() as u64
}

/// Where the page with this number stands. The numbers of the pages are their places, counted from 1.
pub fn page_place(pages: usize, id: u64) -> usize
    requires there { 0 < id }
    requires within { id < pages + 1 }
    ensures place { result + 1 ≡ id }
    ensures within { result < pages }
{
    (id - 1) as usize
}

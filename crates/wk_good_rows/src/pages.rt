//! The rules of the table page alone: numbers and titles.
ghost use Rattle.std.specs.Prelude.{◌≡◌, ◌==◌, ◌&&◌, ◌++◌, ◌∷◌, [], true, None, nat_le, IfOk, List};
ghost use Rattle.wk_table_rules.specs.Rows.{PageColumns};
ghost use Rattle.wk_page_rules.specs.Verdict.{max_pages};
ghost use Rattle.wk_table_rules.specs.GoodStore.{first_bad, has_good_id, has_good_title};
ghost use Rattle.wk_good_rows.specs.Among.{IsTitlesOf};

use crate::normal::is_page_title;
use crate::number::row_number;
use crate::titles::TitleSet;
use std::alloc::Global;
use wk_memory::Memory;
use wk_table_rows::PageRow;

/// The greatest number of a page.
const MAX_PAGES: u64 = 1_000_000;

/// Whether the page has this number, which is not too great.
fn has_good_id(page: &PageRow, number: u64) -> bool
    ensures { result ≡ (page.now.page_id == number && nat_le page.now.page_id max_pages) }
{
    page.page_id == number && page.page_id <= MAX_PAGES
}

/// The first row whose number isn't its own, counted from 1, or is too great.
pub fn bad_id(pages: &[PageRow]) -> Option<u64>
    ensures { result ≡ first_bad has_good_id pages.now }
{
    for i in 0..pages.len() {
        let page = &pages[i];
        if !has_good_id(page, row_number(i)) {
            return Some(row_number(i));
        }
    }
    None
}

/// Whether the page's title is one that a page can have, and none of those before it. It is added to them.
fn is_good_title(alloc: Global, titles: &mut TitleSet, page: &PageRow) -> Result<bool, Memory>
    ensures good { IfOk result (λ good. (before : List PageColumns) → IsTitlesOf titles.old before → good ≡ has_good_title before page.now) }
    ensures titles { IfOk result (λ good. (before : List PageColumns) → good ≡ true → IsTitlesOf titles.old before → IsTitlesOf titles.new (before ++ page.now ∷ [])) }
{
    if !is_page_title(alloc, page.page_namespace, &page.page_title)? {
        return Ok(false);
    }
    let is_new = titles.add(page.page_namespace, &page.page_title)?;
    Ok(is_new)
}

/// The first row whose title isn't one that a page can have, or is an earlier page's. Where there is none, the titles
/// are those of the pages.
pub fn bad_title(
    alloc: Global,
    pages: &[PageRow],
    titles: &mut TitleSet,
) -> Result<Option<u64>, Memory>
    requires { IsTitlesOf titles.old [] }
    ensures bad { IfOk result (λ bad. bad ≡ first_bad has_good_title pages.now) }
    ensures titles { IfOk result (λ bad. bad ≡ None → IsTitlesOf titles.new pages.now) }
{
    for i in 0..pages.len() {
        if !is_good_title(alloc, titles, &pages[i])? {
            return Ok(Some(row_number(i)));
        }
    }
    Ok(None)
}

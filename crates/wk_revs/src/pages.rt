//! The pages of a wiki: a map from each title that was ever saved to its page's current revision, 0 where the page is
//! missing. Its entries stand in the order of the first saves, so that a page's number is one more than its place.
ghost use Rattle.std.specs.Prelude.{◌≡◌, ◌+◌, ◌-◌, ◌<◌, ◌≤◌, ◌==◌, None, length, max, unwrap_or, if◌then◌else◌, slice_get};
ghost use Rattle.std.specs.Option.{option_map};
ghost use Rattle.indexmap.specs.IndexMap.{spare};
ghost use Rattle.wk_page_rules.specs.History.{current_revision, page_number, page_to_save, with_current};
ghost use Rattle.wk_page_rules.specs.Verdict.{max_pages};
ghost use Rattle.wk_revs.specs.Revs.{existence, existing_in, of_pages, pages_of};

use indexmap::IndexMap;
use wk_title::Title;

/// The pages by their titles.
pub type Pages = IndexMap<Title, u64>;

/// The number and the current revision, 0 where it is missing, of the title's page, for which the map is searched once.
#[tactic(auto, using(crate::proofs::PageLaws::place_within))]
pub fn found(pages: &Pages, title: &Title) -> Option<(u32, u64)>
    requires { length pages.now.entries ≤ max_pages }
    ensures number { option_map (λ page. page.0) result ≡ page_number (of_pages (pages_of pages.now.entries)) title.now }
    ensures current { unwrap_or (option_map (λ page. page.1) result) 0
        ≡ current_revision (of_pages (pages_of pages.now.entries)) title.now }
{
    match pages.get_full(title) {
        Some((place, _, current)) => Some((place as u32 + 1, *current)),
        None => None,
    }
}

/// The title and the current revision of the page with this number.
pub fn page_at(pages: &Pages, number: u32) -> Option<(&Title, u64)>
    ensures { option_map (λ page. record { title = page.0.now; current = page.1 }) result
        ≡ (if number == 0 then None else slice_get (pages_of pages.now.entries) (number - 1)) }
{
    if number == 0 {
        return None;
    }
    match pages.get_index(number as usize - 1) {
        Some((title, current)) => Some((title, *current)),
        None => None,
    }
}

/// Makes this revision the current one of the title's page, which goes to the end where the title has none yet, and
/// gives the page's number and the revision that was current before, 0 where the page was missing.
pub fn put_current(pages: &mut Pages, title: Title, number: u64) -> (u32, u64)
    requires room { 0 < spare pages.old }
    requires within { length pages.old.entries ≤ max_pages }
    requires fits { page_number (of_pages (pages_of pages.old.entries)) title ≡ None → length pages.old.entries < max_pages }
    ensures pages { pages_of pages.new.entries ≡ with_current (pages_of pages.old.entries) title number }
    ensures page { result.0 ≡ page_to_save (of_pages (pages_of pages.old.entries)) title }
    ensures parent { result.1 ≡ current_revision (of_pages (pages_of pages.old.entries)) title }
    ensures some { 0 < result.0 }
    ensures near { result.0 ≤ length pages.old.entries + 1 }
    ensures len { length pages.new.entries ≡ max (length pages.old.entries) result.0 }
    ensures few { length pages.new.entries ≤ max_pages }
    ensures spare { spare pages.old ≤ spare pages.new + 1 }
    ensures counted { existence result.1 ≤ existing_in pages.old.entries }
    ensures existing { existing_in pages.new.entries + existence result.1 ≡ existing_in pages.old.entries + existence number }
{
    match pages.insert_full(title, number) {
        Ok((place, old)) => (place as u32 + 1, old.unwrap_or(0)),
        Err(_) => unreachable!(),
    }
}

/// The number of pages that exist, where one of them gets another current revision.
pub fn existing_after(existing: usize, old: u64, new: u64) -> usize
    requires some { existence old ≤ existing }
    requires fits { existing ≤ max_pages }
    ensures { result + existence old ≡ existing + existence new }
{
    let others = if old == 0 { existing } else { existing - 1 };
    if new == 0 { others } else { others + 1 }
}

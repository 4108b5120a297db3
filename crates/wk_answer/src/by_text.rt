//! What is told of a page and of a given text (MediaWiki's API:Parsing wikitext and API:Expandtemplates).
ghost use Rattle.std.specs.Prelude.{◌≡◌, ◌≢◌, IfOk};
ghost use Rattle.serde_json.specs.View.{view};
ghost use Rattle.wk_revs.specs.Standing.{standing as standing_of};
ghost use Rattle.wk_answer_rules.specs.Pages.{expand_answer, expanded_in, page_shown, parse_answer, parse_entries, shows};
ghost use Rattle.wk_listings.specs.Replied.{value_at};

use serde_json::Value;
use std::alloc::Global;
use wk_bytes::Text;
use wk_expand::{Root, Trees};
use wk_good_rows::MAX_TEXT;
use wk_listings::{invalid_title, missing_title};
use wk_live::{Live, draft_now};
use wk_memory::Memory;
use wk_replies::{PageShown, expanded, parsed};
use wk_revs::{Standing, real_title};
use wk_rows::rows;
use wk_saving::content_too_big;
use wk_title::{Title, named};

/// What is told of a page that exists, of whose title this stands.
fn parsed_page(
    alloc: Global,
    live: &Live,
    title: &Title,
    standing: Standing,
    point: u64,
    trees: &mut Trees,
) -> Result<Value, Memory>
    requires standing { standing ≡ standing_of live.now.state.history title.now }
    requires exists { standing.current ≢ 0 }
    ensures { IfOk result (λ v. view v ≡ value_at point (shows (parse_entries (page_shown live.now.state title.now)))) }
{
    let draft = draft_now(alloc, live, title, &Root::Page, trees)?;
    let rows = rows(alloc, &draft)?;
    let page = PageShown {
        title,
        number: standing.page.unwrap_or(0),
        revision: standing.current,
        text: draft.out().text(),
        rows: &rows,
    };
    parsed(alloc, &page, point)
}

/// What is told of the page that a text names: an error where it names none, or one that doesn't exist.
pub fn parse(
    alloc: Global,
    live: &Live,
    page: &str,
    point: u64,
    trees: &mut Trees,
) -> Result<Value, Memory>
    ensures { IfOk result (λ v. view v ≡ value_at point (parse_answer live.now.state page.now)) }
{
    match real_title(alloc, page)? {
        None => invalid_title(alloc, point),
        Some(title) => {
            let standing = live.revs().standing(&title);
            if standing.current == 0 {
                return missing_title(alloc, point);
            }
            parsed_page(alloc, live, &title, standing, point, trees)
        }
    }
}

/// What a text expands to in the place of a title's page: an error where the text is too long.
fn expanded_in(
    alloc: Global,
    live: &Live,
    text: &str,
    title: &Title,
    point: u64,
    trees: &mut Trees,
) -> Result<Value, Memory>
    ensures { IfOk result (λ v. view v ≡ value_at point (expanded_in live.now.state text.now title.now)) }
{
    if MAX_TEXT < text.len() {
        return content_too_big(alloc, point);
    }
    let root = Root::Given(Text::new(alloc, text)?);
    let draft = draft_now(alloc, live, title, &root, trees)?;
    expanded(alloc, draft.out().text(), point)
}

/// What a text expands to in the place of the page that a text names: an error where it names no title.
pub fn expand(
    alloc: Global,
    live: &Live,
    text: &str,
    page: &str,
    point: u64,
    trees: &mut Trees,
) -> Result<Value, Memory>
    ensures { IfOk result (λ v. view v ≡ value_at point (expand_answer live.now.state text.now page.now)) }
{
    match named(alloc, page, 0)? {
        None => invalid_title(alloc, point),
        Some(title) => expanded_in(alloc, live, text, &title, point, trees),
    }
}

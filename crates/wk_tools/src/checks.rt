//! A check of the link rows of all pages.
ghost use Rattle.std.specs.Prelude.{◌≡◌, ◌↔◌, ◌≤◌, ◌++◌, length, IfOk, IsTrue, OnOk};
ghost use Rattle.wk_view_rules.specs.Rows.{rows};
ghost use Rattle.wk_wiki_rules.specs.States.{stored_at, world_of};
ghost use Rattle.wk_wiki_laws.specs.Kept.{IsKept};
ghost use Rattle.wk_tool_rules.specs.Checks.{differing};
ghost use Rattle.wk_tools.specs.Outdated.{IsPageTitled, is_outdated, title_if};

use crate::drains::KEPT_TREES;
use std::alloc::Global;
use wk_core::{Keeper, Live, Wiki};
use wk_expand::{Root, Trees};
use wk_index::is_same;
use wk_life_laws::runs::a_run_keeps_its_form;
use wk_live::draft_now;
use wk_memory::Memory;
use wk_rows::{PageRows, rows};
use wk_title::Title;

/// The link rows that a page has in the present world.
fn present_rows(
    alloc: Global,
    live: &Live,
    title: &Title,
    trees: &mut Trees,
) -> Result<PageRows, Memory>
    ensures { IfOk result (λ found. found ≡ rows (world_of live.now.state) title.now) }
{
    let draft = draft_now(alloc, live, title, &Root::Page, trees)?;
    rows(alloc, &draft)
}

/// Whether these are the stored link rows of a page that is there. Takes no memory.
fn are_stored(live: &Live, page: u32, rows: &PageRows) -> bool
    requires some { 1 ≤ page }
    requires there { page ≤ length live.now.state.stored }
    ensures { IsTrue result ↔ (stored_at live.now.state page ≡ rows.now) }
{
    let Some(stored) = live.index().rows(page) else {
        unreachable!()
    };
    is_same(stored.rows(), rows)
}

/// Whether the stored link rows of a page, which is there and has this title, aren't those that it has in the present world.
fn is_outdated(
    alloc: Global,
    live: &Live,
    page: u32,
    title: &Title,
    trees: &mut Trees,
) -> Result<bool, Memory>
    requires some { 1 ≤ page }
    requires there { page ≤ length live.now.state.stored }
    ensures { IfOk result (λ outdated. outdated ≡ is_outdated live.now.state page title.now) }
{
    let present = present_rows(alloc, live, title, trees)?;
    Ok(!are_stored(live, page, &present))
}

/// Puts the title to those that were found where the page's stored link rows aren't those that it has in the present world.
fn add_outdated(
    alloc: Global,
    live: &Live,
    page: u32,
    title: &Title,
    trees: &mut Trees,
    found: &mut Vec<Title>,
) -> Result<(), Memory>
    requires some { 1 ≤ page }
    requires there { page ≤ length live.now.state.stored }
    ensures { OnOk result (found.new.items ≡ found.old.items ++ title_if (is_outdated live.now.state page title.now) title.now) }
{
    if is_outdated(alloc, live, page, title, trees)? {
        found.push(title.share()?)?;
        return Ok(());
    }
    Ok(())
}

/// The title of a page that is there. Takes no memory.
fn title_at(live: &Live, page: u32) -> &Title
    requires some { 1 ≤ page }
    requires there { page ≤ length live.now.state.history.pages }
    ensures { IsPageTitled live.now.state page result.now }
{
    let Some((title, _)) = live.revs().page_at(page) else {
        unreachable!()
    };
    title
}

/// The titles of the pages whose stored link rows aren't those that they have in the present world.
fn differing(alloc: Global, live: &Live) -> Result<Vec<Title>, Memory>
    requires { IsKept live.now.state }
    ensures { IfOk result (λ titles. titles.items ≡ differing live.now.state) }
{
    let mut trees = Trees::new(alloc, KEPT_TREES)?;
    let mut found = Vec::new(alloc);
    let count = live.revs().page_count() as u32;
    'pages: for place in 0..count {
        let title = title_at(live, place + 1);
        add_outdated(alloc, live, place + 1, title, &mut trees, &mut found)?;
    }
    Ok(found)
}

/// The titles of the pages whose stored link rows aren't those of a new expansion, in the order of the pages. It expands
/// every page of the wiki.
pub fn check<K: Keeper>(wiki: &Wiki<K>) -> Result<Vec<Title>, Memory>
    ensures { IfOk result (λ titles. titles.items ≡ differing wiki.now.state) }
{
    wiki.facts();
    a_run_keeps_its_form();
    differing(wiki.allocator(), wiki.live())
}

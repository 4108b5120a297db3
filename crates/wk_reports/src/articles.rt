//! The pages of main that exist and redirect nowhere: those that no other page names, and those in no category.
ghost use Rattle.std.specs.Prelude.{◌≡◌, ◌&&◌, ◌||◌, IfOk, OnOk, filter, map, not};
ghost use Rattle.std.specs.HashSet.{contains};
ghost use Rattle.std.specs.List.{list_any};
ghost use Rattle.wk_text_rules.specs.Titles.{PageTitle, title_eq};
ghost use Rattle.wk_wiki_rules.specs.States.{world_of};
ghost use Rattle.wk_wiki_laws.specs.Kept.{IsKept};
ghost use Rattle.wk_report_rules.specs.Pages.{stored_pages};
ghost use Rattle.wk_report_rules.specs.Reports.{is_article, is_named_elsewhere, is_orphaned, is_uncategorized, uncounted};
ghost use Rattle.wk_report_lines.specs.Lines.{line_of};

use crate::counted::{Counted, add_line, titles_in};
use crate::pages::{is_there, page_at, page_count};
use std::alloc::Global;
use std::collections::HashSet;
use wk_core::Live;
use wk_memory::Memory;
use wk_report_lines::ReportLine;
use wk_table_rows::PageRows;
use wk_title::Title;

/// Puts the title to those that pages name, where it isn't that of the page itself.
fn name_title(named: &mut HashSet<Title>, own: &Title, title: &Title) -> Result<(), Memory>
    ensures { OnOk result ((other : PageTitle) → contains title_eq named.new other
        ≡ (contains title_eq named.old other || (not (title_eq own.now other) && title_eq other title.now))) }
{
    if title == own {
        return Ok(());
    }
    named.insert(title.share()?)?;
    Ok(())
}

/// Puts titles to those that pages name, but that of the page itself.
fn name_titles(named: &mut HashSet<Title>, own: &Title, titles: &[Title]) -> Result<(), Memory>
    ensures { OnOk result ((other : PageTitle) → contains title_eq named.new other
        ≡ (contains title_eq named.old other || (not (title_eq own.now other) && list_any (title_eq other) titles.now))) }
{
    'titles: for title in titles {
        name_title(named, own, title)?;
    }
    Ok(())
}

/// The titles that some page of another title links to or includes.
fn named_elsewhere(alloc: Global, live: &Live) -> Result<HashSet<Title>, Memory>
    requires { IsKept live.now.state }
    ensures { IfOk result (λ named. (title : PageTitle) → contains title_eq named title ≡ is_named_elsewhere (stored_pages live.now.state) title) }
{
    let mut named = HashSet::new(alloc);
    let count = page_count(live);
    'pages: for place in 0..count {
        let (title, rows) = page_at(live, place);
        name_titles(&mut named, title, titles_in(rows, Counted::Links))?;
        name_titles(&mut named, title, titles_in(rows, Counted::Templates))?;
    }
    Ok(named)
}

/// Whether a page is of main, exists and redirects nowhere. Takes no memory.
fn is_article(live: &Live, title: &Title, rows: &PageRows) -> bool
    ensures { result ≡ is_article (world_of live.now.state) (record { title = title.now; rows = rows.now }) }
{
    if title.ns() != 0 {
        return false;
    }
    if !is_there(live, title) {
        return false;
    }
    rows.redirect.is_none()
}

/// Whether a page is an article that isn't among the titles that other pages name. Takes no memory.
fn is_orphaned(live: &Live, named: &HashSet<Title>, title: &Title, rows: &PageRows) -> bool
    requires { (other : PageTitle) → contains title_eq named.now other ≡ is_named_elsewhere (stored_pages live.now.state) other }
    ensures { result ≡ is_orphaned (world_of live.now.state) (stored_pages live.now.state) (record { title = title.now; rows = rows.now }) }
{
    is_article(live, title, rows) && !named.contains(title)
}

/// Whether a page is an article in no category. Takes no memory.
fn is_uncategorized(live: &Live, title: &Title, rows: &PageRows) -> bool
    ensures { result ≡ is_uncategorized (world_of live.now.state) (record { title = title.now; rows = rows.now }) }
{
    is_article(live, title, rows) && rows.members.is_empty()
}

/// The lines of the orphaned pages, in the order of the pages.
pub fn orphaned(alloc: Global, live: &Live) -> Result<Vec<ReportLine>, Memory>
    requires { IsKept live.now.state }
    ensures { IfOk result (λ lines. map line_of lines.items
        ≡ map uncounted (filter (is_orphaned (world_of live.now.state) (stored_pages live.now.state)) (stored_pages live.now.state))) }
{
    let named = named_elsewhere(alloc, live)?;
    let mut found = Vec::new(alloc);
    let count = page_count(live);
    'pages: for place in 0..count {
        let (title, rows) = page_at(live, place);
        add_line(
            alloc,
            &mut found,
            is_orphaned(live, &named, title, rows),
            0,
            title,
        )?;
    }
    Ok(found)
}

/// The lines of the uncategorized pages, in the order of the pages.
pub fn uncategorized(alloc: Global, live: &Live) -> Result<Vec<ReportLine>, Memory>
    requires { IsKept live.now.state }
    ensures { IfOk result (λ lines. map line_of lines.items
        ≡ map uncounted (filter (is_uncategorized (world_of live.now.state)) (stored_pages live.now.state))) }
{
    let mut found = Vec::new(alloc);
    let count = page_count(live);
    'pages: for place in 0..count {
        let (title, rows) = page_at(live, place);
        add_line(
            alloc,
            &mut found,
            is_uncategorized(live, title, rows),
            0,
            title,
        )?;
    }
    Ok(found)
}

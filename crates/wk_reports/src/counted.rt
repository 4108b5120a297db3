//! Titles that pages have among their rows, each with how many pages have it.
ghost use Rattle.std.specs.Prelude.{◌≡◌, ◌++◌, ◌∷◌, [], IfOk, OnOk, flat_map, map};
ghost use Rattle.wk_wiki_rules.specs.States.{world_of};
ghost use Rattle.wk_wiki_laws.specs.Kept.{IsKept};
ghost use Rattle.wk_report_rules.specs.Pages.{stored_pages};
ghost use Rattle.wk_report_laws.specs.Tally.{tallied_all};
ghost use Rattle.wk_report_lines.specs.Lines.{line_of};
ghost use Rattle.wk_reports.specs.Counted.{counted_lines, is_listed, lines_if, listed_lines, titles_in};

use crate::pages::{is_there, page_at, page_count};
use indexmap::IndexMap;
use std::alloc::Global;
use wk_core::Live;
use wk_memory::Memory;
use wk_report_lines::{ReportLine, Tally, count_titles};
use wk_table_rows::PageRows;
use wk_title::Title;

/// Which titles are counted.
#[derive(Clone, Copy)]
pub enum Counted {
    /// Those that pages link to, of which the missing ones are listed.
    Links,
    /// Those that pages include, which are all listed.
    Templates,
}

/// The titles among the rows that are counted. Takes no memory.
pub fn titles_in(rows: &PageRows, counted: Counted) -> &[Title]
    ensures { result.now ≡ titles_in counted rows.now }
{
    match counted {
        Counted::Links => &rows.links,
        Counted::Templates => &rows.templates,
    }
}

/// Whether a title that was counted is listed. Takes no memory.
fn is_listed(live: &Live, counted: Counted, title: &Title) -> bool
    ensures { result ≡ is_listed counted (world_of live.now.state) title.now }
{
    match counted {
        Counted::Links => !is_there(live, title),
        Counted::Templates => true,
    }
}

/// Counts the titles of each page.
fn tally_pages(alloc: Global, live: &Live, counted: Counted) -> Result<Tally, Memory>
    requires { IsKept live.now.state }
    ensures { IfOk result (λ tally. tally.entries ≡ tallied_all [] (flat_map (λ page. titles_in counted page.rows) (stored_pages live.now.state))) }
{
    let mut tally = IndexMap::new(alloc);
    let count = page_count(live);
    'pages: for place in 0..count {
        let (_, rows) = page_at(live, place);
        count_titles(&mut tally, titles_in(rows, counted))?;
    }
    Ok(tally)
}

/// Puts the line of a title to those that were found, where it is listed.
pub fn add_line(
    alloc: Global,
    found: &mut Vec<ReportLine>,
    listed: bool,
    count: u64,
    title: &Title,
) -> Result<(), Memory>
    ensures { OnOk result (map line_of found.new.items
        ≡ map line_of found.old.items ++ lines_if listed (record { count = count; titles = title.now ∷ [] })) }
{
    if listed {
        let titles = vec![in alloc; title.share()?]?;
        found.push(ReportLine { count, titles })?;
        return Ok(());
    }
    Ok(())
}

/// The lines of the titles that were counted, of those that are listed, in the order in which they were first counted.
fn listed_lines(
    alloc: Global,
    live: &Live,
    counted: Counted,
    tally: &Tally,
) -> Result<Vec<ReportLine>, Memory>
    ensures { IfOk result (λ lines. map line_of lines.items ≡ listed_lines counted (world_of live.now.state) tally.now.entries) }
{
    let mut found = Vec::new(alloc);
    'titles: for place in 0..tally.len() {
        let Some((title, count)) = tally.get_index(place) else {
            unreachable!()
        };
        add_line(
            alloc,
            &mut found,
            is_listed(live, counted, title),
            *count,
            title,
        )?;
    }
    Ok(found)
}

/// The lines of the titles that are counted and listed, in no order.
pub fn counted_lines(
    alloc: Global,
    live: &Live,
    counted: Counted,
) -> Result<Vec<ReportLine>, Memory>
    requires { IsKept live.now.state }
    ensures { IfOk result (λ lines. map line_of lines.items
        ≡ counted_lines counted (world_of live.now.state) (stored_pages live.now.state)) }
{
    let tally = tally_pages(alloc, live, counted)?;
    let lines = listed_lines(alloc, live, counted, &tally)?;
    Ok(lines)
}

//! Redirects to redirects.
ghost use Rattle.std.specs.Prelude.{◌≡◌, ◌++◌, IfOk, OnOk, filter_map, map};
ghost use Rattle.std.specs.Option.{option_copied, option_map, option_to_list};
ghost use Rattle.wk_wiki_laws.specs.Kept.{IsKept};
ghost use Rattle.wk_report_rules.specs.Pages.{stored_pages};
ghost use Rattle.wk_report_rules.specs.Reports.{double_redirect, redirect_of};
ghost use Rattle.wk_report_lines.specs.Lines.{line_of};

use crate::pages::{page_at, page_count, rows_of};
use std::alloc::Global;
use wk_core::Live;
use wk_memory::Memory;
use wk_report_lines::ReportLine;
use wk_table_rows::PageRows;
use wk_title::Title;

/// The title that the rows redirect to. Takes no memory.
fn redirect_in(rows: &PageRows) -> Option<&Title>
    ensures { option_copied result ≡ rows.now.redirect }
{
    rows.redirect.as_ref()
}

/// The title that the stored rows of the title's page redirect to. Takes no memory.
fn redirect_of<'a>(live: &'a Live, title: &Title) -> Option<&'a Title>
    requires { IsKept live.now.state }
    ensures { option_copied result ≡ redirect_of (stored_pages live.now.state) title.now }
{
    match live.revs().page(title) {
        Some(page) => redirect_in(rows_of(live, page)),
        None => None,
    }
}

/// The line of a page whose rows redirect to a title whose page redirects on.
fn double_redirect(
    alloc: Global,
    live: &Live,
    title: &Title,
    rows: &PageRows,
) -> Result<Option<ReportLine>, Memory>
    requires { IsKept live.now.state }
    ensures { IfOk result (λ line. option_map line_of line
        ≡ double_redirect (stored_pages live.now.state) (record { title = title.now; rows = rows.now })) }
{
    let Some(second) = redirect_in(rows) else {
        return Ok(None);
    };
    let Some(third) = redirect_of(live, second) else {
        return Ok(None);
    };
    let titles = vec![in alloc; title.share()?, second.share()?, third.share()?]?;
    Ok(Some(ReportLine { count: 0, titles }))
}

/// Puts the line of a page to those that were found, where it is a double redirect.
fn add_double(
    alloc: Global,
    live: &Live,
    title: &Title,
    rows: &PageRows,
    found: &mut Vec<ReportLine>,
) -> Result<(), Memory>
    requires { IsKept live.now.state }
    ensures { OnOk result (map line_of found.new.items ≡ map line_of found.old.items
        ++ option_to_list (double_redirect (stored_pages live.now.state) (record { title = title.now; rows = rows.now }))) }
{
    match double_redirect(alloc, live, title, rows)? {
        Some(line) => {
            found.push(line)?;
            Ok(())
        }
        None => Ok(()),
    }
}

/// The lines of the double redirects, in the order of the pages.
pub fn double_redirects(alloc: Global, live: &Live) -> Result<Vec<ReportLine>, Memory>
    requires { IsKept live.now.state }
    ensures { IfOk result (λ lines. map line_of lines.items
        ≡ filter_map (double_redirect (stored_pages live.now.state)) (stored_pages live.now.state)) }
{
    let mut found = Vec::new(alloc);
    let count = page_count(live);
    'pages: for place in 0..count {
        let (title, rows) = page_at(live, place);
        add_double(alloc, live, title, rows, &mut found)?;
    }
    Ok(found)
}

//! A report of a wiki.
ghost use Rattle.std.specs.Prelude.{◌≡◌, IfOk, map};
ghost use Rattle.wk_wiki_rules.specs.States.{world_of};
ghost use Rattle.wk_wiki_laws.specs.Kept.{IsKept};
ghost use Rattle.wk_report_rules.specs.Pages.{stored_pages};
ghost use Rattle.wk_report_rules.specs.Reports.{report_lines, reported};
ghost use Rattle.wk_report_lines.specs.Lines.{line_of};

use crate::articles::{orphaned, uncategorized};
use crate::counted::{Counted, counted_lines};
use crate::redirects::double_redirects;
use std::alloc::Global;
use wk_core::{Keeper, Live, Wiki};
use wk_life_laws::runs::a_run_keeps_its_form;
use wk_memory::Memory;
use wk_report_lines::{ReportLine, sort_lines};
use wk_report_rules::Report;

/// The lines of a report, in no order.
fn reported(alloc: Global, live: &Live, which: Report) -> Result<Vec<ReportLine>, Memory>
    requires { IsKept live.now.state }
    ensures { IfOk result (λ lines. map line_of lines.items
        ≡ reported which (world_of live.now.state) (stored_pages live.now.state)) }
{
    match which {
        Report::Wanted => counted_lines(alloc, live, Counted::Links),
        Report::Orphaned => orphaned(alloc, live),
        Report::Uncategorized => uncategorized(alloc, live),
        Report::DoubleRedirects => double_redirects(alloc, live),
        Report::MostTemplates => counted_lines(alloc, live, Counted::Templates),
    }
}

/// The lines of a report of a wiki in their order, at most so many: what is wanted, orphaned, uncategorized, redirected twice or
/// included most, by the link rows that are stored of each page, which may be behind the page's text as long as a job is left.
///
/// It goes over all pages, those that are missing now among them, and takes memory for the titles that it counts and for all lines.
/// `Memory` where that runs out.
pub fn report<K: Keeper>(
    wiki: &Wiki<K>,
    which: Report,
    most: usize,
) -> Result<Vec<ReportLine>, Memory>
    ensures { IfOk result (λ lines. map line_of lines.items
        ≡ report_lines which (world_of wiki.now.state) (stored_pages wiki.now.state) most) }
{
    wiki.facts();
    a_run_keeps_its_form();
    let mut lines = reported(wiki.allocator(), wiki.live(), which)?;
    sort_lines(&mut lines);
    lines.truncate(most);
    Ok(lines)
}

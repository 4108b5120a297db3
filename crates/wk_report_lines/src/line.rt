//! Lines, and their order.
ghost use Rattle.std.specs.Prelude.{◌≡◌, map};
ghost use Rattle.wk_report_rules.specs.Reports.{in_order, line_cmp};
ghost use Rattle.wk_report_lines.specs.Lines.{line_of};

use std::cmp::Ordering;
use wk_title::Title;

/// A line of a report.
#[derive(Drop)]
pub struct ReportLine {
    /// How many pages have the title, where they are counted; else 0.
    pub count: u64,
    /// The title; of a double redirect the page, the title that it redirects to, and the one that this redirects to.
    pub titles: Vec<Title>,
}

/// The order of lines: the greater count first, and with one count by the titles.
fn order(a: &ReportLine, b: &ReportLine) -> Ordering
    ensures { result ≡ line_cmp (line_of a.now) (line_of b.now) }
{
    b.count.cmp(&a.count).then(a.titles.cmp(&b.titles))
}

/// Puts lines in their order. Takes no memory.
pub fn sort_lines(lines: &mut Vec<ReportLine>)
    ensures { map line_of lines.new.items ≡ in_order (map line_of lines.old.items) }
{
    lines.sort_unstable_by(|a, b| order(a, b));
}

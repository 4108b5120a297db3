//! The reports that stand.
ghost use Rattle.std.specs.Prelude.{◌≡◌};
ghost use Rattle.wk_words.specs.Reports.{report_named};

use crate::commands::is_name;
use wk_report_rules::Report;

/// The report that the word names, and `None` where it names none that stands. Takes no memory.
pub(crate) fn report_named(word: &str) -> Option<Report>
    ensures { result ≡ report_named word.now }
{
    if is_name("wanted", word) {
        Some(Report::Wanted)
    } else if is_name("orphaned", word) {
        Some(Report::Orphaned)
    } else if is_name("uncategorized", word) {
        Some(Report::Uncategorized)
    } else if is_name("doubleredirects", word) {
        Some(Report::DoubleRedirects)
    } else if is_name("mosttemplates", word) {
        Some(Report::MostTemplates)
    } else {
        None
    }
}

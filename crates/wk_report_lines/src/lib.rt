//! The lines of reports: what a line holds, lines in their order, what is printed of them, and titles that are counted.
#![tactic(auto)]

mod line;
mod tally;
mod text;

pub use line::{ReportLine, sort_lines};
pub use tally::{Tally, count_titles};
pub use text::report_text;

//! What is reported of a wiki: its wanted titles, its orphaned and uncategorized pages, its double redirects, and the titles that
//! it includes most, by the link rows that are stored of each page; and what the command writes of it, over a wiki and over a store.
#![tactic(auto)]

mod articles;
mod counted;
mod over;
mod pages;
mod redirects;
mod reports;
mod written;

pub use over::{Reported, report_over, report_status};
pub use reports::report;
pub use wk_report_lines::ReportLine;
pub use wk_report_rules::Report;
pub use written::{ReportEnd, write_report};

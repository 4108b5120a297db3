//! The rows that a page has in the link tables.
#![tactic(auto)]

mod draft_rows;
mod members;
mod titles;

pub use draft_rows::rows;
pub use wk_table_rows::PageRows;

//! The rows of the tables of a store, copies of them whose texts are shared, the rows of one page, and a table of rows
//! that is kept by page.
#![tactic(auto)]

mod number;
mod numbers;
mod own_rows;
mod page_rows;
mod page_table;
mod rows;
mod share;

pub use number::{Numbered, is_rising, place_in_order, place_of};
pub use page_rows::PageRows;
pub use page_table::{Items, PageTable, RowOf};
pub use rows::{CategoryRow, JobRow, LinkRow, PageRow, RedirectRow, RevisionRow, TableRows};
pub use share::{Share, share_all};

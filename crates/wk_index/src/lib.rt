//! The stored link rows of each page, and the pages and members that are found by them.
#![tactic(auto)]

mod blanks;
mod entries;
mod found;
mod gathered;
mod index;
mod joined;
mod load;
mod loading;
mod lookup;
mod members;
mod named;
mod order;
mod pages;
mod pages_by_title;
mod row_titles;
mod same;
mod shared_rows;
mod title_map;

pub use index::Index;
pub use members::MemberPage;
pub use same::is_same;
pub use shared_rows::SharedRows;

//! The tables of a store: their rows, changes of them that can't be refused once room was made, and the rules of a
//! good store.
#![tactic(auto)]

mod change;
mod job_list;
mod links;
mod tables;

pub use change::{Change, RowEdit};
pub use tables::{Tables, apply, broken, make_room};
pub use wk_page_rules::Reach;
pub use wk_table_rows::{
    CategoryRow, JobRow, LinkRow, PageRow, PageRows as PageLists, RedirectRow, RevisionRow,
    TableRows,
};
pub use wk_table_rules::BadStore;

//! The replies of listings: pages by the links, members of categories, and revisions.
#![tactic(auto)]

mod by_member;
mod by_page;
mod by_revision;
mod entries;
mod fails;
mod numbers;
mod taken;

pub use by_member::members;
pub use by_page::{backlinks, embedded};
pub use by_revision::{changes, revisions};
pub use fails::{invalid_title, missing_title};

//! A cache of drafts by their pages, of bounded size, in the order in which its entries were used last.
#![tactic(auto)]

mod cache;
mod entries;
mod kept;

pub use cache::Cache;
pub use kept::Kept;
pub use wk_expand::SharedDraft;

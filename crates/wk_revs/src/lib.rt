//! The revisions and pages of a wiki, and the verdict on an edit of them.
#![tactic(auto)]

mod chains;
mod edit;
mod kept_text;
mod load;
mod pages;
mod revisions;
mod revs;
mod standing;
mod verdict;

pub use edit::{Edit, Limits, full_is_the_full_limits};
pub use kept_text::kept;
pub use revisions::Revision;
pub use revs::Revs;
pub use standing::Standing;
pub use verdict::{SaveRefusal, Verdict, real_title};
pub use wk_page_rules::Limit;

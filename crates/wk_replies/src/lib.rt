//! The replies of the API as JSON values: errors, what is told of a save, of a page and of a text, and listings.
#![tactic(auto)]

mod errors;
mod lists;
mod members;
mod pages;
mod saves;
mod site;
mod values;

pub use errors::{
    bad_integer, bad_value, edit_conflict, error_reply, future_point, no_title, wiki_full,
};
pub use lists::{change_entry, listed, member_entry, page_entry, revision_entry};
pub use members::{Plain, object, reply, reply_of};
pub use pages::{PageShown, expanded, parsed};
pub use saves::{SavedNumbers, changed, created, deleted, unchanged};
pub use site::{Counts, site_info, tokens};
pub use values::{array_value, shown_text, title_value, titled, titles_value};

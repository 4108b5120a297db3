//! Whether the rows of a store keep the rules of a good store, and where they break one.
#![tactic(auto)]

mod broken;
mod history;
mod jobs;
mod links;
mod normal;
mod normals;
mod number;
mod order;
mod pages;
mod revisions;
mod titles;

pub use broken::broken_rows;
pub use normal::shown_form;
pub use revisions::MAX_TEXT;

//! The answers to requests that save: the save is made and told, or its refusal is. The text of an edit is transformed before, where
//! that is asked for.
#![tactic(auto)]

mod errors;
mod saved_replies;
mod saving;
mod substituting;
mod transforming;

pub use errors::content_too_big;
pub use saving::save_asked;
pub use transforming::{edit_with, save_substituted};

//! The tree of a text: which braces and brackets match, and what each node holds (MediaWiki's Preprocessor ABNF; how
//! braces and brackets that cross are matched is own).
#![tactic(auto)]

mod item;
mod laid;
mod layout;
mod matching;
mod parsed;
mod token;

pub use item::{Item, ListId, NodeId};
pub use parsed::{Parsed, parse};
pub use wk_lex::Mode;

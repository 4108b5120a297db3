//! What of a text is read, and the atoms of what is read (MediaWiki's Preprocessor ABNF and Help:Templates).
#![tactic(auto)]

mod atom;
mod atoms;
mod comment;
mod elements;
mod ends;
mod lexer;
mod marks;
mod places;
mod selection;
mod tags;

pub use atom::Atom;
pub use atoms::lex;
pub use lexer::{Lexer, has_no_mark};
pub use selection::select;
pub use wk_tree_rules::{AtomKind, Mode};

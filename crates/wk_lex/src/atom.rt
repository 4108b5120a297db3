//! Atoms as places in a text.

use wk_tree_rules::AtomKind;

/// An atom of a text: its kind, and the place of its source (MediaWiki's Preprocessor ABNF; the kinds are the
/// profile's).
#[derive(Clone, Copy, PartialEq, Eq)]
pub struct Atom {
    /// What the atom is.
    pub kind: AtomKind,
    /// The place of its first byte, counted in bytes from the start of the text.
    pub start: u32,
    /// How many bytes it covers, at least one.
    pub len: u32,
}

//! The rules of trees, as definitions: what is selected for inclusion, what atoms a text has, how delimiters are
//! matched into nodes, what parts a node has, and what a redirect's target is.
//! Nothing here runs. The contracts of the crates above cite `specs/`.
#![tactic(auto)]

/// How a text is read (MediaWiki's Help:Templates, 'Control template inclusion').
#[derive(Clone, Copy, PartialEq, Eq)]
pub enum Mode {
    /// As the viewed page's own text.
    View,
    /// For inclusion in another page.
    Include,
}

/// What an atom of a text is (MediaWiki's Preprocessor ABNF; the kinds are the profile's).
#[derive(Clone, Copy, PartialEq, Eq)]
pub enum AtomKind {
    /// A line that holds comments and blanks alone, with its newline. Gives nothing.
    LineComment,
    /// A comment, closed or not. Gives nothing.
    Comment,
    /// A `nowiki` or `pre` element. Gives its source, sealed.
    Sealed,
    /// An element that the mode leaves out. Gives nothing.
    Ignored,
    /// A tag that the mode knows and that shows nothing itself. Gives nothing.
    Tag,
    /// A longest run of two or more opening braces, or of two or more opening brackets.
    Open,
    /// A longest run of two or more closing braces, or of two or more closing brackets.
    Close,
    /// A `|`.
    Bar,
    /// A `=`.
    Equals,
    /// Any byte, plain.
    Byte,
}

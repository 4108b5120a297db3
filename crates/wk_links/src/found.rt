//! What is found in an output.
use wk_bytes::Text;
use wk_title::Title;

/// An occurrence of a link in an output.
#[derive(PartialEq, Eq, Drop)]
pub struct Found {
    /// The place of its first byte in the output.
    pub start: usize,
    /// The place behind its last byte.
    pub end: usize,
    /// What it links to.
    pub what: What,
}

/// What an occurrence of a link links to (MediaWiki's Help:Links and Help:Categories).
#[derive(PartialEq, Eq, Drop)]
pub enum What {
    /// A page.
    Page(Title),
    /// A category that the page becomes a member of, with the sort key prefix that the label gives, which is empty
    /// without a label.
    Member(Title, Text),
    /// Nothing that is kept: no title, one in a negative namespace, or a file that is shown.
    Nothing,
}

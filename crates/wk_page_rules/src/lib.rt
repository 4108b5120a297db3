//! The rules of pages and revisions, as definitions: the kept text, what a save does, and when it is refused; and of the rows
//! that a page has in the link tables: the five lists, and which titles they name.
//! Nothing here runs. The contracts of the crates above cite `specs/`.
#![tactic(auto)]

/// Which limit of a wiki a save would pass.
#[derive(Clone, Copy, Debug, PartialEq, Eq)]
pub enum Limit {
    /// The number of pages.
    Pages,
    /// The number of revisions.
    Revisions,
    /// The bytes of the texts of all revisions.
    Text,
}

/// Which rows of a page count, where it is asked which titles they name.
#[derive(Clone, Copy, PartialEq, Eq)]
pub enum Reach {
    /// The titles that the page includes.
    Text,
    /// The titles that the page includes, and those whose existence it tests.
    Both,
}

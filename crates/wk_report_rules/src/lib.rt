//! The rules of reports, as definitions: the lines of each report over the link rows of all pages and the pages that exist, and
//! what is printed of them.
//! Nothing here runs. The contracts of the crates above cite `specs/`.
#![tactic(auto)]

/// What is reported of a wiki.
#[derive(Clone, Copy)]
pub enum Report {
    /// The missing titles that pages link to (MediaWiki's Special:WantedPages).
    Wanted,
    /// The pages that no other page links to or includes (MediaWiki's Special:LonelyPages).
    Orphaned,
    /// The pages that are in no category (MediaWiki's Special:UncategorizedPages).
    Uncategorized,
    /// The redirects to redirects (MediaWiki's Special:DoubleRedirects).
    DoubleRedirects,
    /// The titles that pages include, the most included first (MediaWiki's Special:MostTranscludedPages).
    MostTemplates,
}

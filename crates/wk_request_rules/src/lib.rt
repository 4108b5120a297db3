//! The rules of requests, as definitions: what a request asks, and which parameters ask it or are refused.
//! Nothing here runs. The contracts of the crates above cite `specs/`.
#![tactic(auto)]

/// What a request calls (the modules of MediaWiki's API; which of them there are is own).
#[derive(Clone, Copy, PartialEq, Eq)]
pub enum Module {
    /// `action=edit`: a page is saved.
    Edit,
    /// `action=delete`: a page is deleted.
    Delete,
    /// `action=parse`: what a page expands to, and its links.
    Parse,
    /// `action=expandtemplates`: what a given text expands to.
    ExpandTemplates,
    /// `list=backlinks`: the pages that link to a title.
    Backlinks,
    /// `list=embeddedin`: the pages that include a title.
    EmbeddedIn,
    /// `list=categorymembers`: the members of a category.
    CategoryMembers,
    /// `list=recentchanges`: the revisions of all pages.
    RecentChanges,
    /// `prop=revisions`: the revisions of a page.
    Revisions,
    /// `meta=tokens`: the token with which a page is saved.
    Tokens,
    /// `meta=siteinfo`: the namespaces, and how much the wiki holds.
    SiteInfo,
}

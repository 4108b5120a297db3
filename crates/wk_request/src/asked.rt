//! What is asked, by who answers it.
ghost use Rattle.std.specs.Prelude.{◌≡◌};
ghost use Rattle.wk_request.specs.Asked.{ask_of, asked_of};

use crate::listings::Listing;
use crate::request::Ask;
use wk_revs::Edit;

/// What a request asks, by who answers it. Titles are as they were written.
#[derive(Clone, Copy)]
pub enum Asked<'a> {
    /// A save. A wiki answers it, which it changes, at a moment of the clock.
    Save(SaveAsked<'a>),
    /// An expansion. The texts of pages answer it, and the parsed texts that are kept.
    Read(ReadAsked<'a>),
    /// A part of a list. The stored rows and revisions answer it.
    List(ListAsked<'a>),
    /// What the site is.
    Site(SiteAsked),
}

/// A save that is asked for.
#[derive(Clone, Copy)]
pub enum SaveAsked<'a> {
    /// Of a text.
    Edit(&'a Edit),
    /// Of a page that is to be missing.
    Delete {
        /// The page's title.
        title: &'a str,
        /// The revision that the editor began with.
        base: Option<u64>,
    },
}

/// An expansion that is asked for.
#[derive(Clone, Copy)]
pub enum ReadAsked<'a> {
    /// Of a page, and its links.
    Page {
        /// The page's title.
        page: &'a str,
    },
    /// Of a text.
    Text {
        /// The text.
        text: &'a str,
        /// The title of the page in whose place it stands.
        title: &'a str,
    },
}

/// A list that is asked for.
#[derive(Clone, Copy)]
pub enum ListAsked<'a> {
    /// The pages that link to a title.
    Backlinks(&'a Listing),
    /// The pages that include a title.
    Embedded(&'a Listing),
    /// The members of a category.
    Members(&'a Listing),
    /// The revisions of all pages.
    Changes(&'a Listing),
    /// The revisions of a page, and whether the text of each is asked for.
    Revisions(&'a Listing, bool),
}

/// What is asked of the site.
#[derive(Clone, Copy)]
pub enum SiteAsked {
    /// The token with which a page is saved.
    Tokens,
    /// The namespaces, and how much the wiki holds.
    Info,
}

impl Ask {
    /// What is asked, by who answers it. Takes no memory.
    pub fn asked(&self) -> Asked<'_>
        ensures { asked_of result ≡ ask_of self.now }
    {
        match self {
            Ask::Edit(edit) => Asked::Save(SaveAsked::Edit(edit)),
            Ask::Delete { title, base } => Asked::Save(SaveAsked::Delete {
                title: title.as_str(),
                base: *base,
            }),
            Ask::Parse { page } => Asked::Read(ReadAsked::Page {
                page: page.as_str(),
            }),
            Ask::Expand { text, title } => Asked::Read(ReadAsked::Text {
                text: text.as_str(),
                title: title.as_str(),
            }),
            Ask::Backlinks(listing) => Asked::List(ListAsked::Backlinks(listing)),
            Ask::Embedded(listing) => Asked::List(ListAsked::Embedded(listing)),
            Ask::Members(listing) => Asked::List(ListAsked::Members(listing)),
            Ask::Changes(listing) => Asked::List(ListAsked::Changes(listing)),
            Ask::Revisions(listing, content) => {
                Asked::List(ListAsked::Revisions(listing, *content))
            }
            Ask::Tokens => Asked::Site(SiteAsked::Tokens),
            Ask::SiteInfo => Asked::Site(SiteAsked::Info),
        }
    }
}

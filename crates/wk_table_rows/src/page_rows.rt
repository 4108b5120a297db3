//! The link rows of one page.
ghost use Rattle.std.specs.Prelude.{◌≡◌, IfOk};
ghost use Rattle.wk_page_rules.specs.PageRows.{no_rows};

use crate::share::{Share, share_all};
use std::alloc::Global;
use std::marker::Model;
use wk_bytes::Text;
use wk_memory::Memory;
use wk_title::Title;

/// The rows of a page in the link tables and in the redirect table (MediaWiki's Manual:Pagelinks table,
/// Manual:Templatelinks table, Manual:Categorylinks table and Manual:Redirect table; rows of existence tests are own).
/// What a page expands to gives, and what fits the tables of a good store has, each list in the order of its titles,
/// and each title once.
#[derive(Drop)]
pub struct PageRows {
    /// The titles that the page includes, those that are missing among them.
    pub templates: Vec<Title>,
    /// The titles whose existence the page tests.
    pub exists: Vec<Title>,
    /// The titles that the page links to, with those whose existence it tests.
    pub links: Vec<Title>,
    /// The categories that the page is a member of, each with its sort key and with the prefix that the page gives.
    pub members: Vec<(Title, Text, Text)>,
    /// The title that the page redirects to.
    pub redirect: Option<Title>,
}

impl Model for PageRows {
    ghost use Rattle.std.specs.Prelude.{map};
    ghost use Rattle.wk_page_rules.specs.PageRows.{PageRows};
    ghost use Rattle.wk_table_rows.specs.Members.{member_of};

    ghost Value = { PageRows };

    ghost view = { λ p. record {
      templates = p.templates.items;
      exists = p.exists.items;
      links = p.links.items;
      members = map member_of p.members.items;
      redirect = p.redirect;
    } };
}

impl PageRows {
    /// No rows. Takes no memory.
    pub fn new(alloc: Global) -> PageRows
        ensures { result ≡ no_rows }
    {
        PageRows {
            templates: Vec::new(alloc),
            exists: Vec::new(alloc),
            links: Vec::new(alloc),
            members: Vec::new(alloc),
            redirect: None,
        }
    }
}

impl Share for PageRows {
    fn share(&self) -> Result<PageRows, Memory> {
        let alloc = *self.templates.allocator();
        Ok(PageRows {
            templates: share_all(alloc, &self.templates)?,
            exists: share_all(alloc, &self.exists)?,
            links: share_all(alloc, &self.links)?,
            members: share_all(alloc, &self.members)?,
            redirect: share_title(&self.redirect)?,
        })
    }
}

fn share_title(title: &Option<Title>) -> Result<Option<Title>, Memory>
    ensures { IfOk result (λ shared. shared ≡ title.now) }
{
    match title {
        Some(title) => Ok(Some(Title::share(title)?)),
        None => Ok(None),
    }
}

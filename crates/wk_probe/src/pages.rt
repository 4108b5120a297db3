//! The pages that a request gives, and what they answer.
ghost use Rattle.std.specs.Prelude.{IfOk, IsTrue};
ghost use Rattle.wk_expand.specs.Answers.{answer_of};
ghost use Rattle.wk_view_rules.specs.Worlds.{fits_kind};

use crate::members::shared_text;
use crate::refusal::Refusal;
use crate::titles::title_of;
use serde_json::Value;
use std::alloc::Global;
use std::collections::BTreeMap;
use wk_bytes::Text;
use wk_expand::{Answer, Kind};
use wk_memory::Memory;
use wk_title::Title;

/// A page's current text, and the number of its revision.
#[derive(Drop)]
struct Page {
    revision: u64,
    text: Text,
}

/// The pages that there are, by their titles.
#[derive(Drop)]
pub struct Pages {
    pages: BTreeMap<Title, Page>,
}

impl Pages {
    /// Puts a page under its title. Whether none stood there.
    fn put(&mut self, title: Title, page: Page) -> Result<bool, Memory> {
        let before = self.pages.insert(title, page)?;
        Ok(before.is_none())
    }

    /// What the pages answer about a title.
    pub fn answer(&self, title: &Title, kind: Kind) -> Result<Answer, Memory>
        ensures { IfOk result (λ answer. IsTrue (fits_kind kind (answer_of answer))) }
    {
        let page = self.pages.get(title);
        match kind {
            Kind::Exists => Ok(Answer::Exists(page.is_some())),
            Kind::View | Kind::Include => Ok(Answer::Page(current(page)?)),
        }
    }
}

/// A page's revision and its text, if it is there.
fn current(page: Option<&Page>) -> Result<Option<(u64, Text)>, Memory> {
    match page {
        Some(page) => {
            let text = page.text.share()?;
            Ok(Some((page.revision, text)))
        }
        None => Ok(None),
    }
}

/// The page that a member of `pages` gives, with its title.
fn page_of(
    alloc: Global,
    name: &str,
    text: &Value,
    revision: u64,
) -> Result<(Title, Page), Refusal> {
    let Some(text) = text.as_str() else {
        return Err(Refusal::NoPages);
    };
    let Some(title) = title_of(alloc, name)? else {
        return Err(Refusal::PageWithoutTitle);
    };
    let text = shared_text(alloc, text)?;
    Ok((title, Page { revision, text }))
}

/// The pages that the member `pages` gives. The revisions are numbered from 1 in the order of the members.
pub fn pages_of(alloc: Global, request: &Value) -> Result<Pages, Refusal> {
    let Some(members) = request.get("pages").and_then(Value::as_object) else {
        return Err(Refusal::NoPages);
    };
    let mut pages = Pages {
        pages: BTreeMap::new(alloc),
    };
    let mut revision = 0u64;
    for (name, text) in members {
        revision = revision.saturating_add(1);
        let (title, page) = page_of(alloc, name, text, revision)?;
        if !pages.put(title, page)? {
            return Err(Refusal::SamePage);
        }
    }
    Ok(pages)
}

//! A page that is drafted from its text and those that it includes, with every answer seen.

use std::alloc::Global;
use wk_bytes::Text;
use wk_expand::{Answer, Kind, Root, Seen, Step, Trees, draft};
use wk_memory::Memory;
use wk_title::{Title, page_named};

/// The title of the page that is drafted.
pub const VIEWED: &str = "Page 1";

/// Notes what the page's own text is, or that of a page which is included, if it is there, unless it is known.
fn keep(seen: &mut Seen, title: Title, kind: Kind, text: Option<Text>) -> Result<(), Memory> {
    if seen.get(&title, kind)?.is_some() {
        return Ok(());
    }
    let page = match text {
        Some(text) => Some((1, text)),
        None => None,
    };
    match kind {
        Kind::Exists => Ok(()),
        Kind::View | Kind::Include => seen.add(title, kind, Answer::Page(page)),
    }
}

/// The same for the page with this name. The bytes of the text.
pub fn add(
    alloc: Global,
    seen: &mut Seen,
    name: &str,
    kind: Kind,
    text: &str,
) -> Result<u64, Memory> {
    let bytes = text.len() as u64;
    if bytes < 1 << 32
        && let Some(title) = page_named(alloc, name)?
    {
        keep(seen, title, kind, Some(Text::new(alloc, text)?))?;
    }
    Ok(bytes)
}

/// Notes that a page which is included is missing. The bytes of its name.
pub fn miss(alloc: Global, seen: &mut Seen, name: &str) -> Result<u64, Memory> {
    if let Some(title) = page_named(alloc, name)? {
        keep(seen, title, Kind::Include, None)?;
    }
    Ok(name.len() as u64)
}

/// Drafts the page so many times, where at most so many parsed texts are kept from one draft to the next. The bytes of the
/// outputs in all; none where a text is wanting.
pub fn drafted(alloc: Global, seen: &Seen, rounds: u64, most: usize) -> Result<u64, Memory> {
    let Some(viewed) = page_named(alloc, VIEWED)? else {
        return Ok(0);
    };
    let mut trees = Trees::new(alloc, most)?;
    let mut count = 0u64;
    for _ in 0..rounds {
        if let Step::Done(done) = draft(alloc, &viewed, &Root::Page, seen, &mut trees)? {
            count = count.saturating_add(done.out().len() as u64);
        }
    }
    Ok(count)
}

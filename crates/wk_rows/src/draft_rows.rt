//! The rows of a page, by its draft.
ghost use Rattle.std.specs.Prelude.{◌≡◌, None, IfOk};
ghost use Rattle.std.specs.Option.{option_copied};
ghost use Rattle.wk_view_rules.specs.Rows.{rows, rows_by};
ghost use Rattle.wk_view_rules.specs.Worlds.{Agrees, World, of_world};
ghost use Rattle.wk_rows.specs.Told.{rows_told};

use crate::members::members;
use crate::titles::{titles_linked, titles_read};
use std::alloc::Global;
use wk_expand::{Draft, Kind, Read};
use wk_links::links;
use wk_memory::Memory;
use wk_out::Out;
use wk_table_rows::PageRows;
use wk_title::Title;

/// The same title for a further owner, where there is one.
fn share(title: Option<&Title>) -> Result<Option<Title>, Memory>
    ensures { IfOk result (λ shared. shared ≡ option_copied title.entry) }
{
    match title {
        Some(title) => Ok(Some(title.share()?)),
        None => Ok(None),
    }
}

/// The rows of a page, by what it expands to, what was read for that, and what it redirects to.
pub fn rows_told(
    alloc: Global,
    page: &Title,
    out: &Out,
    reads: &[Read],
    redirect: Option<&Title>,
) -> Result<PageRows, Memory>
    ensures { IfOk result (λ rows. rows ≡ rows_told page.now out.now reads.now (option_copied redirect.entry)) }
{
    let found = links(alloc, out)?;
    Ok(PageRows {
        templates: titles_read(alloc, reads, Kind::Include)?,
        exists: titles_read(alloc, reads, Kind::Exists)?,
        links: titles_linked(alloc, &found, reads)?,
        members: members(alloc, page, &found)?,
        redirect: share(redirect)?,
    })
}

/// The rows of a draft's page in the link tables and in the redirect table (MediaWiki's Manual:Pagelinks table,
/// Manual:Templatelinks table, Manual:Categorylinks table and Manual:Redirect table; rows of existence tests are own). The
/// draft is one of the page's own text, and no text was given in its place.
///
/// They are the page's rows in each world that answers the draft's reads as they were answered: the titles that were
/// read to be included, the titles whose existence was tested, the pages that the output links to with the titles whose
/// existence was tested, the categories that it joins, and the title that the page redirects to. Each list is in title
/// order and has each title once. Of the links to one category the last gives the prefix, and with it the sort key: the
/// prefix, a newline and the page's key with spaces, or the key alone where the prefix is empty (own).
pub fn rows(alloc: Global, draft: &Draft) -> Result<PageRows, Memory>
    requires { draft.now.given ≡ None }
    ensures value { IfOk result
        (λ rows. rows ≡ rows_by draft.now.page draft.now.expanded.out draft.now.reads) }
    ensures worlds { IfOk result (λ found. (pages : World) → Agrees (of_world pages) draft.now.reads
        → found ≡ rows pages draft.now.page) }
{
    let page = draft.page();
    rows_told(alloc, page, draft.out(), draft.reads(), draft.turned())
}

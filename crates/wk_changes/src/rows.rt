//! The rows of revisions and pages.
ghost use Rattle.std.specs.Prelude.{◌≡◌, [], length, unwrap_or, IfOk};
ghost use Rattle.std.specs.Option.{option_copied};
ghost use Rattle.wk_wiki_rules.specs.Tables.{revision_row};

use std::alloc::Global;
use wk_bytes::Text;
use wk_memory::Memory;
use wk_tables::{PageRow, RevisionRow};
use wk_title::Title;

/// The text, which is shared, or an empty one where there is none.
fn text_or_empty(alloc: Global, text: Option<&Text>) -> Result<Text, Memory>
    ensures { IfOk result (λ shared. shared ≡ unwrap_or (option_copied text.entry) []) }
{
    match text {
        Some(text) => text.share(),
        None => Text::new(alloc, ""),
    }
}

/// How many bytes the text has, 0 where there is none.
fn text_len(text: Option<&Text>) -> u64
    ensures { result ≡ length (unwrap_or (option_copied text.entry) []) }
{
    match text {
        Some(text) => text.len() as u64,
        None => 0,
    }
}

/// The row of the revision with this number.
pub fn revision_row(
    alloc: Global,
    number: u64,
    page: u32,
    parent: u64,
    moment: u64,
    text: Option<&Text>,
) -> Result<RevisionRow, Memory>
    ensures { IfOk result (λ row. row
        ≡ revision_row (number, record { page = page; parent = parent; moment = moment; text = option_copied text.entry })) }
{
    Ok(RevisionRow {
        rev_id: number,
        rev_page: u64::from(page),
        rev_parent_id: parent,
        rev_timestamp: moment,
        rev_len: text_len(text),
        rev_gone: text.is_none(),
        rev_text: text_or_empty(alloc, text)?,
    })
}

/// The row of the page with this number, of which this is the current revision, and this its text.
pub fn page_row(
    number: u32,
    title: &Title,
    latest: u64,
    text: Option<&Text>,
) -> Result<PageRow, Memory>
    ensures { IfOk result (λ row. row ≡ record {
      page_id = number;
      page_title = title.now;
      page_latest = latest;
      page_len = length (unwrap_or (option_copied text.entry) []);
    }) }
{
    let (namespace, key) = title.share()?.into_parts();
    Ok(PageRow {
        page_id: u64::from(number),
        page_namespace: i64::from(namespace),
        page_title: key,
        page_latest: latest,
        page_len: text_len(text),
    })
}

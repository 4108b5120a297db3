//! What of a text is read.
ghost use Rattle.std.specs.Prelude.{◌≡◌, ◌≤◌, length, option_map, IfOk};
ghost use Rattle.std.specs.List.{concat};
ghost use Rattle.wk_tree_rules.specs.Selection.{joined_parts, selected_parts, selection};
ghost use Rattle.wk_lex.specs.Selections.{IsNextPart};

use crate::places::nearest;
use std::alloc::Global;
use wk_memory::Memory;
use wk_tree_rules::Mode;

/// The lengths of the two tags.
const TAG_LEN: usize = b"<onlyinclude>".len();

const END_TAG_LEN: usize = b"</onlyinclude>".len();

/// The place at which the first part from a place on begins, and the place of its end tag. Where an end tag isn't
/// found there is none further on, and so no part.
fn next_part(text: &[u8], from: usize) -> Option<(usize, usize)>
    requires { from ≤ length text.now }
    ensures { IsNextPart text.now from result }
{
    let tag = nearest(text, from, b"<onlyinclude>")?;
    let start = tag + TAG_LEN;
    let end = nearest(text, start, b"</onlyinclude>")?;
    Some((start, end))
}

/// The parts joined.
fn joined_parts(alloc: Global, text: &[u8]) -> Result<Vec<u8>, Memory>
    ensures { IfOk result (λ joined. joined.items ≡ concat (selected_parts text.now)) }
{
    let mut joined = Vec::new(alloc);
    let mut at = 0;
    while let Some((start, end)) = next_part(text, at) {
        joined.extend_from_slice(&text[start..end])?;
        at = end + END_TAG_LEN;
    }
    Ok(joined)
}

/// The parts joined, or `None` where there is none.
fn included_text(alloc: Global, text: &[u8]) -> Result<Option<Vec<u8>>, Memory>
    ensures { IfOk result (λ found. option_map (λ v. v.items) found ≡ joined_parts (selected_parts text.now)) }
{
    match next_part(text, 0) {
        None => Ok(None),
        Some(_) => Ok(Some(joined_parts(alloc, text)?)),
    }
}

/// What is read in the place of the whole text, or `None` where the whole text is read: for inclusion, the parts
/// between `<onlyinclude>` and the nearest `</onlyinclude>` joined, where there is one (MediaWiki's Help:Templates;
/// that both are spelled exactly, and found also within comments, is own). Linear in the text.
pub fn select(alloc: Global, mode: Mode, text: &[u8]) -> Result<Option<Vec<u8>>, Memory>
    ensures { IfOk result (λ found. option_map (λ v. v.items) found ≡ selection mode text.now) }
{
    match mode {
        Mode::View => Ok(None),
        Mode::Include => included_text(alloc, text),
    }
}

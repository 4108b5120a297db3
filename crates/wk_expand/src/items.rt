//! The items of a list, as text.
ghost use Rattle.std.specs.Prelude.{◌≡◌, ◌+◌, ◌≤◌, List, length, slice_range, IfOk, IfSome, IsSome, Some};
ghost use Rattle.std.specs.Str.{IsUtf8};
ghost use Rattle.wk_tree.specs.Parsed.{list_with};
ghost use Rattle.wk_tree_rules.specs.Trees.{Item as TreeItem};
ghost use Rattle.wk_text_rules.specs.Blank.{trimmed};
ghost use Rattle.wk_expand.specs.Items.{IsPlainName, IsPlainText};
ghost use Rattle.wk_expand.specs.State.{current};
ghost use Rattle.wk_expand.specs.Work.{IsFilled};

use crate::state::Expander;
use wk_bytes::{trim_end, trim_start};
use wk_memory::Memory;
use wk_out::Out;
use wk_tree::{Item, ListId, NodeId, Parsed};

/// A part of a source, as text. Takes no memory.
#[inline(always)]
fn part_of(source: &[u8], start: u32, len: u32) -> &str
    requires within { start + len ≤ length source.now }
    requires utf8 { IsUtf8 (slice_range source.now start (start + len)) }
    ensures { result.now ≡ slice_range source.now start (start + len) }
{
    let start = start as usize;
    let part = &source[start..start + len as usize];
    // SAFETY: the bytes are UTF-8 by the contract, so they aren't tested again.
    unsafe { str::from_utf8_unchecked(part) }
}

/// Adds the items of a list from a place on to an output, up to the next node. The answer is the place behind the
/// node, and the node, if there is one.
#[inline(always)]
pub fn fill(
    tree: &Parsed,
    list: ListId,
    start: usize,
    out: &mut Out,
) -> Result<(usize, Option<NodeId>), Memory>
    requires { IsSome (list_with tree.now list) }
    ensures { IfOk result (λ found. (items : List TreeItem) → list_with tree.now list ≡ Some items
        → IsFilled tree.now items start out.old found out.new) }
{
    let source = tree.source();
    let items = tree.items(list).as_slice();
    let count = items.len();
    'walk: for at in start..count {
        match items[at] {
            Item::Plain { start, len } => out.push_plain(part_of(source, start, len))?,
            Item::Sealed { start, len } => out.push_sealed(part_of(source, start, len))?,
            Item::Nothing { .. } => {}
            Item::Node(node) => return Ok((at + 1, Some(node))),
        }
    }
    Ok((count, None))
}

/// The text that a list is, where it is one plain part. Takes no memory.
#[inline(always)]
pub fn plain_text(tree: &Parsed, list: ListId) -> Option<&str>
    requires { IsSome (list_with tree.now list) }
    ensures { IfSome result (λ text. IsPlainText tree.now list text.now) }
{
    let items = tree.items(list).as_slice();
    if items.len() != 1 {
        return None;
    }
    let Item::Plain { start, len } = items[0] else {
        return None;
    };
    Some(part_of(tree.source(), start, len))
}

/// The text without the blank bytes at both ends. Takes no memory.
pub fn trimmed_text(text: &str) -> &str
    ensures { result.now ≡ trimmed text.now }
{
    let rest = trim_start(text.as_bytes());
    let text = &text[text.len() - rest.len()..];
    let front = trim_end(text.as_bytes());
    &text[..front.len()]
}

impl Expander {
    /// The name that a list gives, where it is one plain part: its text without the blank bytes at both ends. Takes no
    /// memory.
    #[inline(always)]
    pub fn plain_name(&self, list: ListId) -> Option<&str>
        requires { IsSome (list_with (current self.now) list) }
        ensures { IfSome result (λ name. IsPlainName (current self.now) list name.now) }
    {
        let text = plain_text(self.tree(), list)?;
        Some(trimmed_text(text))
    }
}

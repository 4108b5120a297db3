//! The items of a list, as text.
ghost use Rattle.std.specs.Prelude.{◌≡◌, ◌+◌, ◌≤◌, ◌++◌, List, length, slice_range, IfOk, IsSome, OnOk};
ghost use Rattle.std.specs.List.{list_any};
ghost use Rattle.std.specs.Str.{IsUtf8};
ghost use Rattle.wk_tree.specs.Parsed.{list_with, node_with};
ghost use Rattle.wk_tree_rules.specs.Trees.{Item as TreeItem, items_source, source_of};
ghost use Rattle.wk_subst_rules.specs.Calls.{is_node, is_sealed};
ghost use Rattle.wk_subst.specs.Nodes.{IsFilled, IsShown, IsThere, given_text, is_shown_node, is_shown_sealed, items_of, source_at, span_by};

use crate::output::Output;
use std::alloc::Global;
use wk_memory::Memory;
use wk_tree::{Item, ListId, NodeId, Parsed};
use wk_tree_laws::selection::what_is_selected_of_utf8_is_utf8;
use wk_tree_laws::trees::every_node_stands_where_it_says;

/// A part of a source, as text. Takes no memory.
#[inline(always)]
fn part_of(source: &[u8], start: u32, len: u32) -> &str
    requires within { start + len ≤ length source.now }
    requires utf8 { IsUtf8 (slice_range source.now start (start + len)) }
    ensures { result.now ≡ slice_range source.now start (start + len) }
{
    let start = start as usize;
    let part = &source[start..start + len as usize];
    // SAFETY: the bytes are UTF-8 by the contract, so they aren't tested again.
    unsafe { str::from_utf8_unchecked(part) }
}

/// Where an item stands in the text that is read: its place, and how many bytes it has. Takes no memory.
#[inline(always)]
fn span_of(tree: &Parsed, item: Item) -> (u32, u32)
    requires { IsThere tree.now item }
    ensures start { result.0 ≡ (span_by tree.now item).0 }
    ensures len { result.1 ≡ (span_by tree.now item).1 }
{
    match item {
        Item::Plain { start, len } => (start, len),
        Item::Sealed { start, len } => (start, len),
        Item::Nothing { start, len } => (start, len),
        Item::Node(node) => tree.span(node),
    }
}

/// The source of an item. Takes no memory.
#[inline(always)]
fn item_text(tree: &Parsed, item: Item) -> &str
    requires { (i : TreeItem) × IsShown tree.now item i }
    ensures { (i : TreeItem) → IsShown tree.now item i → result.now ≡ source_of i }
{
    let (start, len) = span_of(tree, item);
    part_of(tree.source(), start, len)
}

/// The source of a node. Takes no memory.
pub fn node_text(tree: &Parsed, node: NodeId) -> &str
    requires { IsSome (node_with tree.now node) }
    ensures { result.now ≡ source_at tree.now node }
{
    every_node_stands_where_it_says();
    what_is_selected_of_utf8_is_utf8();
    let _text = tree.text().as_str();
    let (start, len) = tree.span(node);
    part_of(tree.source(), start, len)
}

/// The source of a list.
pub fn list_text(alloc: Global, tree: &Parsed, list: ListId) -> Result<Output, Memory>
    requires { IsSome (list_with tree.now list) }
    ensures { IfOk result (λ text. text ≡ items_source (items_of tree.now list)) }
{
    let mut text = Output::new(alloc);
    let items = tree.items(list).as_slice();
    'walk: for at in 0..items.len() {
        text.push(item_text(tree, items[at]))?;
    }
    Ok(text)
}

/// Whether an item is a node.
fn is_node(item: &Item) -> bool
    ensures { result ≡ is_shown_node item.now }
{
    matches!(item, Item::Node(_))
}

/// Whether an item is sealed text.
fn is_sealed(item: &Item) -> bool
    ensures { result ≡ is_shown_sealed item.now }
{
    matches!(item, Item::Sealed { .. })
}

/// Whether a node is among these items.
fn any_node(items: &[Item]) -> bool
    ensures { result ≡ list_any is_shown_node items.now }
{
    items.iter().any(|item| is_node(item))
}

/// Whether sealed text is among these items.
fn any_sealed(items: &[Item]) -> bool
    ensures { result ≡ list_any is_shown_sealed items.now }
{
    items.iter().any(|item| is_sealed(item))
}

/// Whether a node stands in a list. Takes no memory.
pub fn has_node(tree: &Parsed, list: ListId) -> bool
    requires { IsSome (list_with tree.now list) }
    ensures { result ≡ list_any is_node (items_of tree.now list) }
{
    any_node(tree.items(list).as_slice())
}

/// Whether sealed text stands in a list itself. Takes no memory.
pub fn has_sealed(tree: &Parsed, list: ListId) -> bool
    requires { IsSome (list_with tree.now list) }
    ensures { result ≡ list_any is_sealed (items_of tree.now list) }
{
    any_sealed(tree.items(list).as_slice())
}

/// Adds an item that is no node to a text. What gives nothing is added where it `stays`.
#[inline(always)]
fn push_item(tree: &Parsed, item: Item, stays: bool, out: &mut Output) -> Result<(), Memory>
    requires { (i : TreeItem) × IsShown tree.now item i }
    ensures { OnOk result ((i : TreeItem) → IsShown tree.now item i → out.new ≡ out.old ++ given_text stays i) }
{
    if let Item::Nothing { .. } = item {
        if !stays {
            return Ok(());
        }
    }
    out.push(item_text(tree, item))
}

/// Adds the items of a list from a place on to a text, up to the next node. What gives nothing is added where it `stays`. The
/// answer is the place behind the node, and the node, if there is one.
#[inline(always)]
pub fn fill(
    tree: &Parsed,
    list: ListId,
    start: usize,
    stays: bool,
    out: &mut Output,
) -> Result<(usize, Option<NodeId>), Memory>
    requires { IsSome (list_with tree.now list) }
    ensures { IfOk result (λ found. IsFilled tree.now list start stays out.old found out.new) }
{
    let items = tree.items(list).as_slice();
    let count = items.len();
    'walk: for at in start..count {
        if let Item::Node(node) = items[at] {
            return Ok((at + 1, Some(node)));
        }
        push_item(tree, items[at], stays, out)?;
    }
    Ok((count, None))
}

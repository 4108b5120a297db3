//! A text that is parsed.
ghost use Rattle.std.specs.Prelude.{◌≡◌, ◌+◌, ◌<◌, ◌^◌, length, map, option_map, unwrap_or, Some, IfOk, IfSome, IsSome};
ghost use Rattle.wk_tree.specs.Laid.{found_nodes, root_of};
ghost use Rattle.wk_tree.specs.Layout.{laid};
ghost use Rattle.wk_tree.specs.Parsed.{ParsedText, tree_of, nodes_of, source_of, node_with, part_with, list_with, IsPart, IsTextIn};
ghost use Rattle.std.specs.List.{AllByRecursion};
ghost use Rattle.wk_tree.specs.Shown.{ShowsItems};
ghost use Rattle.wk_tree.specs.Tokens.{is_argument, items_tokens};
ghost use Rattle.wk_tree.specs.Tree.{IsLaidAs};
ghost use Rattle.wk_tree_rules.specs.Reduction.{pieces_of, reduced};
ghost use Rattle.wk_tree_rules.specs.Tree.{item_of, node_length, title_part, further_parts};
ghost use Rattle.std.specs.Slice.Iter.{iter_rest};

use crate::item::{Item, ListId, NodeId};
use crate::laid::{Laid, Listed, Lists};
use crate::layout::finish;
use crate::matching::matched;
use crate::token::Token;
use std::alloc::Global;
use std::marker::Model;
use std::slice;
use wk_bytes::Text;
use wk_lex::{Lexer, Mode, has_no_mark, select};
use wk_memory::Memory;
use wk_tree_laws::trees::{every_item_of_utf8_is_utf8, every_item_stands_where_it_says};

/// The tokens of the text that is read.
fn tokens_of(alloc: Global, mode: Mode, source: &[u8]) -> Result<Vec<Token>, Memory>
    requires { length source.now < 2 ^ 32 }
    ensures { IfOk result (λ tokens. laid tokens.items ≡ laid (items_tokens (map item_of (reduced (pieces_of mode source.now))))) }
{
    let tokens = matched(alloc, source, Lexer::new(mode, source))?;
    Ok(tokens)
}

/// The tree of the text that is read. Text without any mark is one item, and no list of tokens is made of it.
fn laid_of(alloc: Global, mode: Mode, source: &[u8]) -> Result<Laid, Memory>
    requires { length source.now < 2 ^ 32 }
    ensures { IfOk result (λ found. IsLaidAs (map item_of (reduced (pieces_of mode source.now))) (root_of found) (found_nodes found)) }
{
    let size = source.len();
    if 0 < size && has_no_mark(source) {
        let item = Item::Plain {
            start: 0,
            len: size as u32,
        };
        return Ok(Laid {
            root: Listed::One(item),
            root_items: Vec::new(alloc),
            lists: Lists {
                items: Vec::new(alloc),
                parts: Vec::new(alloc),
            },
            nodes: Vec::new(alloc),
        });
    }
    let tokens = tokens_of(alloc, mode, source)?;
    let found = finish(alloc, &tokens)?;
    Ok(found)
}

/// A text, and how it is read: its tree is that of the definition. Contracts see the text's bytes and the mode.
#[derive(Drop)]
pub struct Parsed {
    mode: Mode,
    text: Text,
    selected: Option<Vec<u8>>,
    laid: Laid,
}

impl Model for Parsed {
    ghost use Rattle.std.specs.Prelude.{option_map};
    ghost use Rattle.wk_tree.specs.Laid.{found_nodes, root_of};
    ghost use Rattle.wk_tree.specs.Parsed.{ParsedText, IsParsed};

    ghost Value = { ParsedText };

    ghost view = { λ p. record { mode = p.mode; text = p.text } };

    ghost invariant = { λ p. IsParsed p.mode p.text (option_map (λ v. v.items) p.selected) (root_of p.laid) (found_nodes p.laid) };
}

/// The text that is read: what is selected, or the whole.
fn source_in<'a>(selected: &'a Option<Vec<u8>>, whole: &'a [u8]) -> &'a [u8]
    ensures { result.now ≡ unwrap_or (option_map (λ v. v.items) selected.now) whole.now }
{
    match selected {
        Some(part) => part.as_slice(),
        None => whole,
    }
}

/// How many bytes no text has.
const MAX_SOURCE: usize = 4_294_967_296;

/// Parses a text in a mode (MediaWiki's Preprocessor ABNF and Help:Templates; own where braces and brackets cross).
/// Linear in the text.
pub fn parse(alloc: Global, text: &Text, mode: Mode) -> Result<Parsed, Memory>
    ensures { IfOk result (λ parsed. parsed ≡ record { mode = mode; text = text.now }) }
{
    let whole = text.as_str().as_bytes();
    let selected = select(alloc, mode, whole)?;
    let source = source_in(&selected, whole);
    // What is selected is no longer than the text.
    if MAX_SOURCE <= source.len() {
        return Err(Memory);
    }
    let laid = laid_of(alloc, mode, source)?;
    let text = text.share()?;
    Ok(Parsed {
        mode,
        text,
        selected,
        laid,
    })
}

/// The items of a list.
pub type Items<'a> = slice::Iter<'a, Item>;

/// A further part of a node.
#[derive(Clone, Copy, PartialEq, Eq)]
pub struct Part {
    /// Its name, where it has an equals sign.
    pub name: Option<ListId>,
    /// Its value.
    pub value: ListId,
    /// The place at which the value starts, in the selected text.
    pub start: u32,
    /// How many bytes the value's source has.
    pub len: u32,
}

impl Parsed {
    /// How the text is read. Takes no memory.
    pub fn mode(&self) -> Mode
        ensures { result ≡ self.now.mode }
    {
        self.mode
    }

    /// The whole text. Takes no memory.
    pub fn text(&self) -> &Text
        ensures { result.now ≡ self.now.text }
    {
        &self.text
    }

    /// The text that is read. All places and spans are of it. Takes no memory.
    pub fn source(&self) -> &[u8]
        ensures { result.now ≡ source_of self.now }
    {
        source_in(&self.selected, self.text.as_str().as_bytes())
    }

    /// The whole tree's list. Takes no memory.
    pub fn root(&self) -> ListId
        ensures { list_with self.now result ≡ Some (tree_of self.now) }
    {
        ListId::Root
    }

    /// Whether a node is an argument, and not a template. Takes no memory.
    pub fn argument(&self, node: NodeId) -> bool
        requires { IsSome (node_with self.now node) }
        ensures { IfSome (node_with self.now node) (λ n. result ≡ is_argument n.kind) }
    {
        match self.laid.node(node) {
            Some(lists) => lists.argument,
            None => false,
        }
    }

    /// The place at which a node starts, and how many bytes it has. Takes no memory.
    pub fn span(&self, node: NodeId) -> (u32, u32)
        requires { IsSome (node_with self.now node) }
        ensures { IfSome (node_with self.now node) (λ n. (result.0 ≡ n.start) × (result.1 ≡ node_length n)) }
    {
        match self.laid.node(node) {
            Some(lists) => (lists.start, lists.len),
            None => (0, 0),
        }
    }

    /// The title part of a node. Takes no memory.
    pub fn title(&self, node: NodeId) -> ListId
        requires { IsSome (node_with self.now node) }
        ensures { IfSome (node_with self.now node) (λ n. list_with self.now result ≡ Some (title_part n.content)) }
    {
        ListId::Title(node)
    }

    /// How many further parts a node has. Takes no memory.
    pub fn parts(&self, node: NodeId) -> usize
        requires { IsSome (node_with self.now node) }
        ensures { IfSome (node_with self.now node) (λ n. result ≡ length (further_parts n.content)) }
    {
        self.laid.parts(node)
    }

    /// A further part of a node. The first is part 0. Takes no memory.
    pub fn part(&self, node: NodeId, at: usize) -> Part
        requires { IsSome (part_with self.now node at) }
        ensures { IfSome (part_with self.now node at) (IsPart self.now result) }
    {
        match self.laid.part(node, at) {
            Some(lists) => Part {
                name: if lists.name.is_some() {
                    Some(ListId::Name(node, at))
                } else {
                    None
                },
                value: ListId::Value(node, at),
                start: lists.start,
                len: lists.len,
            },
            None => Part {
                name: None,
                value: ListId::Value(node, at),
                start: 0,
                len: 0,
            },
        }
    }

    /// Nothing, but for what its contract says.
    fn know_texts(&self, list: ListId)
        ensures { IfSome (list_with self.now list) (AllByRecursion (IsTextIn (source_of self.now))) }
    {
        let _list = list;
        let _text = self.text.as_str();
        every_item_stands_where_it_says();
        every_item_of_utf8_is_utf8();
    }

    /// The items of a list, in order. Takes no memory.
    #[inline(always)]
    pub fn items(&self, list: ListId) -> Items<'_>
        requires { IsSome (list_with self.now list) }
        ensures items { IfSome (list_with self.now list) (ShowsItems (nodes_of self.now) (iter_rest result)) }
        // What the items stand for is text of the source.
        ensures texts { IfSome (list_with self.now list) (AllByRecursion (IsTextIn (source_of self.now))) }
    {
        self.know_texts(list);
        match list {
            ListId::Root => self.laid.root(),
            ListId::Title(node) => self.laid.title(node),
            ListId::Name(node, at) => self.laid.name(node, at),
            ListId::Value(node, at) => self.laid.value(node, at),
        }
    }
}

//! The lists of a tree, laid out from the last token to the first.
ghost use Rattle.std.specs.Prelude.{◌≡◌, ◌+◌, ◌<◌, ◌≤◌, List, ◌∷◌, ◌++◌, drop, take, length, reverse, Some, OnOk, IfOk};
ghost use Rattle.wk_tree.specs.Tokens.{items_tokens};
ghost use Rattle.wk_tree.specs.Tree.{IsLaidAs};
ghost use Rattle.wk_tree_rules.specs.Trees.{Item as TreeItem};
ghost use Rattle.wk_tree.specs.Layout.{Begins, BeginsAll, IsLayout, LayoutShown, items_by, items_of, section_of, under_section, value_by, value_of, under_node, open_node_of, open_nodes_of, first_open_node, other_open_nodes, put_each, joined, put, with_item, with_equals, new_part, new_node, with_node, with_token, laid};
ghost use Rattle.wk_tree.specs.Laid.{AllLists, ranged, listed, part_of, node_of, root_of, found_nodes};

use crate::item::{Item, NodeId};
use crate::laid::{Laid, Listed, Lists, NodeLists, PartLists, Range};
use crate::token::Token;
use std::alloc::Global;
use wk_memory::Memory;

/// Items that were met from the last to the first: the first of them in the text, and how many others there are, which
/// stand on a stack, the next in the text uppermost; there are none where there is no first. How many bytes they stand for.
#[derive(Clone, Copy, PartialEq, Eq)]
pub struct Section {
    pub first: Option<Item>,
    pub others: u32,
    pub len: u32,
}

/// What was met of a node: the items up to the next equals sign or bar, the place of the equals sign if it is one, the
/// items behind it, how many parts stand behind them, which are on a stack, and how many bytes all stand for.
#[derive(Clone, Copy, PartialEq, Eq)]
pub struct OpenNode {
    pub section: Section,
    pub equals: Option<u32>,
    pub value: Section,
    pub parts: u32,
    pub total: u32,
}

/// The innermost node that isn't met wholly, those around it from the outermost, and a stack of their items and one of
/// their parts; the lists that are met, each in the order of the text, and the nodes that are, from the last.
#[derive(Drop)]
pub struct Layout {
    pub open_node: OpenNode,
    pub outer: Vec<OpenNode>,
    pub stacks: Lists,
    pub lists: Lists,
    pub nodes: Vec<NodeLists>,
}

const NO_SECTION: Section = Section {
    first: None,
    others: 0,
    len: 0,
};

const NO_OPEN_NODE: OpenNode = OpenNode {
    section: NO_SECTION,
    equals: None,
    value: NO_SECTION,
    parts: 0,
    total: 0,
};

/// The sum, which is a place or a length in a text of fewer than 2^32 bytes.
fn sum(a: u32, b: u32) -> Result<u32, Memory>
    ensures { IfOk result (λ n. n ≡ a + b) }
{
    a.checked_add(b).ok_or(Memory)
}

/// The same number, of which a text of fewer than 2^32 bytes has none that is larger.
fn to_u32(number: usize) -> Result<u32, Memory>
    ensures { IfOk result (λ n. n ≡ number) }
{
    match u32::try_from(number) {
        Ok(number) => Ok(number),
        Err(_) => Err(Memory),
    }
}

/// So many that stand uppermost on a stack go behind a list, the uppermost first. Where they stand there.
#[inline(always)]
fn unstack<T: Drop>(stack: &mut Vec<T>, count: u32, list: &mut Vec<T>) -> Result<Range, Memory>
    ensures range { IfOk result (λ range. (all : List T) → Begins list.new.items all → ranged all range ≡ take count (reverse stack.old.items)) }
    ensures list { OnOk result (list.new.items ≡ list.old.items ++ take count (reverse stack.old.items)) }
    ensures stack { OnOk result (reverse stack.new.items ≡ drop count (reverse stack.old.items)) }
{
    let start = list.len();
    for _one in 0..count {
        if let Some(one) = stack.pop() {
            list.push(one)?;
        }
    }
    let len = to_u32(list.len() - start)?;
    let start = to_u32(start)?;
    Ok(Range { start, len })
}

/// An item before those of a section, which has a first one.
#[inline(always)]
fn put_another(
    stack: &mut Vec<Item>,
    section: &mut Section,
    first: Item,
    item: Item,
) -> Result<(), Memory>
    requires { section.old.first ≡ Some first }
    ensures items { OnOk result (items_of section.new (reverse stack.new.items) ≡ item ∷ items_of section.old (reverse stack.old.items)) }
    ensures under { OnOk result (under_section section.new (reverse stack.new.items) ≡ under_section section.old (reverse stack.old.items)) }
    ensures len { section.new.len ≡ section.old.len }
{
    let others = sum(1, section.others)?;
    stack.push(first)?;
    section.first = Some(item);
    section.others = others;
    Ok(())
}

/// An item before those of a section. Plain text goes together.
#[inline(always)]
fn put(stack: &mut Vec<Item>, section: &mut Section, item: Item) -> Result<(), Memory>
    ensures items { OnOk result (items_of section.new (reverse stack.new.items) ≡ put item (items_of section.old (reverse stack.old.items))) }
    ensures under { OnOk result (under_section section.new (reverse stack.new.items) ≡ under_section section.old (reverse stack.old.items)) }
    ensures len { section.new.len ≡ section.old.len }
{
    if let Item::Plain { start, len } = item {
        if let Some(Item::Plain { len: more, .. }) = section.first {
            let len = sum(len, more)?;
            section.first = Some(Item::Plain { start, len });
            return Ok(());
        }
    }
    match section.first {
        Some(first) => put_another(stack, section, first, item),
        None => {
            section.others = 0;
            section.first = Some(item);
            Ok(())
        }
    }
}

/// Items before those of a section, all from the last to the first.
fn put_each(stack: &mut Vec<Item>, section: &mut Section, more: &[Item]) -> Result<(), Memory>
    ensures items { OnOk result (items_of section.new (reverse stack.new.items) ≡ put_each (reverse more.now) (items_of section.old (reverse stack.old.items))) }
    ensures under { OnOk result (under_section section.new (reverse stack.new.items) ≡ under_section section.old (reverse stack.old.items)) }
    ensures len { section.new.len ≡ section.old.len }
{
    for item in more {
        put(stack, section, *item)?;
    }
    Ok(())
}

#[inline(always)]
fn push_item(
    stack: &mut Vec<Item>,
    open_node: &mut OpenNode,
    item: Item,
    len: u32,
) -> Result<(), Memory>
    ensures shown { OnOk result ((all : List Item) (parts : List PartLists) → open_node_of all (reverse stack.new.items) parts open_node.new ≡ with_item item len (open_node_of all (reverse stack.old.items) parts open_node.old)) }
    ensures under { OnOk result (under_node open_node.new (reverse stack.new.items) ≡ under_node open_node.old (reverse stack.old.items)) }
    ensures parts { open_node.new.parts ≡ open_node.old.parts }
{
    put(stack, &mut open_node.section, item)?;
    open_node.section.len = sum(len, open_node.section.len)?;
    open_node.total = sum(len, open_node.total)?;
    Ok(())
}

/// Items before an equals sign that is plain text go before those behind it.
fn join_value(
    alloc: Global,
    stack: &mut Vec<Item>,
    open_node: &OpenNode,
    equals: u32,
) -> Result<Section, Memory>
    ensures section { IfOk result (λ s. section_of s (reverse stack.new.items)
        ≡ joined (section_of open_node.now.section (reverse stack.old.items)) (Some (value_by open_node.now.value (under_section open_node.now.section (reverse stack.old.items)) equals))) }
    ensures under { IfOk result (λ s. under_section s (reverse stack.new.items) ≡ under_section open_node.now.value (under_section open_node.now.section (reverse stack.old.items))) }
{
    let section = open_node.section;
    let mut whole = open_node.value;
    let len = sum(section.len, sum(1, whole.len)?)?;
    let equals = Item::Plain {
        start: equals,
        len: 1,
    };
    let Some(first) = section.first else {
        put(stack, &mut whole, equals)?;
        whole.len = len;
        return Ok(whole);
    };
    let mut others = Vec::new(alloc);
    unstack(stack, section.others, &mut others)?;
    others.reverse();
    put(stack, &mut whole, equals)?;
    put_each(stack, &mut whole, &others)?;
    put(stack, &mut whole, first)?;
    whole.len = len;
    Ok(whole)
}

/// All items of a node's part or title, of which the first equals sign may be known.
#[inline(always)]
fn join(alloc: Global, stack: &mut Vec<Item>, open_node: &OpenNode) -> Result<Section, Memory>
    ensures section { IfOk result (λ s. section_of s (reverse stack.new.items) ≡ joined (section_of open_node.now.section (reverse stack.old.items)) (value_of open_node.now (reverse stack.old.items))) }
    ensures under { IfOk result (λ s. under_section s (reverse stack.new.items) ≡ under_node open_node.now (reverse stack.old.items)) }
{
    match open_node.equals {
        None => Ok(open_node.section),
        Some(equals) => join_value(alloc, stack, open_node, equals),
    }
}

#[inline(always)]
fn put_equals(
    alloc: Global,
    stack: &mut Vec<Item>,
    open_node: &mut OpenNode,
    start: u32,
) -> Result<(), Memory>
    ensures shown { OnOk result ((all : List Item) (parts : List PartLists) → open_node_of all (reverse stack.new.items) parts open_node.new ≡ with_equals start (open_node_of all (reverse stack.old.items) parts open_node.old)) }
    ensures under { OnOk result (under_node open_node.new (reverse stack.new.items) ≡ under_node open_node.old (reverse stack.old.items)) }
    ensures parts { open_node.new.parts ≡ open_node.old.parts }
{
    open_node.value = join(alloc, stack, open_node)?;
    open_node.section = NO_SECTION;
    open_node.equals = Some(start);
    open_node.total = sum(1, open_node.total)?;
    Ok(())
}

/// The items in the order of the text, where there are more than one.
fn many_in_order(
    stack: &mut Vec<Item>,
    first: Item,
    others: u32,
    list: &mut Vec<Item>,
) -> Result<Listed, Memory>
    ensures list { IfOk result (λ l. (all : List Item) → Begins list.new.items all → listed all l ≡ items_by (Some first) others (reverse stack.old.items)) }
    ensures begins { OnOk result ((all : List Item) → Begins list.new.items all → Begins list.old.items all) }
    ensures under { OnOk result (reverse stack.new.items ≡ drop others (reverse stack.old.items)) }
{
    let count = sum(1, others)?;
    stack.push(first)?;
    let range = unstack(stack, count, list)?;
    Ok(Listed::Many(range))
}

/// The items in the order of the text.
#[inline(always)]
fn in_order(stack: &mut Vec<Item>, section: Section, list: &mut Vec<Item>) -> Result<Listed, Memory>
    ensures list { IfOk result (λ l. (all : List Item) → Begins list.new.items all → listed all l ≡ items_of section (reverse stack.old.items)) }
    ensures begins { OnOk result ((all : List Item) → Begins list.new.items all → Begins list.old.items all) }
    ensures under { OnOk result (reverse stack.new.items ≡ under_section section (reverse stack.old.items)) }
{
    let Some(first) = section.first else {
        return Ok(Listed::Empty);
    };
    if section.others == 0 {
        return Ok(Listed::One(first));
    }
    many_in_order(stack, first, section.others, list)
}

/// The part behind a bar.
#[inline(always)]
fn new_part(
    start: u32,
    stack: &mut Vec<Item>,
    open_node: &OpenNode,
    list: &mut Vec<Item>,
) -> Result<PartLists, Memory>
    ensures part { IfOk result (λ part. (all : List Item) → Begins list.new.items all → part_of all part ≡ new_part start (section_of open_node.now.section (reverse stack.old.items)) (value_of open_node.now (reverse stack.old.items))) }
    ensures begins { OnOk result ((all : List Item) → Begins list.new.items all → Begins list.old.items all) }
    ensures under { OnOk result (reverse stack.new.items ≡ under_node open_node.now (reverse stack.old.items)) }
{
    let section = open_node.section;
    let items = in_order(stack, section, list)?;
    match open_node.equals {
        None => {
            Ok(PartLists {
                name: None,
                value: items,
                start: sum(start, 1)?,
                len: section.len,
            })
        }
        Some(equals) => {
            let start = sum(equals, 1)?;
            let value = open_node.value;
            Ok(PartLists {
                name: Some(items),
                value: in_order(stack, value, list)?,
                start,
                len: value.len,
            })
        }
    }
}

#[inline(always)]
fn push_bar(layout: &mut Layout, start: u32) -> Result<(), Memory>
    ensures { OnOk result ((shown : LayoutShown) → IsLayout layout.old shown → IsLayout layout.new (with_token (Token.Bar start) shown)) }
{
    let total = sum(1, layout.open_node.total)?;
    let parts = sum(1, layout.open_node.parts)?;
    let part = new_part(
        start,
        &mut layout.stacks.items,
        &layout.open_node,
        &mut layout.lists.items,
    )?;
    layout.stacks.parts.push(part)?;
    layout.open_node.section = NO_SECTION;
    layout.open_node.equals = None;
    layout.open_node.parts = parts;
    layout.open_node.total = total;
    Ok(())
}

#[inline(always)]
fn new_node(
    alloc: Global,
    argument: bool,
    start: u32,
    open_node: &OpenNode,
    stacks: &mut Lists,
    lists: &mut Lists,
) -> Result<NodeLists, Memory>
    ensures node { IfOk result (λ n. (all : AllLists) → BeginsAll lists.new all → node_of all n ≡ new_node argument start (open_node_of all.items (reverse stacks.old.items.items) (reverse stacks.old.parts.items) open_node.now)) }
    ensures begins { OnOk result ((all : AllLists) → BeginsAll lists.new all → BeginsAll lists.old all) }
    ensures items { OnOk result (reverse stacks.new.items.items ≡ under_node open_node.now (reverse stacks.old.items.items)) }
    ensures parts { OnOk result (reverse stacks.new.parts.items ≡ drop open_node.now.parts (reverse stacks.old.parts.items)) }
{
    let braces = if argument { 6 } else { 4 };
    let len = sum(braces, open_node.total)?;
    let section = join(alloc, &mut stacks.items, open_node)?;
    let title = in_order(&mut stacks.items, section, &mut lists.items)?;
    let parts = unstack(&mut stacks.parts, open_node.parts, &mut lists.parts)?;
    Ok(NodeLists {
        argument,
        start,
        len,
        title,
        parts,
    })
}

/// The innermost of the nodes around one that is met, or a node of which nothing is.
#[inline(always)]
fn enclosing(outer: &mut Vec<OpenNode>) -> OpenNode
    ensures first { (all items : List Item) (parts : List PartLists) → first_open_node (open_nodes_of all items parts (reverse outer.old.items)) ≡ open_node_of all items parts result }
    ensures others { (all items : List Item) (parts : List PartLists) → other_open_nodes (open_nodes_of all items parts (reverse outer.old.items))
        ≡ open_nodes_of all (under_node result items) (drop result.parts parts) (reverse outer.new.items) }
{
    match outer.pop() {
        Some(open_node) => open_node,
        None => NO_OPEN_NODE,
    }
}

/// The opening braces of a node. A call of its own, so that the way over text stays short.
#[inline(never)]
fn push_node(alloc: Global, layout: &mut Layout, argument: bool, start: u32) -> Result<(), Memory>
    ensures { OnOk result ((shown : LayoutShown) → IsLayout layout.old shown → IsLayout layout.new (with_node argument start shown)) }
{
    let made = new_node(
        alloc,
        argument,
        start,
        &layout.open_node,
        &mut layout.stacks,
        &mut layout.lists,
    )?;
    let id = NodeId(to_u32(layout.nodes.len())?);
    let len = made.len;
    layout.nodes.push(made)?;
    layout.open_node = enclosing(&mut layout.outer);
    push_item(
        &mut layout.stacks.items,
        &mut layout.open_node,
        Item::Node(id),
        len,
    )?;
    Ok(())
}

#[inline(always)]
fn end_node(layout: &mut Layout) -> Result<(), Memory>
    ensures { OnOk result ((shown : LayoutShown) → IsLayout layout.old shown → IsLayout layout.new (with_token Token.NodeEnd shown)) }
{
    layout.outer.push(layout.open_node)?;
    layout.open_node = NO_OPEN_NODE;
    Ok(())
}

/// An item of so many bytes before what was laid out.
#[inline(always)]
fn push(layout: &mut Layout, item: Item, len: u32) -> Result<(), Memory>
    ensures { OnOk result ((shown : LayoutShown) → IsLayout layout.old shown → IsLayout layout.new (record shown { open_node = with_item item len shown.open_node })) }
{
    push_item(&mut layout.stacks.items, &mut layout.open_node, item, len)?;
    Ok(())
}

/// An equals sign before what was laid out.
#[inline(always)]
fn push_equals(alloc: Global, layout: &mut Layout, start: u32) -> Result<(), Memory>
    ensures { OnOk result ((shown : LayoutShown) → IsLayout layout.old shown → IsLayout layout.new (with_token (Token.Equals start) shown)) }
{
    put_equals(
        alloc,
        &mut layout.stacks.items,
        &mut layout.open_node,
        start,
    )?;
    Ok(())
}

/// The place of the first of the `Fill` tokens that stand one behind the other before a place.
#[inline(always)]
fn fill_before(tokens: &[Token], end: usize) -> usize
    requires { end ≤ length tokens.now }
    ensures within { result ≤ end }
    ensures laid { laid (drop result tokens.now) ≡ laid (drop end tokens.now) }
{
    let mut at = end;
    while 0 < at {
        match tokens[at - 1] {
            Token::Fill => {}
            _ => return at,
        }
        at -= 1;
    }
    at
}

/// The place of the first of the tokens of plain text that stand before a place, the place of the first byte of their
/// text, and how many bytes it has with the text behind the place.
#[inline(always)]
fn text_before(
    tokens: &[Token],
    end: usize,
    start: u32,
    len: u32,
) -> Result<(usize, u32, u32), Memory>
    requires { end ≤ length tokens.now }
    ensures within { IfOk result (λ run. run.0 ≤ end) }
    ensures laid { IfOk result (λ run. (behind : LayoutShown) → laid (drop end tokens.now) ≡ with_token (Token.Plain start len) behind → laid (drop run.0 tokens.now) ≡ with_token (Token.Plain run.1 run.2) behind) }
{
    let mut at = end;
    let mut first = start;
    let mut total = len;
    while 0 < at {
        match tokens[at - 1] {
            Token::Plain { start, len } => {
                first = start;
                total = sum(len, total)?;
            }
            Token::Fill => {}
            _ => return Ok((at, first, total)),
        }
        at -= 1;
    }
    Ok((at, first, total))
}

/// Another token than plain text before what was laid out.
#[inline(always)]
fn step(alloc: Global, layout: &mut Layout, token: Token) -> Result<(), Memory>
    ensures { OnOk result ((shown : LayoutShown) → IsLayout layout.old shown → IsLayout layout.new (with_token token shown)) }
{
    match token {
        Token::Plain { start, len } => push(layout, Item::Plain { start, len }, len),
        Token::Sealed { start, len } => push(layout, Item::Sealed { start, len }, len),
        Token::Nothing { start, len } => push(layout, Item::Nothing { start, len }, len),
        Token::Bar { start } => push_bar(layout, start),
        Token::Equals { start } => push_equals(alloc, layout, start),
        Token::NodeStart { argument, start } => push_node(alloc, layout, argument, start),
        Token::NodeEnd => end_node(layout),
        Token::Fill => Ok(()),
    }
}

/// The last token that wasn't laid out and, where it is plain text or a place of a delimiter, all that go with it. The
/// place of the first of them.
#[inline(always)]
fn step_before(
    alloc: Global,
    layout: &mut Layout,
    tokens: &[Token],
    at: usize,
) -> Result<usize, Memory>
    requires within { at ≤ length tokens.now }
    requires some { 0 < at }
    ensures within { IfOk result (λ first. first < at) }
    ensures laid { IfOk result (λ first. IsLayout layout.old (laid (drop at tokens.now)) → IsLayout layout.new (laid (drop first tokens.now))) }
{
    let last = at - 1;
    match tokens[last] {
        Token::Plain { start, len } => {
            let (first, start, len) = text_before(tokens, last, start, len)?;
            push(layout, Item::Plain { start, len }, len)?;
            Ok(first)
        }
        Token::Fill => Ok(fill_before(tokens, last)),
        token => {
            step(alloc, layout, token)?;
            Ok(last)
        }
    }
}

/// What the tokens are laid out to.
pub fn lay(alloc: Global, tokens: &[Token]) -> Result<Layout, Memory>
    ensures { IfOk result (λ layout. IsLayout layout (laid tokens.now)) }
{
    let mut layout = Layout {
        open_node: NO_OPEN_NODE,
        outer: Vec::new(alloc),
        stacks: Lists {
            items: Vec::new(alloc),
            parts: Vec::new(alloc),
        },
        lists: Lists {
            items: Vec::new(alloc),
            parts: Vec::new(alloc),
        },
        nodes: Vec::new(alloc),
    };
    let mut at = tokens.len();
    while 0 < at {
        at = step_before(alloc, &mut layout, tokens, at)?;
    }
    Ok(layout)
}

/// The items of a section in the order of the text, the others in the place of the stack.
fn root(items: &mut Vec<Item>, section: Section) -> Result<Listed, Memory>
    ensures { IfOk result (λ l. listed items.new.items l ≡ items_of section (reverse items.old.items)) }
{
    let Some(first) = section.first else {
        return Ok(Listed::Empty);
    };
    if section.others == 0 {
        return Ok(Listed::One(first));
    }
    let len = sum(1, section.others)?;
    items.push(first)?;
    items.reverse();
    Ok(Listed::Many(Range { start: 0, len }))
}

/// The tree that the tokens are laid out to.
pub fn finish(alloc: Global, tokens: &[Token]) -> Result<Laid, Memory>
    ensures { IfOk result (λ found. (items : List TreeItem) → laid tokens.now ≡ laid (items_tokens items) → IsLaidAs items (root_of found) (found_nodes found)) }
{
    let layout = lay(alloc, tokens)?;
    let open_node = layout.open_node;
    let stacks = layout.stacks;
    let mut items = stacks.items;
    let section = join(alloc, &mut items, &open_node)?;
    let list = root(&mut items, section)?;
    Ok(Laid {
        root: list,
        root_items: items,
        lists: layout.lists,
        nodes: layout.nodes,
    })
}

//! A tree that is laid out: its lists and nodes, and how they are read.
ghost use Rattle.std.specs.Prelude.{◌≡◌, ◌+◌, ◌<◌, ◌≤◌, ◌⊎◌, List, length, None, MatchOption, option_and_then, option_map};
ghost use Rattle.std.specs.Option.{IfSome};
ghost use Rattle.std.specs.Slice.Iter.{iter_rest};
ghost use Rattle.wk_tree.specs.Laid.{all_of, found_nodes, listed, node_of, part_of, ranged, root_of};
ghost use Rattle.wk_tree.specs.Parsed.{part_at};
ghost use Rattle.wk_tree.specs.Shown.{from_end, ShowsItems, ShowsNode, ShowsNodes, ShowsPart};
ghost use Rattle.wk_tree_rules.specs.Tree.{Node, further_parts, title_part};

use crate::item::{Item, NodeId};
use std::slice;

/// Where some stand among all: the place of the first, and how many they are.
#[derive(Clone, Copy, PartialEq, Eq)]
pub struct Range {
    pub start: u32,
    pub len: u32,
}

/// The items of a list, in the order of the text. More than one stand among those of all lists.
#[derive(Clone, Copy, PartialEq, Eq)]
pub enum Listed {
    Empty,
    One(Item),
    Many(Range),
}

/// The lists of a part, and the span of its value.
#[derive(Clone, Copy, PartialEq, Eq)]
pub struct PartLists {
    pub name: Option<Listed>,
    pub value: Listed,
    pub start: u32,
    pub len: u32,
}

/// The lists and the span of a node. Its parts stand among those of all nodes.
#[derive(Clone, Copy, PartialEq, Eq)]
pub struct NodeLists {
    pub argument: bool,
    pub start: u32,
    pub len: u32,
    pub title: Listed,
    pub parts: Range,
}

/// Items and parts of several lists, one list behind the other.
#[derive(Drop)]
pub struct Lists {
    pub items: Vec<Item>,
    pub parts: Vec<PartLists>,
}

/// A tree: the root's list, the items among which it stands, the other lists, and the nodes from the last.
#[derive(Drop)]
pub struct Laid {
    pub root: Listed,
    pub root_items: Vec<Item>,
    pub lists: Lists,
    pub nodes: Vec<NodeLists>,
}

/// Those of all that stand in a range. Takes no memory.
#[inline(always)]
pub fn ranged<T>(all: &[T], range: Range) -> &[T]
    ensures { result.now ≡ ranged all.now range }
{
    let start = (range.start as usize).min(all.len());
    let behind = &all[start..];
    let len = (range.len as usize).min(behind.len());
    &behind[..len]
}

/// The place among so many of the one that is `at` behind the first of a range, if the range has it.
#[inline(always)]
fn place_in(range: Range, at: usize, count: usize) -> Option<usize>
    ensures { MatchOption result ((range.len ≤ at) ⊎ (count ≤ range.start + at)) (λ place. (place ≡ range.start + at) × (at < range.len) × (place < count)) }
{
    if range.len as usize <= at {
        return None;
    }
    let place = range.start as usize + at;
    if count <= place {
        return None;
    }
    Some(place)
}

impl Listed {
    /// The items, in order.
    pub fn iter<'a>(&'a self, all: &'a [Item]) -> slice::Iter<'a, Item>
        ensures { iter_rest result ≡ listed all.now self.now }
    {
        match self {
            Listed::Empty => [].iter(),
            Listed::One(item) => slice::from_ref(item).iter(),
            Listed::Many(range) => ranged(all, *range).iter(),
        }
    }
}

impl Laid {
    /// The items of the root's list, in order.
    #[inline(always)]
    pub fn root(&self) -> slice::Iter<'_, Item>
        ensures { iter_rest result ≡ root_of self.now }
    {
        self.root.iter(&self.root_items)
    }

    /// The lists and the span of a node, if there is one of this number.
    #[inline(always)]
    pub fn node(&self, node: NodeId) -> Option<&NodeLists>
        ensures { (ns rest : List Node) → ShowsNodes ns (found_nodes self.now) rest
            → MatchOption result (from_end rest node.0 ≡ None) (λ lists. IfSome (from_end rest node.0) (ShowsNode ns (node_of (all_of self.now) lists.now))) }
    {
        let at = node.0 as usize;
        if at < self.nodes.len() {
            Some(&self.nodes[at])
        } else {
            None
        }
    }

    /// The lists of a part and the span of its value, if the node has one of this number.
    #[inline(always)]
    pub fn part(&self, node: NodeId, at: usize) -> Option<&PartLists>
        ensures { (ns rest : List Node) → ShowsNodes ns (found_nodes self.now) rest
            → MatchOption result (option_and_then (part_at at) (from_end rest node.0) ≡ None)
            (λ lists. IfSome (option_and_then (part_at at) (from_end rest node.0)) (ShowsPart ns (part_of (all_of self.now).items lists.now))) }
    {
        let lists = self.node(node)?;
        match place_in(lists.parts, at, self.lists.parts.len()) {
            Some(place) => Some(&self.lists.parts[place]),
            None => None,
        }
    }

    /// How many parts a node has.
    #[inline(always)]
    pub fn parts(&self, node: NodeId) -> usize
        ensures { (ns rest : List Node) → ShowsNodes ns (found_nodes self.now) rest → IfSome (from_end rest node.0) (λ n. result ≡ length (further_parts n.content)) }
    {
        match self.node(node) {
            Some(lists) => ranged(&self.lists.parts, lists.parts).len(),
            None => 0,
        }
    }

    /// The items of a node's title, in order.
    #[inline(always)]
    pub fn title(&self, node: NodeId) -> slice::Iter<'_, Item>
        ensures { (ns rest : List Node) → ShowsNodes ns (found_nodes self.now) rest → IfSome (from_end rest node.0) (λ n. ShowsItems ns (iter_rest result) (title_part n.content)) }
    {
        match self.node(node) {
            Some(lists) => lists.title.iter(&self.lists.items),
            None => [].iter(),
        }
    }

    /// The items of the name of a part, in order.
    #[inline(always)]
    pub fn name(&self, node: NodeId, at: usize) -> slice::Iter<'_, Item>
        ensures { (ns rest : List Node) → ShowsNodes ns (found_nodes self.now) rest
            → IfSome (option_and_then (λ q. q.name) (option_and_then (part_at at) (from_end rest node.0))) (ShowsItems ns (iter_rest result)) }
    {
        let Some(lists) = self.part(node, at) else {
            return [].iter();
        };
        match &lists.name {
            Some(name) => name.iter(&self.lists.items),
            None => [].iter(),
        }
    }

    /// The items of the value of a part, in order.
    #[inline(always)]
    pub fn value(&self, node: NodeId, at: usize) -> slice::Iter<'_, Item>
        ensures { (ns rest : List Node) → ShowsNodes ns (found_nodes self.now) rest
            → IfSome (option_and_then (part_at at) (from_end rest node.0)) (λ q. ShowsItems ns (iter_rest result) q.value) }
    {
        match self.part(node, at) {
            Some(lists) => lists.value.iter(&self.lists.items),
            None => [].iter(),
        }
    }
}

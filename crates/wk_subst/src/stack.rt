//! What a substitution has begun and not ended: the nodes that are open within each other.
ghost use Rattle.std.specs.Prelude.{◌≡◌, ◌∷◌, [], length, IfOk, OnOk};
ghost use Rattle.std.specs.List.{list_any};
ghost use Rattle.wk_text_rules.specs.Titles.{title_eq};
ghost use Rattle.wk_subst.specs.Stack.{any_title, within_of};

use crate::bindings::Bindings;
use crate::output::Output;
use std::alloc::Global;
use std::marker::Model;
use wk_bytes::Text;
use wk_frames::Tree;
use wk_memory::Memory;
use wk_title::Title;
use wk_tree::{ListId, NodeId};

/// A text, and in the text of a page that is put in what is bound there.
#[derive(Drop)]
pub struct Level {
    pub tree: Tree,
    pub bound: Option<Bindings>,
}

/// What is done behind a further part that stands whole in the text that is made.
#[derive(Drop)]
pub enum Use {
    /// The node has ended.
    Whole,
    /// The part of this number is next, or the node's closing braces.
    Written(usize),
}

/// A call whose values are bound: its title, the text of that page, what is bound so far, how many of it by a number, and the
/// next further part.
#[derive(Drop)]
pub struct Call {
    pub title: Title,
    pub text: Text,
    pub bound: Bindings,
    pub numbered: u64,
    pub next: usize,
}

/// What an open node waits for: the end of a list, which is gone over for it.
#[derive(Drop)]
pub enum Waiting {
    /// The name of a further part, whose value is this list.
    Name(ListId, Use),
    /// The title part, or a further part.
    Part(Use),
    /// The value of a further part of a call, which has this name or none; the text stood so far before the call.
    Value(Call, Output, Option<ListId>),
    /// The text of the page of this title; the text stood so far before the call, which stands in this level.
    Filled(Title, Output, Level),
}

/// A node that is open, and the list in which it stands, with the place behind it.
#[derive(Drop)]
pub struct Opened {
    pub node: NodeId,
    pub list: ListId,
    pub at: usize,
    pub waiting: Waiting,
}

impl Opened {
    ghost use Rattle.std.specs.Prelude.{◌≤◌};
    ghost use Rattle.wk_subst.specs.Stack.{any_title, titles_of};

    /// Whether it is a call of this title.
    fn is_of(&self, title: &Title) -> bool
        ensures { result ≡ any_title (title_eq title.now) self.now }
    {
        match &self.waiting {
            Waiting::Value(call, _, _) => *title == call.title,
            Waiting::Filled(called, _, _) => *title == *called,
            _ => false,
        }
    }

    /// How many calls it is: one or none.
    fn calls(&self) -> usize
        ensures is { result ≡ length (titles_of self.now.waiting) }
        ensures most { result ≤ 1 }
    {
        match &self.waiting {
            Waiting::Value(_, _, _) | Waiting::Filled(_, _, _) => 1,
            _ => 0,
        }
    }
}

/// Whether a call of this title is among these nodes.
fn any_of(opened: &[Opened], title: &Title) -> bool
    ensures { result ≡ list_any (any_title (title_eq title.now)) opened.now }
{
    opened.iter().any(|opened| opened.is_of(title))
}

/// How many calls are among these nodes.
fn calls_in(opened: &[Opened]) -> usize
    ensures { result ≡ length (within_of opened.now) }
{
    let mut count = 0usize;
    'walk: for at in 0..opened.len() {
        count += opened[at].calls();
    }
    count
}

/// The nodes that are open within each other. Contracts see the innermost first.
#[derive(Drop)]
pub struct Stack {
    opened: Vec<Opened>,
}

impl Model for Stack {
    ghost use Rattle.std.specs.Prelude.{List, reverse};
    ghost use Rattle.wk_subst.specs.declared.stack.Opened.{Opened};

    ghost Value = { List Opened };

    ghost view = { λ s. reverse s.opened.items };
}

/// For how many open nodes there is room at first (by measure).
const FIRST_OPENED: usize = 8;

impl Stack {
    ghost use Rattle.wk_subst.specs.Stack.{IsPopped, within_of};

    /// No node is open.
    pub fn new(alloc: Global) -> Result<Stack, Memory>
        ensures { IfOk result (λ stack. stack ≡ []) }
    {
        let opened = Vec::with_capacity(alloc, FIRST_OPENED)?;
        Ok(Stack { opened })
    }

    /// How many nodes are open. Takes no memory.
    pub fn len(&self) -> usize
        ensures { result ≡ length self.now }
    {
        self.opened.as_slice().len()
    }

    /// A node is open within the others.
    #[inline(always)]
    pub fn push(&mut self, opened: Opened) -> Result<(), Memory>
        ensures { OnOk result (self.new ≡ opened ∷ self.old) }
    {
        self.opened.push(opened)?;
        Ok(())
    }

    /// The innermost node, which is open no longer, if one is open.
    #[inline(always)]
    pub fn pop(&mut self) -> Option<Opened>
        ensures { IsPopped result self.old self.new }
    {
        self.opened.pop()
    }

    /// Whether the title is that of a call that is open. Takes no memory.
    pub fn is_within(&self, title: &Title) -> bool
        ensures { result ≡ list_any (title_eq title.now) (within_of self.now) }
    {
        any_of(self.opened.as_slice(), title)
    }

    /// How many calls are open. Takes no memory.
    pub fn calls(&self) -> usize
        ensures { result ≡ length (within_of self.now) }
    {
        calls_in(self.opened.as_slice())
    }
}

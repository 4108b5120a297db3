//! The texts that are expanded within each other.
ghost use Rattle.std.specs.Prelude.{◌≡◌, ◌<◌, [], ◌∷◌, length, drop, reverse, IsSome, IfSome, OnOk};
ghost use Rattle.std.specs.List.{list_any};
ghost use Rattle.wk_text_rules.specs.Titles.{title_eq};
ghost use Rattle.wk_tree.specs.Parsed.{list_with};
ghost use Rattle.wk_frames.specs.Levels.{tree_in, look_in, HasLists};
ghost use Rattle.wk_frames.specs.Marks.{byte_in, title_mark};
ghost use Rattle.wk_frames.specs.declared.levels.Level.{Level as LevelValue};

use crate::tree::Tree;
use std::alloc::Global;
use std::marker::Model;
use wk_args::Args;
use wk_memory::Memory;
use wk_title::Title;
use wk_tree::{ListId, Parsed};

/// What a name is bound to: a list of the tree of the caller's text.
#[derive(Clone, Copy)]
pub struct Bound {
    /// The items of the value.
    pub value: ListId,
    /// How many bytes the source of the value has, below 2^32.
    pub len: u32,
    /// Whether the value was given by its name.
    pub named: bool,
}

/// A page that is included.
#[derive(Drop)]
pub struct Level {
    /// The title whose text it is.
    pub title: Title,
    /// The text.
    pub tree: Tree,
    /// What is bound in it: lists of the tree of the text behind it.
    pub args: Args<Bound>,
}

/// The texts that are expanded within each other: that of the viewed page, or the given one, and those of the pages
/// that include each other. Contracts see the latter with the innermost first. What is bound in a page is a list of
/// the text behind it.
#[derive(Drop)]
pub struct Levels {
    root: Tree,
    included: Vec<Entered>,
}

impl Model for Levels {
    ghost use Rattle.std.specs.Prelude.{reverse};
    ghost use Rattle.std.specs.Coded.{codes};
    ghost use Rattle.wk_frames.specs.Codes.{args_code};
    ghost use Rattle.wk_frames.specs.Levels.{LevelsShown, AreBound};

    ghost Value = { LevelsShown };

    ghost coded = { Prim.hlevel (codes, args_code) };

    ghost view = { λ s. record { root = s.root; included = reverse s.included.items } };

    ghost invariant = { λ s. AreBound s.root (reverse s.included.items) };
}

/// A byte of a text, and 0 where it has none there.
#[inline(always)]
fn byte_in(text: &[u8], at: usize) -> u8
    ensures { result ≡ byte_in text.now at }
{
    text.get(at).copied().unwrap_or(0)
}

/// What tells most titles apart: the length of the key and its last two bytes, as one number. Takes no memory.
#[inline(always)]
fn mark_of(title: &Title) -> u32
    ensures { result ≡ title_mark title.now }
{
    let key = title.key().as_bytes();
    let len = key.len();
    let before = byte_in(key, len.saturating_sub(2));
    let last = byte_in(key, len.saturating_sub(1));
    (len as u32 * 256 + before as u32) * 256 + last as u32
}

/// A page that is included, and the mark of its title. Contracts see the page.
#[derive(Drop)]
struct Entered {
    mark: u32,
    level: Level,
}

impl Model for Entered {
    ghost use Rattle.std.specs.Prelude.{◌≡◌};
    ghost use Rattle.std.specs.Coded.{codes};
    ghost use Rattle.wk_frames.specs.Codes.{args_code};
    ghost use Rattle.wk_frames.specs.Marks.{title_mark};
    ghost use Rattle.wk_frames.specs.declared.levels.Level.{Level};

    ghost Value = { Level };

    ghost coded = { Prim.hlevel (codes, args_code) };

    ghost view = { λ e. e.level };

    ghost invariant = { λ e. e.mark ≡ title_mark e.level.title };
}

/// Whether a page is of this title, which has this mark.
#[inline(always)]
fn is_of(entered: &Entered, title: &Title, mark: u32) -> bool
    requires { mark ≡ title_mark title.now }
    ensures { result ≡ title_eq entered.now.title title.now }
{
    entered.mark == mark && entered.level.title == *title
}

/// Whether one of the pages is of this title.
#[inline(always)]
fn is_among(included: &[Entered], title: &Title) -> bool
    ensures { result ≡ list_any (λ (l : LevelValue). title_eq l.title title.now) included.now }
{
    let mark = mark_of(title);
    included.iter().any(|entered| is_of(entered, title, mark))
}

/// The text of the last page, or the one at the root.
fn last_text<'a>(root: &'a Tree, included: &'a [Entered]) -> &'a Parsed
    ensures { result.now ≡ tree_in root.now (reverse included.now) }
{
    match included.last() {
        Some(entered) => entered.level.tree.parsed(),
        None => root.parsed(),
    }
}

impl Levels {
    /// A text alone, with no page included. Takes no memory.
    pub fn new(alloc: Global, root: Tree) -> Levels
        ensures { result ≡ record { root = root; included = [] } }
    {
        Levels {
            root,
            included: Vec::new(alloc),
        }
    }

    /// The text whose items are expanded: that of the innermost page, or the one at the root where no page is included.
    /// Takes no memory.
    #[inline(always)]
    pub fn tree(&self) -> &Parsed
        ensures { result.now ≡ tree_in self.now.root self.now.included }
    {
        last_text(&self.root, &self.included)
    }

    /// The text behind the innermost page, in which the values of its arguments stand; the one at the root where no page is
    /// included. Takes no memory.
    #[inline(always)]
    pub fn outer(&self) -> &Parsed
        ensures { result.now ≡ tree_in self.now.root (drop 1 self.now.included) }
    {
        let Some((_, behind)) = self.included.as_slice().split_last() else {
            return self.root.parsed();
        };
        last_text(&self.root, behind)
    }

    /// Whether one of the pages that are included is of this title. Takes no memory.
    #[tactic(auto, using(crate::proofs::LevelLaws::any_reversed))]
    pub fn holds(&self, title: &Title) -> bool
        ensures { result ≡ list_any (λ (l : LevelValue). title_eq l.title title.now) self.now.included }
    {
        is_among(&self.included, title)
    }

    /// How many pages include each other. Takes no memory.
    #[inline(always)]
    pub fn depth(&self) -> usize
        ensures { result ≡ length self.now.included }
    {
        self.included.as_slice().len()
    }

    /// What a name is bound to in the innermost page: a list of the text behind it. None where the name isn't bound, and
    /// where no page is included. Takes no memory.
    pub fn look_text(&self, name: &str) -> Option<Bound>
        ensures bound { result ≡ look_in self.now.included name.now }
        ensures within { IfSome result (λ bound. 0 < length self.now.included) }
        ensures list { IfSome result
            (λ bound. IsSome (list_with (tree_in self.now.root (drop 1 self.now.included)) bound.value)) }
    {
        let entered = self.included.last()?;
        entered.level.args.look(name).copied()
    }

    /// A page is included in the innermost text, in which the values of its arguments stand. Memory: there was none for it.
    #[inline(always)]
    pub fn enter(&mut self, level: Level) -> Result<(), Memory>
        requires { HasLists (tree_in self.old.root self.old.included) level.args }
        ensures { OnOk result (self.new ≡ record self.old { included = level ∷ self.old.included }) }
    {
        let mark = mark_of(&level.title);
        self.included.push(Entered { mark, level })?;
        Ok(())
    }

    /// The innermost page, which is left: the text behind it is the innermost one. Takes no memory.
    #[inline(always)]
    pub fn leave(&mut self) -> Level
        requires { 0 < length self.old.included }
        ensures included { self.old.included ≡ result ∷ self.new.included }
        ensures root { self.new.root ≡ self.old.root }
        ensures lists { HasLists (tree_in self.new.root self.new.included) result.args }
    {
        let Some(Entered { mark: _mark, level }) = self.included.pop() else {
            unreachable!()
        };
        level
    }
}

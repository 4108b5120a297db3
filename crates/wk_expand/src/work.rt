//! The expansion of a text, one step after another.
ghost use Rattle.std.specs.Prelude.{◌≡◌, ◌<◌, List, [], length, IfOk, IsSome, OnOk, Some};
ghost use Rattle.wk_tree_rules.specs.Trees.{Item as TreeItem};
ghost use Rattle.wk_tree.specs.Parsed.{list_with, node_with};
ghost use Rattle.wk_view_rules.specs.Expansions.{Expansion, Output};
ghost use Rattle.wk_view_rules.specs.Worlds.{Seen as Answers};
ghost use Rattle.wk_expand.specs.Stack.{IsHere, IsNext, IsValueNext, Place};
ghost use Rattle.wk_expand.specs.PageParts.{IsPagePart};
ghost use Rattle.wk_expand.specs.State.{caller_tree, current};
ghost use Rattle.wk_expand.specs.Work.{IsAtNode, IsEnded, IsFilled, IsGoing, IsListing, IsNow, IsTurn, HasOpened, IsPassed};
ghost use Rattle.wk_expand.specs.declared.stack.Next.TheVariants.{Expands as ExpandsNext, Goes as GoesNext};
ghost use Rattle.wk_expand.specs.declared.stack.Pending.TheVariants.{Named as NamedPending};
ghost use Rattle.wk_expand.specs.declared.stack.Waiting.TheVariants.{Title as TitleWaiting};

use crate::items::fill;
use crate::seen::Seen;
use crate::stack::{Listing, Next, Now, Opened, Pending, Turn, Waiting};
use crate::state::{Expander, Stop};
use crate::texts::{nesting_error, node_error};
use crate::trees::Trees;
use std::mem;
use wk_frames::Bound;
use wk_memory::Memory;
use wk_out::Out;
use wk_title::Title;
use wk_tree::{ListId, NodeId};

/// How many nodes may be open within each other (own).
const MOST_OPEN: usize = 200;

/// An expansion that has begun.
#[derive(Drop)]
pub struct Work {
    /// How far it has come.
    pub expander: Expander,
    /// The nodes that are open within each other, the innermost last.
    pub opened: Vec<Opened>,
    /// The list that is expanded.
    pub listing: Listing,
}

impl Expander {
    /// Adds the items of a list from a place on to an output, up to the next node. The answer is the place behind the
    /// node, and the node, if there is one.
    #[inline(always)]
    fn fill(
        &self,
        list: ListId,
        start: usize,
        out: &mut Out,
    ) -> Result<(usize, Option<NodeId>), Memory>
        requires { IsSome (list_with (current self.now) list) }
        ensures { IfOk result (λ found. (items : List TreeItem) → list_with (current self.now) list ≡ Some items
            → IsFilled (current self.now) items start out.old found out.new) }
    {
        fill(self.tree(), list, start, out)
    }
}

impl Work {
    /// The list goes on behind a node that gives this output.
    #[inline(always)]
    fn passed(&mut self, one: &Out) -> Result<(), Memory>
        ensures { OnOk result (IsPassed self.old one.now self.new) }
    {
        self.listing.out.append(one)?;
        Ok(())
    }

    /// A node is open from now on, and waits for the output of this list.
    #[inline(always)]
    fn wait(&mut self, node: NodeId, waiting: Waiting, listing: Listing) -> Result<(), Memory>
        ensures { OnOk result (HasOpened self.old node waiting listing self.new) }
    {
        let behind = mem::replace(&mut self.listing, listing);
        self.opened.push(Opened {
            node,
            behind,
            waiting,
        })?;
        Ok(())
    }

    /// A node does next what is said.
    #[inline(always)]
    fn follow(&mut self, node: NodeId, next: Next) -> Result<Turn, Memory>
        ensures { IfOk result (λ turn. (seen : Answers) (e : Expansion Output)
            → IsGoing self.old node self.old.listing (λ p rest. IsNext p self.old.expander next rest) e
            → IsTurn seen e self.old.expander turn self.new) }
    {
        match next {
            Next::Gives(one) => {
                self.passed(&one)?;
                Ok(Turn::On(Now::List))
            }
            Next::Expands(waiting, list, before) => {
                let out = before;
                self.wait(node, waiting, Listing { list, at: 0, out })?;
                Ok(Turn::On(Now::List))
            }
            Next::Goes(pending) => Ok(Turn::On(Now::Node(node, pending))),
        }
    }

    /// A list is expanded for a node, up to the next node in it, which is opened then; a list with none is done with at
    /// once.
    #[inline(always)]
    fn expand_for(
        &mut self,
        node: NodeId,
        waiting: Waiting,
        list: ListId,
        before: Out,
    ) -> Result<Turn, Memory>
        requires { (e : Expansion Output) × IsGoing self.old node self.old.listing
            (λ p rest. IsNext p self.old.expander (ExpandsNext waiting list before) rest) e }
        ensures { IfOk result (λ turn. (seen : Answers) (e : Expansion Output)
            → IsGoing self.old node self.old.listing
            (λ p rest. IsNext p self.old.expander (ExpandsNext waiting list before) rest) e
            → IsTurn seen e self.old.expander turn self.new) }
    {
        let mut out = before;
        let (at, inner) = self.expander.fill(list, 0, &mut out)?;
        match inner {
            Some(inner) => {
                self.wait(node, waiting, Listing { list, at, out })?;
                Ok(Turn::On(Now::Open(inner)))
            }
            None => {
                let next = self.expander.finished(node, waiting, out)?;
                self.follow(node, next)
            }
        }
    }

    /// A node does next what is said, as far as it can be done at once.
    #[inline(always)]
    fn lead(&mut self, node: NodeId, next: Next) -> Result<Turn, Memory>
        requires { (e : Expansion Output) × IsGoing self.old node self.old.listing
            (λ p rest. IsNext p self.old.expander next rest) e }
        ensures { IfOk result (λ turn. (seen : Answers) (e : Expansion Output)
            → IsGoing self.old node self.old.listing (λ p rest. IsNext p self.old.expander next rest) e
            → IsTurn seen e self.old.expander turn self.new) }
    {
        match next {
            Next::Expands(waiting, list, before) => self.expand_for(node, waiting, list, before),
            next => self.follow(node, next),
        }
    }

    /// A node goes on whose title part gives this name.
    fn named(
        &mut self,
        seen: &Seen,
        trees: &mut Trees,
        node: NodeId,
        name: Out,
    ) -> Result<Turn, Memory>
        requires { (e : Expansion Output) × IsGoing self.old node self.old.listing
            (λ p rest. IsNext p self.old.expander (GoesNext (NamedPending name)) rest) e }
        ensures { IfOk result (λ turn. (e : Expansion Output)
            → IsGoing self.old node self.old.listing
            (λ p rest. IsNext p self.old.expander (GoesNext (NamedPending name)) rest) e
            → IsTurn seen.now e self.old.expander turn self.new) }
    {
        match self.expander.titled(seen, trees, node, &name) {
            Ok(next) => self.lead(node, next),
            Err(Stop::Needs(title, kind)) => {
                let now = Now::Node(node, Pending::Named(name));
                Ok(Turn::Needs(title, kind, now))
            }
            Err(Stop::Memory) => Err(Memory),
        }
    }

    /// An argument goes on to which this is bound.
    #[inline(always)]
    fn valued(&mut self, node: NodeId, bound: Bound) -> Result<Turn, Memory>
        requires within { 0 < length self.old.expander.levels.included }
        requires list { IsSome (list_with (caller_tree self.old.expander) bound.value) }
        requires there { (e : Expansion Output) × IsGoing self.old node self.old.listing
            (λ p rest. IsValueNext p self.old.expander bound rest) e }
        ensures { IfOk result (λ turn. (seen : Answers) (e : Expansion Output)
            → IsGoing self.old node self.old.listing (λ p rest. IsValueNext p self.old.expander bound rest) e
            → IsTurn seen e self.old.expander turn self.new) }
    {
        match self.expander.push_value(bound, &mut self.listing.out)? {
            Some(next) => self.lead(node, next),
            None => Ok(Turn::On(Now::List)),
        }
    }

    /// The title part of a node is expanded, up to the next node in it, which is opened then; the node goes on at once
    /// where there is none.
    fn name_part(
        &mut self,
        seen: &Seen,
        trees: &mut Trees,
        node: NodeId,
        list: ListId,
    ) -> Result<Turn, Memory>
        requires { (e : Expansion Output) × IsGoing self.old node self.old.listing
            (λ p rest. IsNext p self.old.expander (ExpandsNext TitleWaiting list []) rest) e }
        ensures { IfOk result (λ turn. (e : Expansion Output)
            → IsGoing self.old node self.old.listing
            (λ p rest. IsNext p self.old.expander (ExpandsNext TitleWaiting list []) rest) e
            → IsTurn seen.now e self.old.expander turn self.new) }
    {
        let mut out = Out::new(self.expander.alloc);
        let (at, inner) = self.expander.fill(list, 0, &mut out)?;
        match inner {
            Some(first) => {
                self.wait(node, Waiting::Title, Listing { list, at, out })?;
                Ok(Turn::On(Now::Open(first)))
            }
            None => self.named(seen, trees, node, out),
        }
    }

    /// A template goes on whose title part names a page. Where an answer is lacking, the title part is expanded to the
    /// name by which the template goes on once there is one.
    #[inline(always)]
    fn page_part(
        &mut self,
        seen: &Seen,
        trees: &mut Trees,
        node: NodeId,
        list: ListId,
        page: Title,
    ) -> Result<Turn, Memory>
        requires there { (e : Expansion Output) × IsGoing self.old node self.old.listing
            (λ p rest. IsNext p self.old.expander (ExpandsNext TitleWaiting list []) rest) e }
        requires page { (p : Place) → IsHere self.old.expander node p → IsPagePart p list page }
        ensures { IfOk result (λ turn. (e : Expansion Output)
            → IsGoing self.old node self.old.listing
            (λ p rest. IsNext p self.old.expander (ExpandsNext TitleWaiting list []) rest) e
            → IsTurn seen.now e self.old.expander turn self.new) }
    {
        match self.expander.page_called(seen, trees, node, page) {
            Ok(next) => self.lead(node, next),
            Err(Stop::Needs(_, _)) => self.name_part(seen, trees, node, list),
            Err(Stop::Memory) => Err(Memory),
        }
    }

    /// A node goes on by its title part: at once where that is one plain part and names a page, or an argument to which
    /// a value is bound.
    fn title_part(
        &mut self,
        seen: &Seen,
        trees: &mut Trees,
        node: NodeId,
        list: ListId,
    ) -> Result<Turn, Memory>
        requires { (e : Expansion Output) × IsGoing self.old node self.old.listing
            (λ p rest. IsNext p self.old.expander (ExpandsNext TitleWaiting list []) rest) e }
        ensures { IfOk result (λ turn. (e : Expansion Output)
            → IsGoing self.old node self.old.listing
            (λ p rest. IsNext p self.old.expander (ExpandsNext TitleWaiting list []) rest) e
            → IsTurn seen.now e self.old.expander turn self.new) }
    {
        if let Some(bound) = self.expander.plain_bound(node, list) {
            return self.valued(node, bound);
        }
        match self.expander.plain_page(trees, node, list)? {
            Some(page) => self.page_part(seen, trees, node, list, page),
            None => self.name_part(seen, trees, node, list),
        }
    }

    /// A node of the list is opened, or gives an error where it can't be.
    #[inline(always)]
    fn open(&mut self, seen: &Seen, trees: &mut Trees, node: NodeId) -> Result<Turn, Memory>
        requires { (e : Expansion Output) × IsAtNode self.old node self.old.listing e }
        ensures { IfOk result (λ turn. (e : Expansion Output)
            → IsAtNode self.old node self.old.listing e → IsTurn seen.now e self.old.expander turn self.new) }
    {
        let alloc = self.expander.alloc;
        if !self.expander.charge(1) {
            let spent = node_error(alloc)?;
            self.passed(&spent)?;
            return Ok(Turn::On(Now::List));
        }
        if MOST_OPEN <= self.opened.as_slice().len() {
            let nested = nesting_error(alloc)?;
            self.passed(&nested)?;
            return Ok(Turn::On(Now::List));
        }
        let title = self.expander.tree().title(node);
        self.title_part(seen, trees, node, title)
    }

    /// The list has ended: the innermost node that is open goes on, if there is one.
    #[inline(always)]
    fn ended(&mut self, seen: &Seen, trees: &mut Trees) -> Result<Turn, Memory>
        requires { (e : Expansion Output) × IsEnded self.old self.old.listing.out e }
        ensures { IfOk result (λ turn. (e : Expansion Output)
            → IsEnded self.old self.old.listing.out e → IsTurn seen.now e self.old.expander turn self.new) }
    {
        let Some(top) = self.opened.pop() else {
            return Ok(Turn::Done);
        };
        let Opened {
            node,
            behind,
            waiting,
        } = top;
        let listing = mem::replace(&mut self.listing, behind);
        match waiting {
            Waiting::Title => self.named(seen, trees, node, listing.out),
            waiting => {
                let next = self.expander.finished(node, waiting, listing.out)?;
                self.lead(node, next)
            }
        }
    }

    /// The list is expanded up to its next node, or to its end.
    #[inline(always)]
    fn expand_list(&mut self, seen: &Seen, trees: &mut Trees) -> Result<Turn, Memory>
        requires { (e : Expansion Output) × IsListing self.old self.old.listing e }
        ensures { IfOk result (λ turn. (e : Expansion Output)
            → IsListing self.old self.old.listing e → IsTurn seen.now e self.old.expander turn self.new) }
    {
        let list = self.listing.list;
        let (at, node) = self
            .expander
            .fill(list, self.listing.at, &mut self.listing.out)?;
        self.listing.at = at;
        match node {
            Some(node) => self.open(seen, trees, node),
            None => self.ended(seen, trees),
        }
    }

    /// A node goes on.
    fn go_on(
        &mut self,
        seen: &Seen,
        trees: &mut Trees,
        node: NodeId,
        pending: Pending,
    ) -> Result<Turn, Memory>
        requires { (e : Expansion Output) × IsGoing self.old node self.old.listing
            (λ p rest. IsNext p self.old.expander (GoesNext pending) rest) e }
        ensures { IfOk result (λ turn. (e : Expansion Output)
            → IsGoing self.old node self.old.listing
            (λ p rest. IsNext p self.old.expander (GoesNext pending) rest) e
            → IsTurn seen.now e self.old.expander turn self.new) }
    {
        match pending {
            Pending::Named(name) => self.named(seen, trees, node, name),
            Pending::Target(title, target) => {
                match self
                    .expander
                    .redirected_page(seen, trees, node, &title, &target)
                {
                    Ok(next) => self.lead(node, next),
                    Err(Stop::Needs(needed, kind)) => {
                        let now = Now::Node(node, Pending::Target(title, target));
                        Ok(Turn::Needs(needed, kind, now))
                    }
                    Err(Stop::Memory) => Err(Memory),
                }
            }
            Pending::Binds(page, binder) => {
                let next = self.expander.bind(trees, node, page.found(), binder)?;
                self.lead(node, next)
            }
        }
    }

    /// One step.
    #[inline(always)]
    pub fn step(&mut self, seen: &Seen, trees: &mut Trees, now: Now) -> Result<Turn, Memory>
        requires { (e : Expansion Output) × IsNow self.old now e }
        ensures { IfOk result (λ turn. (e : Expansion Output)
            → IsNow self.old now e → IsTurn seen.now e self.old.expander turn self.new) }
    {
        match now {
            Now::List => self.expand_list(seen, trees),
            Now::Open(node) => self.open(seen, trees, node),
            Now::Node(node, pending) => self.go_on(seen, trees, node, pending),
        }
    }
}

//! Substitution, one step after another.
ghost use Rattle.std.specs.Prelude.{◌≡◌, ◌∷◌, List, IfOk, IsSome, OnOk, Some, None, if◌then◌else◌};
ghost use Rattle.std.specs.Option.{option_copied};
ghost use Rattle.wk_tree.specs.Parsed.{list_with, node_with, part_with};
ghost use Rattle.wk_tree.specs.Tokens.{is_argument};
ghost use Rattle.wk_tree_rules.specs.Tree.{Part as TreePart};
ghost use Rattle.wk_tree_rules.specs.Trees.{argument, template, opening_braces, closing_braces};
ghost use Rattle.wk_subst_rules.specs.Calls.{called_title};
ghost use Rattle.wk_subst.specs.Nodes.{items_of};
ghost use Rattle.wk_subst.specs.Stack.{AreOpened, HasLists, behind};
ghost use Rattle.wk_subst.specs.Work.{IsSound, IsStep, Leads, LeadsOn, answered_rest, argument_rest, called_by, default_rest, entered, filled_rest, found_by, node_in, opened_rest, page_of_call, parsed_of, part_rest, place_in, source_in, template_rest, used_rest, values_rest, with_text, with_value, written_rest};
ghost use Rattle.wk_subst.specs.declared.stack.Use.TheVariants.{Written as WrittenUse};

use crate::bindings::Bindings;
use crate::items::{fill, has_node, list_text, node_text};
use crate::names::{behind_subst, trimmed_text};
use crate::output::Output;
use crate::spent::Spent;
use crate::stack::{Call, Level, Opened, Stack, Use, Waiting};
use crate::texts::Texts;
use std::alloc::Global;
use std::mem;
use wk_bytes::Text;
use wk_memory::Memory;
use wk_title::{Title, named};
use wk_tree::{ListId, NodeId, Parsed};

/// How many nodes may be open within each other (own).
const MOST_OPEN: usize = 200;

/// How many calls may stand within each other (own).
const MOST_CALLS: usize = 40;

/// The number of the namespace Template.
const TEMPLATE: i8 = 10;

/// A substitution that has begun.
#[derive(Drop)]
pub struct Work {
    /// The allocator of what is made on the way.
    pub alloc: Global,
    /// The text that is gone over.
    pub level: Level,
    /// The list that is gone over.
    pub list: ListId,
    /// Its next item.
    pub at: usize,
    /// The text that is made.
    pub out: Output,
    /// The nodes that are open within each other.
    pub opened: Stack,
    /// What it has cost.
    pub spent: Spent,
}

/// What is carried out next.
#[derive(Drop)]
pub enum Now {
    /// The list is gone over.
    List,
    /// A node calls the page of this title, behind which the list's next item stands.
    Calls(NodeId, Title),
}

/// What a template is.
#[derive(Drop)]
pub enum Called {
    /// No call.
    Nothing,
    /// A call that gives its source.
    Refused,
    /// A call of the page of this title.
    Page(Title),
}

/// The opening braces of an argument, or of a template.
fn opening(is_argument: bool) -> &'static str
    ensures { result.now ≡ opening_braces (if is_argument then argument else template) }
{
    if is_argument { "{{{" } else { "{{" }
}

/// The closing braces of an argument, or of a template.
fn closing(is_argument: bool) -> &'static str
    ensures { result.now ≡ closing_braces (if is_argument then argument else template) }
{
    if is_argument { "}}}" } else { "}}" }
}

impl Work {
    /// The text whose items are gone over.
    fn tree(&self) -> &Parsed
        ensures { result.now ≡ parsed_of self.now }
    {
        self.level.tree.parsed()
    }

    /// A node gives its source.
    fn give_source(&mut self, node: NodeId) -> Result<(), Memory>
        requires { IsSome (node_with (parsed_of self.old) node) }
        ensures { OnOk result (self.new ≡ with_text self.old (source_in self.old node)) }
    {
        self.out.push(node_text(self.level.tree.parsed(), node))
    }

    /// A node is open from now on, and waits for the end of a list.
    fn enter(&mut self, node: NodeId, waiting: Waiting, list: ListId) -> Result<(), Memory>
        ensures { OnOk result (self.new ≡ entered self.old node waiting list) }
    {
        let opened = Opened {
            node,
            list: self.list,
            at: self.at,
            waiting,
        };
        self.opened.push(opened)?;
        self.list = list;
        self.at = 0;
        Ok(())
    }

    /// A further part of a node is gone over whole.
    fn whole(&mut self, node: NodeId, at: usize, used: Use) -> Result<(), Memory>
        requires node { IsSome (node_with (parsed_of self.old) node) }
        requires part { IsSome (part_with (parsed_of self.old) node at) }
        requires sound { IsSound self.old }
        ensures { OnOk result ((q : TreePart) → part_with (parsed_of self.old) node at ≡ Some q
            → LeadsOn self.old (part_rest self.old node q used) self.new) }
    {
        let part = self.tree().part(node, at);
        match part.name {
            Some(name) => self.enter(node, Waiting::Name(part.value, used), name),
            None => self.enter(node, Waiting::Part(used), part.value),
        }
    }

    /// A node begins to be given as it is written.
    fn written(&mut self, node: NodeId) -> Result<(), Memory>
        requires node { IsSome (node_with (parsed_of self.old) node) }
        requires sound { IsSound self.old }
        ensures { OnOk result (LeadsOn self.old (written_rest self.old node) self.new) }
    {
        let braces = opening(self.tree().argument(node));
        let title = self.tree().title(node);
        self.out.push(braces)?;
        self.enter(node, Waiting::Part(Use::Written(0)), title)
    }

    /// A node that is given as it is written goes on with a further part, or ends.
    fn written_part(&mut self, node: NodeId, next: usize) -> Result<(), Memory>
        requires node { IsSome (node_with (parsed_of self.old) node) }
        requires sound { IsSound self.old }
        ensures { OnOk result (LeadsOn self.old (used_rest self.old node (WrittenUse next)) self.new) }
    {
        if next < self.tree().parts(node) {
            self.out.push("|")?;
            return self.whole(node, next, Use::Written(next + 1));
        }
        let braces = closing(self.tree().argument(node));
        self.out.push(braces)
    }

    /// A node goes on behind a further part.
    fn used(&mut self, node: NodeId, used: Use) -> Result<(), Memory>
        requires node { IsSome (node_with (parsed_of self.old) node) }
        requires sound { IsSound self.old }
        ensures { OnOk result (LeadsOn self.old (used_rest self.old node used) self.new) }
    {
        match used {
            Use::Whole => Ok(()),
            Use::Written(next) => self.written_part(node, next),
        }
    }

    /// An argument to which nothing is bound gives its second part, or its source.
    fn default(&mut self, node: NodeId) -> Result<(), Memory>
        requires node { IsSome (node_with (parsed_of self.old) node) }
        requires sound { IsSound self.old }
        ensures { OnOk result (LeadsOn self.old (default_rest self.old node) self.new) }
    {
        if self.tree().parts(node) == 0 {
            return self.give_source(node);
        }
        self.whole(node, 0, Use::Whole)
    }

    /// An argument.
    fn argument(&mut self, node: NodeId) -> Result<(), Memory>
        requires node { IsSome (node_with (parsed_of self.old) node) }
        requires kind { (node_in self.old node).kind ≡ argument }
        requires sound { IsSound self.old }
        ensures { OnOk result (LeadsOn self.old (argument_rest self.old node) self.new) }
    {
        let Some(bound) = &self.level.bound else {
            return self.written(node);
        };
        let tree = self.level.tree.parsed();
        let title = tree.title(node);
        let name = list_text(self.alloc, tree, title)?;
        let Some(value) = bound.look(trimmed_text(name.as_str())) else {
            return self.default(node);
        };
        if !self.spent.charge(value.len() as u64 / 64) {
            return self.give_source(node);
        }
        self.out.push(value)
    }

    /// The title that a name calls, if it may.
    fn title_called(&self, name: &str) -> Result<Option<Title>, Memory>
        ensures { IfOk result (λ found. found ≡ called_title (place_in self.now) name.now) }
    {
        let Some(title) = named(self.alloc, name, TEMPLATE)? else {
            return Ok(None);
        };
        if title.is_virtual() {
            return Ok(None);
        }
        if self.opened.is_within(&title) {
            return Ok(None);
        }
        if MOST_CALLS <= self.opened.calls() {
            return Ok(None);
        }
        Ok(Some(title))
    }

    /// What a template is, by its title part.
    fn called(&self, title: ListId) -> Result<Called, Memory>
        requires { IsSome (list_with (parsed_of self.now) title) }
        ensures { IfOk result (λ found. found_by found ≡ called_by (place_in self.now) (items_of (parsed_of self.now) title)) }
    {
        if has_node(self.tree(), title) {
            return Ok(Called::Nothing);
        }
        let text = list_text(self.alloc, self.tree(), title)?;
        let Some(name) = behind_subst(trimmed_text(text.as_str())) else {
            return Ok(Called::Nothing);
        };
        match self.title_called(name)? {
            Some(title) => Ok(Called::Page(title)),
            None => Ok(Called::Refused),
        }
    }

    /// A template.
    fn template(&mut self, node: NodeId) -> Result<Now, Memory>
        requires node { IsSome (node_with (parsed_of self.old) node) }
        requires kind { (node_in self.old node).kind ≡ template }
        requires sound { IsSound self.old }
        ensures { IfOk result (λ now. Leads self.old (template_rest self.old node) self.new now) }
    {
        let title = self.tree().title(node);
        match self.called(title)? {
            Called::Nothing => {
                self.written(node)?;
                Ok(Now::List)
            }
            Called::Refused => {
                self.give_source(node)?;
                Ok(Now::List)
            }
            Called::Page(title) => Ok(Now::Calls(node, title)),
        }
    }

    /// A node of the list.
    fn open(&mut self, node: NodeId) -> Result<Now, Memory>
        requires node { IsSome (node_with (parsed_of self.old) node) }
        requires sound { IsSound self.old }
        ensures { IfOk result (λ now. Leads self.old (opened_rest self.old node) self.new now) }
    {
        if !self.spent.charge(1) {
            self.give_source(node)?;
            return Ok(Now::List);
        }
        if MOST_OPEN <= self.opened.len() {
            self.give_source(node)?;
            return Ok(Now::List);
        }
        if self.tree().argument(node) {
            self.argument(node)?;
            return Ok(Now::List);
        }
        self.template(node)
    }

    /// The text of a page is gone over, in which this is bound.
    fn enter_page(&mut self, texts: &mut Texts, node: NodeId, call: Call) -> Result<(), Memory>
        requires node { IsSome (node_with (parsed_of self.old) node) }
        requires sound { IsSound self.old }
        ensures { OnOk result (LeadsOn self.old (page_of_call self.old node call) self.new) }
    {
        let Call {
            title,
            text,
            bound,
            ..
        } = call;
        let tree = texts.tree(&text)?;
        let before = mem::replace(&mut self.out, Output::new(self.alloc));
        let page = Level {
            tree,
            bound: Some(bound),
        };
        let level = mem::replace(&mut self.level, page);
        self.enter(node, Waiting::Filled(title, before, level), ListId::Root)
    }

    /// A call goes on with the value of its next further part, or with the text of its page.
    fn bind_next(&mut self, texts: &mut Texts, node: NodeId, call: Call) -> Result<(), Memory>
        requires node { IsSome (node_with (parsed_of self.old) node) }
        requires sound { IsSound self.old }
        ensures { OnOk result (LeadsOn self.old (values_rest self.old node call) self.new) }
    {
        let mut call = call;
        let next = call.next;
        if next < self.tree().parts(node) {
            let part = self.tree().part(node, next);
            call.next = next + 1;
            let before = mem::replace(&mut self.out, Output::new(self.alloc));
            return self.enter(node, Waiting::Value(call, before, part.name), part.value);
        }
        self.enter_page(texts, node, call)
    }

    /// A value of a call has ended, which has this name or none.
    fn valued(
        &mut self,
        texts: &mut Texts,
        node: NodeId,
        call: Call,
        before: Output,
        name: Option<ListId>,
    ) -> Result<(), Memory>
        requires node { IsSome (node_with (parsed_of self.old) node) }
        requires sound { IsSound self.old }
        requires name { HasLists (parsed_of self.old) (Waiting.Value call before name) }
        ensures { OnOk result (LeadsOn self.old (with_value self.old node call before name) self.new) }
    {
        let mut call = call;
        let value = mem::replace(&mut self.out, before);
        call.bind(self.alloc, self.level.tree.parsed(), name, value)?;
        self.bind_next(texts, node, call)
    }

    /// The text of a page has ended, whose call stands in this level.
    fn filled(&mut self, node: NodeId, before: Output, level: Level) -> Result<(), Memory>
        requires node { IsSome (node_with level.tree node) }
        requires sound { IsSound (record self.old { level = level }) }
        ensures { OnOk result (LeadsOn self.old (filled_rest self.old node before level) self.new) }
    {
        self.level = level;
        let text = mem::replace(&mut self.out, before);
        if !self.spent.count(text.len()) {
            return self.give_source(node);
        }
        self.out.push(text.as_str())
    }

    /// The list has ended, for which a node waits.
    fn ended(&mut self, texts: &mut Texts, opened: Opened) -> Result<(), Memory>
        requires { AreOpened self.old.level (opened ∷ self.old.opened) }
        ensures { OnOk result (LeadsOn self.old (behind (opened ∷ self.old.opened) self.old.level self.old.out) self.new) }
    {
        let Opened {
            node,
            list,
            at,
            waiting,
        } = opened;
        self.list = list;
        self.at = at;
        match waiting {
            Waiting::Part(used) => self.used(node, used),
            Waiting::Name(value, used) => {
                self.out.push("=")?;
                self.enter(node, Waiting::Part(used), value)
            }
            Waiting::Value(call, before, name) => self.valued(texts, node, call, before, name),
            Waiting::Filled(_title, before, level) => self.filled(node, before, level),
        }
    }

    /// The list is gone over up to its next node, which is opened, or to its end. The answer is what is next; nothing, where
    /// the text is made.
    pub fn step(&mut self, texts: &mut Texts) -> Result<Option<Now>, Memory>
        requires { IsSound self.old }
        ensures { IfOk result (λ next. IsStep self.old next self.new) }
    {
        let stays = self.level.bound.is_none();
        let tree = self.level.tree.parsed();
        let (at, node) = fill(tree, self.list, self.at, stays, &mut self.out)?;
        self.at = at;
        if let Some(node) = node {
            return Ok(Some(self.open(node)?));
        }
        match self.opened.pop() {
            Some(opened) => {
                self.ended(texts, opened)?;
                Ok(Some(Now::List))
            }
            None => Ok(None),
        }
    }

    /// A node calls a page with this text, or a missing one.
    pub fn call(
        &mut self,
        texts: &mut Texts,
        node: NodeId,
        title: Title,
        text: Option<&Text>,
    ) -> Result<(), Memory>
        requires node { IsSome (node_with (parsed_of self.old) node) }
        requires sound { IsSound self.old }
        ensures { OnOk result (LeadsOn self.old (answered_rest self.old node title (option_copied text.entry)) self.new) }
    {
        let Some(text) = text else {
            return self.give_source(node);
        };
        if !self.spent.charge(text.len() as u64 / 64) {
            return self.give_source(node);
        }
        let call = Call {
            title,
            text: text.share()?,
            bound: Bindings::new(self.alloc),
            numbered: 0,
            next: 0,
        };
        self.bind_next(texts, node, call)
    }
}

//! The expansion of templates (MediaWiki's Help:Templates).
ghost use Rattle.std.specs.Prelude.{◌≡◌, ◌+◌, ◌<◌, ◌≤◌, List, [], drop, length, IfOk, IfSome, IsSome, OnOk};
ghost use Rattle.std.specs.FinMap.{empty};
ghost use Rattle.wk_view_rules.specs.Expand.{included, inclusion, kind_output, redirected, template_output};
ghost use Rattle.wk_view_rules.specs.Expansions.{Expansion, Output};
ghost use Rattle.wk_view_rules.specs.Frames.{Binding};
ghost use Rattle.wk_view_rules.specs.Worlds.{Seen as Answers};
ghost use Rattle.wk_tree.specs.Parsed.{list_with, node_with, part_with};
ghost use Rattle.wk_tree.specs.declared.item.NodeId.{NodeId as NodeName};
ghost use Rattle.wk_frames.specs.Levels.{HasLists};
ghost use Rattle.wk_expand.specs.PageParts.{IsPagePart};
ghost use Rattle.wk_expand.specs.Running.{Keeps};
ghost use Rattle.wk_expand.specs.Stack.{IsBinds, IsBoundNext, IsHere, LeadsTo, LeadsOn, Place, included_with, parts_at, text_at};
ghost use Rattle.wk_frames.specs.Frames.{ShowsBindings};
ghost use Rattle.wk_expand.specs.State.{current};

use crate::decide::Decision;
use crate::inclusion::Found;
use crate::search::Searching;
use crate::seen::Seen;
use crate::stack::{Binder, Included, Inclusion, Next, Pending, Waiting};
use crate::state::{Expander, Stop};
use crate::texts::node_error;
use crate::trees::Trees;
use wk_args::Args;
use wk_bytes::Text;
use wk_frames::{Bound, Level, bind, bind_number};
use wk_func::{Word, find_plain};
use wk_memory::Memory;
use wk_out::Out;
use wk_title::Title;
use wk_tree::{ListId, NodeId};
use wk_tree_rules::Mode;

impl Expander {
    /// What a node does, whose title part gives this name.
    pub fn titled(
        &mut self,
        seen: &Seen,
        trees: &mut Trees,
        node: NodeId,
        name: &Out,
    ) -> Result<Next, Stop>
        requires { IsSome (node_with (current self.old) node) }
        ensures keeps { Keeps result self.old self.new }
        ensures leads { (p : Place) → IsHere self.old node p
            → LeadsOn seen.now p (kind_output p.inner p.viewed p.frame p.node.kind name.now (parts_at p))
            self.old result self.new }
    {
        if self.tree().argument(node) {
            return Ok(self.argument(node, name)?);
        }
        self.template(seen, trees, node, name)
    }

    /// What a template does, whose title part gives this name.
    fn template(
        &mut self,
        seen: &Seen,
        trees: &mut Trees,
        node: NodeId,
        name: &Out,
    ) -> Result<Next, Stop>
        requires { IsSome (node_with (current self.old) node) }
        ensures keeps { Keeps result self.old self.new }
        ensures leads { (p : Place) → IsHere self.old node p
            → LeadsOn seen.now p (template_output p.inner p.viewed p.frame name.now (parts_at p))
            self.old result self.new }
    {
        let count = self.tree().parts(node);
        match self.decide(seen, trees, name, count)? {
            Decision::Gives(out) => Ok(Next::Gives(out)),
            Decision::Operand(n) => Ok(self.operand(node, n)),
            Decision::Equality(first) => Ok(self.equality(node, first)),
            Decision::Switch(subject) => {
                let search = Searching::new(self.alloc, subject)?;
                Ok(self.switch(node, search, 0))
            }
            Decision::Written => Ok(self.written(node, name)?),
            Decision::Redirects(title, target) => Ok(Next::Goes(Pending::Target(title, target))),
            Decision::Includes(title, source, text) => {
                Ok(self.page_text(trees, node, title, source, text)?)
            }
        }
    }

    /// The page that a template calls whose title part is one plain part of the text; none where the title part is more
    /// than that, or calls no page.
    #[inline(always)]
    pub fn plain_page(
        &self,
        trees: &mut Trees,
        node: NodeId,
        title: ListId,
    ) -> Result<Option<Title>, Memory>
        requires node { IsSome (node_with (current self.now) node) }
        requires title { IsSome (list_with (current self.now) title) }
        ensures { IfOk result (λ found. IfSome found (λ page. (p : Place) → IsHere self.now node p → IsPagePart p title page)) }
    {
        if self.tree().argument(node) {
            return Ok(None);
        }
        let Some(name) = self.plain_name(title) else {
            return Ok(None);
        };
        let count = self.tree().parts(node);
        match find_plain(name, count == 0) {
            Word::Page => trees.called(self.alloc, name),
            _ => Ok(None),
        }
    }

    /// What a template does that calls a page.
    #[inline(always)]
    pub fn page_called(
        &mut self,
        seen: &Seen,
        trees: &mut Trees,
        node: NodeId,
        title: Title,
    ) -> Result<Next, Stop>
        requires { IsSome (node_with (current self.old) node) }
        ensures keeps { Keeps result self.old self.new }
        ensures leads { (p : Place) → IsHere self.old node p
            → LeadsOn seen.now p (inclusion p.inner p.viewed p.frame title (parts_at p)) self.old result self.new }
    {
        match self.inclusion(seen, &title)? {
            Found::Gives(out) => Ok(Next::Gives(out)),
            Found::Redirects(target) => Ok(Next::Goes(Pending::Target(title, target))),
            Found::Includes(source, text) => {
                Ok(self.page_text(trees, node, title, source, text)?)
            }
        }
    }

    /// What a template does whose page redirects to a target.
    pub fn redirected_page(
        &mut self,
        seen: &Seen,
        trees: &mut Trees,
        node: NodeId,
        title: &Title,
        target: &Title,
    ) -> Result<Next, Stop>
        requires { IsSome (node_with (current self.old) node) }
        ensures keeps { Keeps result self.old self.new }
        ensures leads { (p : Place) → IsHere self.old node p
            → LeadsOn seen.now p (redirected p.inner p.viewed p.frame title.now target.now (parts_at p))
            self.old result self.new }
    {
        match self.redirected(seen, title, target)? {
            Found::Gives(out) => Ok(Next::Gives(out)),
            Found::Redirects(target) => Ok(Next::Goes(Pending::Target(title.share()?, target))),
            Found::Includes(source, text) => {
                let title = title.share()?;
                Ok(self.page_text(trees, node, title, source, text)?)
            }
        }
    }

    /// What a template does in whose place a text is included, which stands under `source`.
    #[inline(always)]
    fn page_text(
        &mut self,
        trees: &mut Trees,
        node: NodeId,
        title: Title,
        source: Title,
        text: Text,
    ) -> Result<Next, Memory>
        requires { IsSome (node_with (current self.old) node) }
        ensures { IfOk result (λ next. (seen : Answers) (p : Place) → IsHere self.old node p
            → LeadsTo seen p (included p.inner p.viewed p.frame title source text (parts_at p))
            self.old next self.new) }
    {
        if !self.charge(text.len() as u64 / 64) {
            return Ok(Next::Gives(node_error(self.alloc)?));
        }
        let page = Inclusion {
            title,
            source,
            text,
        };
        let binder = Binder {
            args: Args::new(self.alloc),
            numbered: 0,
            at: 0,
        };
        self.bind(trees, node, page, binder)
    }

    /// Binds a node's further parts from one on, up to the first whose name is to be expanded, which it begins to do;
    /// behind the last the page is included.
    #[inline(always)]
    pub fn bind(
        &mut self,
        trees: &mut Trees,
        node: NodeId,
        page: Inclusion,
        binder: Binder,
    ) -> Result<Next, Memory>
        requires there { IsSome (node_with (current self.old) node) }
        requires lists { HasLists (current self.old) binder.args }
        requires few { binder.numbered ≤ binder.at }
        ensures { IfOk result (λ next. (seen : Answers) (p : Place) (rest : Expansion Output)
            → IsHere self.old node p → IsBinds p page binder rest → LeadsTo seen p rest self.old next self.new) }
    {
        let mut binder = binder;
        let count = self.tree().parts(node);
        'parts: while binder.at < count {
            if let Some((name, bound)) = self.bind_part(node, &mut binder)? {
                let page = Included::new(self.alloc, page)?;
                let waiting = Waiting::Binding(page, binder, bound);
                let before = Out::new(self.alloc);
                return Ok(Next::Expands(waiting, name, before));
            }
        }
        self.enter_page(trees, page, binder.args)
    }

    /// Binds the next of a node's further parts, or gives its name and what is to be bound to it, where the name is more
    /// than a part of the text.
    #[inline(always)]
    fn bind_part(
        &self,
        node: NodeId,
        binder: &mut Binder,
    ) -> Result<Option<(ListId, Bound)>, Memory>
        requires there { IsSome (part_with (current self.now) node binder.old.at) }
        requires lists { HasLists (current self.now) binder.old.args }
        requires few { binder.old.numbered ≤ binder.old.at }
        requires last { binder.old.at < usize.MAX }
        ensures at { OnOk result (binder.new.at ≡ binder.old.at + 1) }
        ensures few { OnOk result (binder.new.numbered ≤ binder.new.at) }
        ensures lists { OnOk result (HasLists (current self.now) binder.new.args) }
        ensures bound { IfOk result (λ found. (p : Place) → IsHere self.now node p
            → IsBoundNext p binder.old found binder.new) }
    {
        let part = self.tree().part(node, binder.at);
        let bound = Bound {
            value: part.value,
            len: part.len,
            named: part.name.is_some(),
        };
        binder.at += 1;
        let Some(name) = part.name else {
            binder.numbered += 1;
            bind_number(self.alloc, &mut binder.args, binder.numbered, bound)?;
            return Ok(None);
        };
        match self.plain_name(name) {
            Some(text) => {
                bind(&mut binder.args, text, bound)?;
                Ok(None)
            }
            None => Ok(Some((name, bound))),
        }
    }

    /// Includes a page, in which this is bound.
    #[inline(always)]
    fn enter_page(
        &mut self,
        trees: &mut Trees,
        page: Inclusion,
        args: Args<Bound>,
    ) -> Result<Next, Memory>
        requires { HasLists (current self.old) args }
        ensures { IfOk result (λ next. (seen : Answers) (p : Place) (id : NodeName) (bindings : List Binding)
            → IsHere self.old id p → ShowsBindings (text_at p) args bindings
            → LeadsTo seen p (included_with p page bindings) self.old next self.new) }
    {
        let tree = trees.tree(self.alloc, &page.text, Mode::Include)?;
        let root = tree.root();
        let Inclusion { title, source, .. } = page;
        self.levels.enter(Level {
            title: source,
            tree,
            args,
        })?;
        let out = Out::new(self.alloc);
        Ok(Next::Expands(Waiting::Included(title), root, out))
    }
}

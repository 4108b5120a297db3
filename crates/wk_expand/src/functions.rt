//! The expansion of a `#switch` (MediaWiki's Help:Extension:ParserFunctions).
ghost use Rattle.std.specs.Prelude.{◌≡◌, List, drop, IfOk, IsSome, Some};
ghost use Rattle.wk_text_rules.specs.Marked.{trimmed_output};
ghost use Rattle.wk_tree_rules.specs.Trees.{Item};
ghost use Rattle.wk_view_rules.specs.Expand.{behind_bare_item, switch_output, without_result};
ghost use Rattle.wk_view_rules.specs.Words.{named_item};
ghost use Rattle.wk_view_rules.specs.Worlds.{Seen as Answers};
ghost use Rattle.wk_tree.specs.Parsed.{list_with, node_with};
ghost use Rattle.wk_tree.specs.declared.item.NodeId.{NodeId as NodeName};
ghost use Rattle.wk_expand.specs.Searches.{HasDefault, behind_turned, search_of};
ghost use Rattle.wk_expand.specs.Stack.{IsHere, LeadsTo, Place, parts_at, searched, text_at};
ghost use Rattle.wk_expand.specs.State.{current};

use crate::search::{Search, Searching};
use crate::stack::{Next, Use, Waiting};
use crate::state::Expander;
use wk_frames::trimmed;
use wk_memory::Memory;
use wk_out::Out;
use wk_tree::{ListId, NodeId};

impl Expander {
    /// The items of a `#switch` from one on, by what was met before.
    pub fn switch(&self, node: NodeId, search: Searching, at: usize) -> Next
        requires there { IsSome (node_with (current self.now) node) }
        requires default { HasDefault (current self.now) search }
        ensures { (seen : Answers) (p : Place) → IsHere self.now node p
            → LeadsTo seen p (switch_output p.inner p.viewed p.frame (search_of (text_at p) search)
            (drop at (parts_at p))) self.now result self.now }
    {
        if self.tree().parts(node) <= at {
            return self.without_result(search.found());
        }
        let part = self.tree().part(node, at);
        let out = Out::new(self.alloc);
        match part.name {
            None => Next::Expands(Waiting::Bare(search, at + 1), part.value, out),
            Some(name) => {
                if search.matched() {
                    return Next::Expands(Waiting::Part(Use::Operand), part.value, out);
                }
                Next::Expands(Waiting::Named(search, at + 1, part.value), name, out)
            }
        }
    }

    /// What a `#switch` with no result does.
    fn without_result(&self, search: Search) -> Next
        requires { HasDefault (current self.now) search }
        ensures { (seen : Answers) (p : Place) (id : NodeName) → IsHere self.now id p
            → LeadsTo seen p (without_result p.inner p.viewed p.frame (search_of (text_at p) search))
            self.now result self.now }
    {
        let Search {
            decides: _decides,
            matched: _matched,
            default,
            bare_before,
        } = search;
        if let Some(text) = bare_before {
            return Next::Gives(text);
        }
        let out = Out::new(self.alloc);
        match default {
            Some(value) => Next::Expands(Waiting::Part(Use::Operand), value, out),
            None => Next::Gives(out),
        }
    }

    /// What a `#switch` does behind an item without an equals sign, which gives this output.
    pub fn bare_item(
        &self,
        node: NodeId,
        search: Searching,
        next: usize,
        out: Out,
    ) -> Result<Next, Memory>
        requires there { IsSome (node_with (current self.now) node) }
        requires default { HasDefault (current self.now) search }
        ensures { IfOk result (λ does. (seen : Answers) (p : Place) → IsHere self.now node p
            → LeadsTo seen p (switch_output p.inner p.viewed p.frame
            (behind_bare_item (search_of (text_at p) search) (trimmed_output out)) (drop next (parts_at p)))
            self.now does self.now) }
    {
        let mut search = search;
        search.bare(trimmed(self.alloc, out)?);
        Ok(self.switch(node, search, next))
    }

    /// What a `#switch` does behind the name of an item with this value.
    pub fn named_item(
        &self,
        node: NodeId,
        search: Searching,
        next: usize,
        value: ListId,
        name: Out,
    ) -> Result<Next, Memory>
        requires there { IsSome (node_with (current self.now) node) }
        requires default { HasDefault (current self.now) search }
        requires value { IsSome (list_with (current self.now) value) }
        ensures { IfOk result (λ does. (seen : Answers) (p : Place) (items : List Item) → IsHere self.now node p
            → list_with (text_at p) value ≡ Some items
            → LeadsTo seen p (searched p items (drop next (parts_at p))
            (behind_turned (named_item search.decides (trimmed_output name)) (search_of (text_at p) search) items))
            self.now does self.now) }
    {
        let mut search = search;
        let name = trimmed(self.alloc, name)?;
        if search.named(&name, value) {
            let before = Out::new(self.alloc);
            return Ok(Next::Expands(Waiting::Part(Use::Operand), value, before));
        }
        Ok(self.switch(node, search, next))
    }
}

//! The expansion of arguments (MediaWiki's Help:Templates).
ghost use Rattle.std.specs.Prelude.{◌≡◌, ◌<◌, ◌++◌, codes, if◌then◌else◌, length, IfOk, IfSome, IsSome};
ghost use Rattle.wk_text_rules.specs.Blank.{trimmed};
ghost use Rattle.wk_text_rules.specs.Marked.{all_plain, trimmed_output};
ghost use Rattle.wk_view_rules.specs.Expand.{argument_output, argument_value};
ghost use Rattle.wk_view_rules.specs.Frames.{Binding};
ghost use Rattle.wk_view_rules.specs.Worlds.{Seen as Answers};
ghost use Rattle.wk_tree.specs.Parsed.{list_with, node_with};
ghost use Rattle.wk_tree.specs.declared.item.NodeId.{NodeId as NodeName};
ghost use Rattle.wk_expand.specs.Stack.{IsBoundTitle, IsHere, IsValued, LeadsTo, Place, parts_at};
ghost use Rattle.wk_frames.specs.Frames.{IsBinding};
ghost use Rattle.wk_expand.specs.State.{caller_tree, current};

use crate::items::{plain_text, trimmed_text};
use crate::stack::{Next, Use, Waiting};
use crate::state::Expander;
use crate::texts::{argument_error, node_error, plain};
use std::alloc::Global;
use wk_frames::{Bound, made_or, trimmed, trimmed_copy};
use wk_memory::Memory;
use wk_out::Out;
use wk_tree::{ListId, NodeId};

impl Expander {
    /// What an argument does, whose title part gives this name.
    pub fn argument(&mut self, node: NodeId, name: &Out) -> Result<Next, Memory>
        requires { IsSome (node_with (current self.old) node) }
        ensures { IfOk result (λ next. (seen : Answers) (p : Place) → IsHere self.old node p
            → LeadsTo seen p (argument_output p.inner p.viewed p.frame name.now (parts_at p))
            self.old next self.new) }
    {
        let made = trimmed_copy(self.alloc, name)?;
        if let Some(bound) = self.levels.look(made_or(&made, name)) {
            return Ok(self.value(bound)?);
        }
        if self.tree().parts(node) == 0 {
            return Ok(Next::Gives(braced(self.alloc, name)?));
        }
        let before = Out::new(self.alloc);
        Ok(self.whole(node, 0, before, Use::Whole))
    }

    /// What is bound to the name of an argument whose title part is one plain part. Takes no memory.
    pub fn plain_bound(&self, node: NodeId, title: ListId) -> Option<Bound>
        requires node { IsSome (node_with (current self.now) node) }
        requires title { IsSome (list_with (current self.now) title) }
        ensures bound { IfSome result (λ bound. (p : Place) → IsHere self.now node p → IsBoundTitle p title (caller_tree self.now) bound) }
        ensures within { IfSome result (λ bound. 0 < length self.now.levels.included) }
        ensures list { IfSome result (λ bound. IsSome (list_with (caller_tree self.now) bound.value)) }
    {
        if !self.tree().argument(node) {
            return None;
        }
        let name = self.plain_name(title)?;
        self.levels.look_text(name)
    }

    /// The value of an argument is expanded, in the frame of the caller.
    fn value(&mut self, bound: Bound) -> Result<Next, Memory>
        requires within { 0 < length self.old.levels.included }
        requires list { IsSome (list_with (caller_tree self.old) bound.value) }
        ensures { IfOk result (λ next. (seen : Answers) (p : Place) (id : NodeName) (b : Binding)
            → IsHere self.old id p → IsBinding (caller_tree self.old) bound b
            → LeadsTo seen p (argument_value p.inner p.viewed p.frame b) self.old next self.new) }
    {
        let mut out = Out::new(self.alloc);
        match self.push_value(bound, &mut out)? {
            Some(next) => Ok(next),
            None => Ok(Next::Gives(out)),
        }
    }

    /// The value of an argument is added to an output where it is one plain part of the caller's text, and expanded in
    /// the frame of the caller otherwise.
    #[inline(always)]
    pub fn push_value(&mut self, bound: Bound, out: &mut Out) -> Result<Option<Next>, Memory>
        requires within { 0 < length self.old.levels.included }
        requires list { IsSome (list_with (caller_tree self.old) bound.value) }
        ensures { IfOk result (λ next. (seen : Answers) (p : Place) (id : NodeName) (b : Binding)
            → IsHere self.old id p → IsBinding (caller_tree self.old) bound b
            → IsValued seen p (argument_value p.inner p.viewed p.frame b) self.old out.old next self.new out.new) }
    {
        if !self.charge(bound.len as u64 / 64) {
            return Ok(Some(Next::Gives(node_error(self.alloc)?)));
        }
        if let Some(text) = plain_text(self.levels.outer(), bound.value) {
            let text = value_text(bound.named, text);
            if !self.counts.add_argument(text.len()) {
                return Ok(Some(Next::Gives(argument_error(self.alloc)?)));
            }
            out.push_plain(text)?;
            return Ok(None);
        }
        let level = self.levels.leave();
        let before = Out::new(self.alloc);
        let waiting = Waiting::Value(level, bound.named);
        Ok(Some(Next::Expands(waiting, bound.value, before)))
    }
}

/// The text of a value, trimmed where the value is given by its name.
fn value_text(named: bool, text: &str) -> &str
    ensures { result.now ≡ (if named then trimmed text.now else text.now) }
{
    if named { trimmed_text(text) } else { text }
}

/// The output, trimmed where it is the value of an argument that is given by its name.
pub fn trimmed_if(alloc: Global, named: bool, out: Out) -> Result<Out, Memory>
    ensures { IfOk result (λ given. given ≡ (if named then trimmed_output out else out)) }
{
    if named {
        return trimmed(alloc, out);
    }
    Ok(out)
}

/// An argument that isn't bound, as it is written.
fn braced(alloc: Global, name: &Out) -> Result<Out, Memory>
    ensures { IfOk result (λ out. out ≡ all_plain (codes "{{{") ++ name.now ++ all_plain (codes "}}}")) }
{
    let mut out = plain(alloc, "{{{")?;
    out.append(name)?;
    out.push_plain("}}}")?;
    Ok(out)
}

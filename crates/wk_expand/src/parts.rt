//! What a node does with its further parts.
ghost use Rattle.std.specs.Prelude.{◌≡◌, ◌≤◌, drop, slice_get, if◌then◌else◌, IfOk, IsSome, Some};
ghost use Rattle.wk_text_rules.specs.Numerals.{same_output};
ghost use Rattle.wk_tree_rules.specs.Tree.{Part};
ghost use Rattle.wk_view_rules.specs.Expand.{function_output, operand, template_as_written};
ghost use Rattle.wk_view_rules.specs.Expansions.{Expansion, Output};
ghost use Rattle.wk_view_rules.specs.Worlds.{Seen as Answers};
ghost use Rattle.wk_view_rules.specs.declared.Func.TheVariants.{IfEq};
ghost use Rattle.wk_tree.specs.Parsed.{node_with, part_with};
ghost use Rattle.wk_expand.specs.Nodes.{rest_written};
ghost use Rattle.wk_expand.specs.Stack.{IsHere, IsUse, LeadsTo, Place, parts_at, whole_behind};
ghost use Rattle.wk_expand.specs.State.{current};

use crate::stack::{Next, Use, Waiting};
use crate::state::Expander;
use crate::texts::plain;
use wk_frames::trimmed;
use wk_func::equal;
use wk_memory::Memory;
use wk_out::Out;
use wk_tree::NodeId;

impl Expander {
    /// A further part is expanded whole, with its name and its equals sign, behind an output.
    pub fn whole(&self, node: NodeId, at: usize, before: Out, used: Use) -> Next
        requires { IsSome (part_with (current self.now) node at) }
        ensures { (seen : Answers) (p : Place) (part : Part) (f : Output → Expansion Output)
            → IsHere self.now node p → slice_get (parts_at p) at ≡ Some part → IsUse p used f
            → LeadsTo seen p (whole_behind p part before f) self.now result self.now }
    {
        let part = self.tree().part(node, at);
        match part.name {
            Some(name) => Next::Expands(Waiting::Name(part.value, used), name, before),
            None => Next::Expands(Waiting::Part(used), part.value, before),
        }
    }

    /// Operand n of a function, from 2 on: a further part whole and trimmed, or nothing where there is none.
    pub fn operand(&self, node: NodeId, n: usize) -> Next
        requires there { IsSome (node_with (current self.now) node) }
        requires further { 2 ≤ n }
        ensures { (seen : Answers) (p : Place) → IsHere self.now node p
            → LeadsTo seen p (operand p.inner p.viewed p.frame n (parts_at p)) self.now result self.now }
    {
        let at = n - 2;
        if self.tree().parts(node) <= at {
            return Next::Gives(Out::new(self.alloc));
        }
        let before = Out::new(self.alloc);
        self.whole(node, at, before, Use::Operand)
    }

    /// Operand 3 where two operands are equal, else operand 4.
    fn compared(&self, node: NodeId, first: &Out, second: &Out) -> Next
        requires { IsSome (node_with (current self.now) node) }
        ensures { (seen : Answers) (p : Place) → IsHere self.now node p
            → LeadsTo seen p (operand p.inner p.viewed p.frame
            (if same_output first.now second.now then 3 else 4) (parts_at p)) self.now result self.now }
    {
        if equal(first, second) {
            self.operand(node, 3)
        } else {
            self.operand(node, 4)
        }
    }

    /// Operand 3 where operands 1 and 2 are equal, else operand 4 (MediaWiki's Help:Extension:ParserFunctions).
    pub fn equality(&self, node: NodeId, first: Out) -> Next
        requires { IsSome (node_with (current self.now) node) }
        ensures { (seen : Answers) (p : Place) → IsHere self.now node p
            → LeadsTo seen p (function_output p.inner p.viewed p.frame IfEq first (parts_at p))
            self.now result self.now }
    {
        if self.tree().parts(node) == 0 {
            let none = Out::new(self.alloc);
            return self.compared(node, &first, &none);
        }
        let before = Out::new(self.alloc);
        self.whole(node, 0, before, Use::Second(first))
    }

    /// The further parts of a template as they are written, from one on, behind an output.
    fn written_from(&self, node: NodeId, at: usize, so_far: Out) -> Result<Next, Memory>
        requires { IsSome (node_with (current self.now) node) }
        ensures { IfOk result (λ next. (seen : Answers) (p : Place) → IsHere self.now node p
            → LeadsTo seen p (rest_written p.inner p.viewed p.frame so_far (drop at (parts_at p)))
            self.now next self.now) }
    {
        let mut out = so_far;
        if self.tree().parts(node) <= at {
            out.push_plain("}}")?;
            return Ok(Next::Gives(out));
        }
        out.push_plain("|")?;
        Ok(self.whole(node, at, out, Use::Written(at + 1)))
    }

    /// A template as it is written, behind the name that its title part gives.
    pub fn written(&self, node: NodeId, name: &Out) -> Result<Next, Memory>
        requires { IsSome (node_with (current self.now) node) }
        ensures { IfOk result (λ next. (seen : Answers) (p : Place) → IsHere self.now node p
            → LeadsTo seen p (template_as_written p.inner p.viewed p.frame name.now (parts_at p))
            self.now next self.now) }
    {
        let mut out = plain(self.alloc, "{{")?;
        out.append(name)?;
        Ok(self.written_from(node, 0, out)?)
    }

    /// What is done with a further part that was expanded whole.
    pub fn used(&self, node: NodeId, used: Use, out: Out) -> Result<Next, Memory>
        requires { IsSome (node_with (current self.now) node) }
        ensures { IfOk result (λ next. (seen : Answers) (p : Place) (f : Output → Expansion Output)
            → IsHere self.now node p → IsUse p used f → LeadsTo seen p (f out) self.now next self.now) }
    {
        match used {
            Use::Whole => Ok(Next::Gives(out)),
            Use::Operand => Ok(Next::Gives(trimmed(self.alloc, out)?)),
            Use::Second(first) => {
                let second = trimmed(self.alloc, out)?;
                Ok(self.compared(node, &first, &second))
            }
            Use::Written(next) => Ok(self.written_from(node, next, out)?),
        }
    }
}

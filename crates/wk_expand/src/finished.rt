//! What an open node does with the output that it waited for.
ghost use Rattle.std.specs.Prelude.{IfOk};
ghost use Rattle.wk_view_rules.specs.Worlds.{Seen as Answers};
ghost use Rattle.wk_expand.specs.Stack.{LeadsTo, Waits};

use crate::argument::trimmed_if;
use crate::stack::{Binder, Next, Pending, Waiting};
use crate::state::Expander;
use wk_frames::bind_name;
use wk_memory::Memory;
use wk_out::Out;
use wk_tree::NodeId;

impl Expander {
    /// What a node does with the output that it waited for.
    #[inline(always)]
    pub fn finished(&mut self, node: NodeId, waiting: Waiting, out: Out) -> Result<Next, Memory>
        requires { Waits self.old node waiting }
        ensures { IfOk result (λ next. (seen : Answers) (w : Waits self.old node waiting)
            → LeadsTo seen w.place (w.step out) self.old next self.new) }
    {
        match waiting {
            Waiting::Title => Ok(Next::Goes(Pending::Named(out))),
            Waiting::Value(level, named) => {
                self.levels.enter(level)?;
                let out = trimmed_if(self.alloc, named, out)?;
                Ok(Next::Gives(self.within_argument_limit(out)?))
            }
            Waiting::Name(value, used) => {
                let mut out = out;
                out.push_plain("=")?;
                Ok(Next::Expands(Waiting::Part(used), value, out))
            }
            Waiting::Part(used) => Ok(self.used(node, used, out)?),
            Waiting::Binding(page, binder, bound) => {
                let Binder { args, numbered, at } = binder;
                let mut args = args;
                bind_name(self.alloc, &mut args, out, bound)?;
                let binder = Binder { args, numbered, at };
                Ok(Next::Goes(Pending::Binds(page, binder)))
            }
            Waiting::Included(title) => {
                let _level = self.levels.leave();
                Ok(Next::Gives(self.within_inclusion_limit(&title, out)?))
            }
            Waiting::Bare(search, next) => Ok(self.bare_item(node, search, next, out)?),
            Waiting::Named(search, next, value) => {
                Ok(self.named_item(node, search, next, value, out)?)
            }
        }
    }
}

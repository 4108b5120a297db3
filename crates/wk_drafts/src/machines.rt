//! Drafts of pages and of given texts are made step by step.
use crate::drafting::{Drafting, Run};
use wk_expand::{Draft, Machine, Ran, Seen, Trees};
use wk_memory::Memory;

impl Drafting for Machine {
    ghost use Rattle.std.specs.Prelude.{◌≡◌};
    ghost use Rattle.wk_expand.specs.Runs.{IsNeeded};

    type Kept = Trees;

    type Made = Draft;

    ghost reads = { λ m. m.reads };

    ghost goes_on = { λ first m. (m.page ≡ first.page) × (m.given ≡ first.given) };

    ghost needs = { λ first seen title kind. IsNeeded seen first.page first.given title kind };

    ghost makes = { λ first made. (made.page ≡ first.page) × (made.given ≡ first.given) };

    ghost reads_of = { λ made. made.reads };

    // A machine is large, and is moved once less where this is no call.
    #[inline(always)]
    fn run(self, seen: &Seen, kept: &mut Trees) -> Result<Run<Machine, Draft>, Memory> {
        match Machine::run(self, seen, kept) {
            Ok(Ran::Done(draft)) => Ok(Run::Done(draft)),
            Ok(Ran::Needs(title, kind, next)) => Ok(Run::Needs(title, kind, next)),
            Err((_machine, memory)) => Err(memory),
        }
    }
}

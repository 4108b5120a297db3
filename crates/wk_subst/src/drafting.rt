//! What a text becomes is made step by step.
use crate::machine::{SubstMachine, SubstRan};
use crate::substituted::Substituted;
use crate::texts::Texts;
use wk_drafts::{Drafting, Run};
use wk_expand::{Kind, Seen};
use wk_memory::Memory;

impl Drafting for SubstMachine {
    ghost use Rattle.std.specs.Prelude.{◌≡◌};
    ghost use Rattle.wk_view_rules.specs.declared.Kind.TheVariants.{Include};
    ghost use Rattle.wk_subst.specs.Machines.{IsNeeded};

    type Kept = Texts;

    type Made = Substituted;

    ghost reads = { λ m. m.reads };

    ghost goes_on = { λ first m. m.saved ≡ first.saved };

    ghost needs = { λ first seen title kind. IsNeeded first.saved seen title × (kind ≡ Include) };

    ghost makes = { λ first made. made.saved ≡ first.saved };

    ghost reads_of = { λ made. made.reads };

    fn run(self, seen: &Seen, kept: &mut Texts) -> Result<Run<SubstMachine, Substituted>, Memory> {
        match SubstMachine::run(self, seen, kept) {
            Ok(SubstRan::Done(made)) => Ok(Run::Done(made)),
            Ok(SubstRan::Needs(title, next)) => Ok(Run::Needs(title, Kind::Include, next)),
            Err((_machine, memory)) => Err(memory),
        }
    }
}

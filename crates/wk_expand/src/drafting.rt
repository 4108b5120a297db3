//! Drafts, by the answers that were seen so far.
ghost use Rattle.std.specs.Prelude.{IfOk};
ghost use Rattle.wk_expand.specs.Steps.{IsStep, IsUnseen};

use crate::drafts::{Root, Step};
use crate::machine::{Machine, Ran};
use crate::seen::Seen;
use crate::trees::Trees;
use std::alloc::Global;
use wk_memory::Memory;
use wk_title::Title;

/// Drafts a page, or a given text in the place of its own (MediaWiki's Help:Templates): what it expands to in each world
/// that answers as `seen` does.
///
/// Done with the draft where all that is asked was seen. Else the first pair of a title and a kind that wasn't; it isn't
/// in `seen`. `trees` keeps parsed texts from one draft to the next. Nothing is waited for.
pub fn draft(
    alloc: Global,
    page: &Title,
    root: &Root,
    seen: &Seen,
    trees: &mut Trees,
) -> Result<Step, Memory>
    ensures step { IfOk result (IsStep page.now root.now seen.now) }
    ensures unseen { IfOk result (IsUnseen seen.now) }
{
    let machine = Machine::new(alloc, page, root)?;
    match machine.run(seen, trees) {
        Ok(Ran::Done(draft)) => Ok(Step::Done(draft)),
        Ok(Ran::Needs(title, kind, _machine)) => Ok(Step::Needs(title, kind)),
        Err((_machine, memory)) => Err(memory),
    }
}

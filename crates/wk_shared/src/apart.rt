//! Drafts that are made without the turn: each answer is fetched under a turn of its own.
ghost use Rattle.std.specs.Prelude.{IfOk};
ghost use Rattle.wk_expand.specs.Steps.{given_text};
ghost use Rattle.wk_shared.specs.Calls.{IsFree};
ghost use Rattle.wk_shared.specs.Apart.{IsDraftSince};
ghost use Rattle.wk_shared.specs.Looks.{HasRead, KeepsTickets};

use crate::{Pass, Shared};
use std::alloc::Global;
use std::sync::Wait;
use wk_base::Gate;
use wk_core::{Draft, Keeper, Wiki};
use wk_drafts::{Ended, drafted_by};
use wk_expand::{Machine, Root, Seen, Trees};
use wk_memory::Memory;
use wk_title::Title;

/// Drafts a page, or a given text in the place of its own, without the turn (MediaWiki's Help:Templates): each answer is
/// that of the world at some point from the one on that the pass had seen. The gate is passed between two reads. `trees`
/// keeps parsed texts. It makes no entry, and each ticket that the pass held it holds still. It waits.
pub fn draft_apart<K: Keeper, R: Wait, G: Gate>(
    shared: &Shared<K>,
    rt: &R,
    alloc: Global,
    pass: &mut Pass<Wiki<K>>,
    trees: &mut Trees,
    title: &Title,
    root: &Root,
    gate: &mut G,
) -> Result<Draft, Memory>
    requires { IsFree shared.now pass.old }
    ensures pass { HasRead shared.now pass.old pass.new }
    ensures tickets { KeepsTickets shared.now.start pass.old pass.new }
    ensures draft { IfOk result (IsDraftSince shared.now.start pass.old pass.new title.now (given_text root.now)) }
{
    let machine = Machine::new(alloc, title, root)?;
    let mut seen = Seen::new(alloc);
    match drafted_by(rt, shared, pass, gate, machine, &mut seen, trees) {
        Ok(Ended::Made(draft)) => Ok(draft),
        Ok(Ended::Unknown(..)) => unreachable!("a shared wiki answers all that is asked"),
        Err(memory) => Err(memory),
    }
}

//! Texts that are transformed before a save without the turn: each answer is fetched under a turn of its own.
ghost use Rattle.std.specs.Prelude.{◌≡◌, IfOk, length};
ghost use Rattle.wk_shared.specs.Calls.{IsFree};
ghost use Rattle.wk_read_laws.specs.Points.{AreReadSince};
ghost use Rattle.wk_shared.specs.Looks.{HasRead, KeepsTickets};

use crate::{Pass, Shared};
use std::alloc::Global;
use std::sync::Wait;
use wk_base::Gate;
use wk_bytes::Text;
use wk_core::{Keeper, Wiki};
use wk_drafts::{Ended, drafted_by};
use wk_expand::Seen;
use wk_memory::Memory;
use wk_subst::{SubstMachine, Substituted, Texts};

/// Transforms a text before it is saved, without the turn (MediaWiki's Help:Substitution): each answer is that of the world at
/// some point from the one on that the pass had seen. By its type what is made is what the text becomes wherever its reads are
/// answered so. The gate is passed between two reads. It makes no entry, and each ticket that the pass held it holds still.
/// `Memory` may come. It waits.
pub fn substituted_apart<K: Keeper, R: Wait, G: Gate>(
    shared: &Shared<K>,
    rt: &R,
    alloc: Global,
    pass: &mut Pass<Wiki<K>>,
    text: &Text,
    gate: &mut G,
) -> Result<Substituted, Memory>
    requires { IsFree shared.now pass.old }
    ensures pass { HasRead shared.now pass.old pass.new }
    ensures tickets { KeepsTickets shared.now.start pass.old pass.new }
    ensures saved { IfOk result (λ made. made.saved ≡ text.now) }
    ensures since { IfOk result (λ made. AreReadSince shared.now.start pass.new.seen (length pass.old.seen) made.reads) }
{
    let machine = SubstMachine::new(alloc, text)?;
    let mut seen = Seen::new(alloc);
    let mut texts = Texts::new(alloc);
    match drafted_by(rt, shared, pass, gate, machine, &mut seen, &mut texts) {
        Ok(Ended::Made(made)) => Ok(made),
        Ok(Ended::Unknown(..)) => unreachable!("a shared wiki answers all that is asked"),
        Err(memory) => Err(memory),
    }
}

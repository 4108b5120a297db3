//! Drafts that are made without the turn: each answer is fetched under a turn of its own.
ghost use Rattle.std.specs.Prelude.{IfOk};
ghost use Rattle.wk_expand.specs.Answers.{answer_of};
ghost use Rattle.wk_expand.specs.Steps.{given_text};
ghost use Rattle.wk_replica_reads.specs.Looks.{HasRead, IsDraftSince, IsFetched, IsFree};

use crate::desk::{give, take};
use crate::replicas::fetched;
use std::alloc::Global;
use std::sync::Wait;
use wk_base::Gate;
use wk_core::{Answer, Draft, Kind};
use wk_drafts::{Answering, Ended, drafted_by};
use wk_expand::{Machine, Root, Seen, Trees};
use wk_memory::Memory;
use wk_replica::Replica;
use wk_title::Title;
use wk_turn::{Pass, Turn};

/// What the world of the replica answers now where the title is asked in this way. It waits.
fn fetch<R: Wait>(
    rt: &R,
    shared: &Turn<Replica>,
    pass: &mut Pass<Replica>,
    title: &Title,
    kind: Kind,
) -> Result<Answer, Memory>
    requires { IsFree shared.now pass.old }
    ensures pass { HasRead shared.now pass.old pass.new }
    ensures answered { IfOk result (λ answer. IsFetched shared.now.start.wiki pass.new.seen title.now kind (answer_of answer)) }
{
    let held = take(rt, shared, pass);
    let answer = fetched(&held.value, title, kind);
    give(shared, pass, held);
    answer
}

/// A shared replica, which answers what a draft asks.
#[derive(Clone, Copy)]
pub struct Fetches<'x> {
    shared: &'x Turn<Replica>,
}

impl<'x, R: Wait> Answering<R> for Fetches<'x> {
    ghost use Rattle.wk_replica_reads.specs.Looks.{AreAnsweredSince, HasRead, IsFree};

    /// What the caller knows of the replica.
    type Pass = Pass<Replica>;

    ghost ready = { λ source pass. IsFree source.shared.now pass };

    ghost leaves = { λ source begun pass. HasRead source.shared.now begun pass };

    ghost answers = { λ source begun pass seen. AreAnsweredSince source.shared.now begun pass seen };

    ghost lacks = { λ source title kind. ⊥ };

    /// Keeps what the world answers at the point that the pass has seen then. It waits.
    fn ask(
        &self,
        rt: &R,
        pass: &mut Pass<Replica>,
        seen: &mut Seen,
        title: &Title,
        kind: Kind,
    ) -> Result<bool, Memory> {
        let answer = fetch(rt, self.shared, pass, title, kind)?;
        seen.add(title.share()?, kind, answer)?;
        Ok(true)
    }
}

/// Drafts a page, or a given text in the place of its own, without the turn (MediaWiki's Help:Templates): each answer is that
/// of the world at some point from the one on that the pass had seen. The gate is passed between two reads. `trees` keeps parsed
/// texts. It waits.
pub fn draft_apart<R: Wait, G: Gate>(
    rt: &R,
    shared: &Turn<Replica>,
    alloc: Global,
    pass: &mut Pass<Replica>,
    trees: &mut Trees,
    title: &Title,
    root: &Root,
    gate: &mut G,
) -> Result<Draft, Memory>
    requires { IsFree shared.now pass.old }
    ensures pass { HasRead shared.now pass.old pass.new }
    ensures draft { IfOk result (IsDraftSince shared.now pass.old pass.new title.now (given_text root.now)) }
{
    let source = Fetches { shared };
    let machine = Machine::new(alloc, title, root)?;
    let mut seen = Seen::new(alloc);
    match drafted_by(rt, &source, pass, gate, machine, &mut seen, trees) {
        Ok(Ended::Made(draft)) => Ok(draft),
        Ok(Ended::Unknown(..)) => unreachable!("a shared replica answers all that is asked"),
        Err(memory) => Err(memory),
    }
}

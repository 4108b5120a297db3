//! What is made of the answers of what answers.
ghost use Rattle.std.specs.Prelude.{IfOk};
ghost use Rattle.wk_view_rules.specs.Worlds.{Agrees, of_seen};
ghost use Rattle.wk_drafts.specs.Ends.{IsEnded};

use crate::answering::Answering;
use crate::drafting::{Drafting, Run};
use wk_base::Gate;
use wk_expand::{Kind, Seen, longer_seens_agree};
use wk_memory::Memory;
use wk_title::Title;

/// How often it runs at most: once for each pair that an expansion reads, and once more.
const MOST_RUNS: u64 = 1_000_002;

/// What it comes to.
#[derive(Drop)]
pub enum Ended<D> {
    /// All that was asked was answered.
    Made(D),
    /// This title isn't answered with this kind.
    Unknown(Title, Kind),
}

/// Makes it, one run after the other: what a run needs is asked and kept behind the answers that there are (MediaWiki's
/// Help:Templates, Help:Substitution). The gate is passed between two questions. `kept` is what is kept from one run to the
/// next.
///
/// Made with what it comes to. Unknown with the first pair that it needs and that isn't answered. `Memory` may come. It waits
/// where the questions do.
pub fn drafted_by<R, S: Answering<R>, M: Drafting, G: Gate>(
    rt: &R,
    source: &S,
    pass: &mut S::Pass,
    gate: &mut G,
    machine: M,
    seen: &mut Seen,
    kept: &mut M::Kept,
) -> Result<Ended<M::Made>, Memory>
    requires ready { S.ready source.now pass.old }
    requires leaves { S.leaves source.now pass.old pass.old }
    requires answers { S.answers source.now pass.old pass.old seen.old }
    requires begun { M.goes_on machine machine }
    requires read { Agrees (of_seen seen.old) (M.reads machine) }
    ensures ready { S.ready source.now pass.new }
    ensures leaves { S.leaves source.now pass.old pass.new }
    ensures made { IfOk result (IsEnded
        (λ made. M.makes machine made × S.answers source.now pass.old pass.new seen.new × Agrees (of_seen seen.new) (M.reads_of made))
        (λ title kind. S.lacks source.now title kind)) }
    ensures needed { IfOk result (IsEnded
        (λ made. Unit {0})
        (λ title kind. M.needs machine seen.new title kind × S.answers source.now pass.old pass.new seen.new)) }
{
    longer_seens_agree();
    let mut machine = machine;
    'runs: for run in 0..MOST_RUNS {
        match machine.run(seen, kept)? {
            Run::Done(made) => return Ok(Ended::Made(made)),
            Run::Needs(title, kind, next) => {
                if run > 0 {
                    gate.pass();
                }
                if !source.ask(rt, pass, seen, &title, kind)? {
                    return Ok(Ended::Unknown(title, kind));
                }
                machine = next;
            }
        }
    }
    Err(Memory)
}

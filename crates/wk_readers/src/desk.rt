//! Taking the wiki for a step, and giving it back.
ghost use Rattle.std.specs.Prelude.{◌≡◌, Some};
ghost use Rattle.wk_turn.specs.Told.{IsOf};
ghost use Rattle.wk_shared.specs.Calls.{IsFree};
ghost use Rattle.wk_shared.specs.Desk.{IsGiven, IsTaken, MakesAtMostOne, TellsOf};

use std::sync::Wait;
use wk_core::{Keeper, Wiki};
use wk_shared::{Held, Pass, Shared};

/// Waits for the turn and takes the wiki. No memory.
pub fn take<K: Keeper, R: Wait>(
    shared: &Shared<K>,
    rt: &R,
    pass: &mut Pass<Wiki<K>>,
) -> Held<Wiki<K>>
    requires { IsFree shared.now pass.old }
    ensures taken { IsTaken shared.now pass.old pass.new result.value }
    ensures before { result.before.value ≡ result.value }
    ensures keeper { TellsOf K.is_whole K.faults result.value.start result.value.keeper }
{
    let held = shared.enter(rt, pass);
    held.value.facts();
    held
}

/// Gives the wiki back with at most one event more, and tells the point. No memory.
pub fn give<K: Keeper>(shared: &Shared<K>, pass: &mut Pass<Wiki<K>>, held: Held<Wiki<K>>) -> u64
    requires turn { IsOf shared.now pass.old }
    requires entered { pass.old.held ≡ Some held.before.value.journal }
    requires start { held.before.value.start ≡ shared.now.start }
    requires made { MakesAtMostOne pass.old.own held.before.value held.value }
    ensures { IsGiven pass.old pass.new held.before.value held.value result }
{
    held.value.facts();
    shared.leave(pass, held);
    pass.point()
}

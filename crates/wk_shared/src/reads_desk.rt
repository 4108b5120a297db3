//! Taking the wiki to look at it, and giving it back.
ghost use Rattle.std.specs.Prelude.{◌≡◌, None, Some};
ghost use Rattle.wk_turn.specs.Told.{IsOf};
ghost use Rattle.wk_shared.specs.Calls.{IsFree};
ghost use Rattle.wk_shared.specs.Looks.{IsTakenToLook};

use crate::{Held, Pass, Shared};
use std::sync::Wait;
use wk_core::{Keeper, Wiki};

/// Waits for the turn and takes the wiki, to look at it. No memory.
pub fn take<K: Keeper, R: Wait>(
    shared: &Shared<K>,
    rt: &R,
    pass: &mut Pass<Wiki<K>>,
) -> Held<Wiki<K>>
    requires { IsFree shared.now pass.old }
    ensures taken { IsTakenToLook shared.now pass.old pass.new result.value }
    ensures before { result.before.value ≡ result.value }
{
    let held = shared.enter(rt, pass);
    held.value.facts();
    held
}

/// Gives back a wiki that was only looked at. No memory.
pub fn give<K: Keeper>(shared: &Shared<K>, pass: &mut Pass<Wiki<K>>, held: Held<Wiki<K>>)
    requires turn { IsOf shared.now pass.old }
    requires entered { pass.old.held ≡ Some held.value.journal }
    requires start { held.value.start ≡ shared.now.start }
    requires same { held.before.value ≡ held.value }
    ensures { pass.new ≡ record pass.old { seen = held.value.journal; held = None } }
{
    shared.leave(pass, held);
}

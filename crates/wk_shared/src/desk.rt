//! Taking the wiki for a call, and giving it back.
ghost use Rattle.std.specs.Prelude.{◌≡◌, Some};
ghost use Rattle.wk_turn.specs.Told.{IsOf};
ghost use Rattle.wk_shared.specs.Calls.{IsFree};
ghost use Rattle.wk_shared.specs.Desk.{IsGiven, IsTaken, MakesAtMostOne, TellsOf};

use crate::shared::Shared;
use std::sync::Wait;
use wk_core::{Keeper, Wiki};
use wk_turn::{Held, Pass};

impl<K: Keeper> Shared<K> {
    /// Waits for the turn and takes the wiki. No memory.
    pub(crate) fn take_wiki<R: Wait>(&self, rt: &R, pass: &mut Pass<Wiki<K>>) -> Held<Wiki<K>>
        requires { IsFree self.now pass.old }
        ensures taken { IsTaken self.now pass.old pass.new result.value }
        ensures before { result.before.value ≡ result.value }
        ensures keeper { TellsOf K.is_whole K.faults result.value.start result.value.keeper }
    {
        let held = self.turn.enter(rt, pass);
        held.value.facts();
        held
    }

    /// Gives the wiki back with at most one event more, and tells the point. No memory.
    pub(crate) fn give_wiki(&self, pass: &mut Pass<Wiki<K>>, held: Held<Wiki<K>>) -> u64
        requires turn { IsOf self.now pass.old }
        requires entered { pass.old.held ≡ Some held.before.value.journal }
        requires start { held.before.value.start ≡ self.now.start }
        requires made { MakesAtMostOne pass.old.own held.before.value held.value }
        ensures { IsGiven pass.old pass.new held.before.value held.value result }
    {
        held.value.facts();
        self.turn.leave(pass, held);
        pass.point()
    }
}

//! Taking the wiki for what is asked, and giving it back.
ghost use Rattle.std.specs.Prelude.{◌≡◌, Some};
ghost use Rattle.wk_turn.specs.Told.{IsOf};
ghost use Rattle.wk_shared.specs.Calls.{HasSeen, IsFree};
ghost use Rattle.wk_shared.specs.Desk.{IsGiven, IsTaken, MakesAtMostOne, TellsOf};

use std::alloc::Global;
use std::sync::Wait;
use wk_core::{Keeper, Wiki};
use wk_readers::Reader;
use wk_shared::{Held, Shared};

/// Waits for the turn and takes the wiki. No memory.
pub fn take<K: Keeper, R: Wait>(shared: &Shared<K>, rt: &R, reader: &mut Reader<K>) -> Held<Wiki<K>>
    requires { IsFree shared.now reader.old.pass }
    ensures taken { IsTaken shared.now reader.old.pass reader.new.pass result.value }
    ensures keeper { TellsOf K.is_whole K.faults result.value.start result.value.keeper }
    ensures before { result.before.value ≡ result.value }
{
    let held = reader.enter(shared, rt);
    held.value.facts();
    held
}

/// Gives the wiki back with at most one event more, and tells the point. No memory.
pub fn give<K: Keeper>(shared: &Shared<K>, reader: &mut Reader<K>, held: Held<Wiki<K>>) -> u64
    requires turn { IsOf shared.now reader.old.pass }
    requires entered { reader.old.pass.held ≡ Some held.before.value.journal }
    requires start { held.before.value.start ≡ shared.now.start }
    requires made { MakesAtMostOne reader.old.pass.own held.before.value held.value }
    ensures { IsGiven reader.old.pass reader.new.pass held.before.value held.value result }
{
    held.value.facts();
    reader.leave(shared, held);
    reader.point()
}

/// Looks how far the journal has come: the allocator of the wiki, and the point. It waits. No memory.
pub fn look<K: Keeper, R: Wait>(shared: &Shared<K>, rt: &R, reader: &mut Reader<K>) -> (Global, u64)
    requires { IsFree shared.now reader.old.pass }
    ensures pass { HasSeen shared.now reader.old.pass reader.new.pass result.1 }
    ensures own { reader.new.pass.own ≡ reader.old.pass.own }
{
    let held = take(shared, rt, reader);
    let alloc = held.value.allocator();
    let point = give(shared, reader, held);
    (alloc, point)
}

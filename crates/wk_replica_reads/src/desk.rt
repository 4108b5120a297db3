//! Taking a shared replica, and giving it back.
ghost use Rattle.std.specs.Prelude.{◌≡◌, length, None, Some};
ghost use Rattle.wk_turn.specs.Told.{IsOf};
ghost use Rattle.wk_replica_reads.specs.Looks.{HasRead, IsFree, IsHeld};

use std::alloc::Global;
use std::sync::Wait;
use wk_replica::Replica;
use wk_turn::{Held, Pass, Turn};

/// Waits for the turn and takes the replica. No memory.
pub fn take<R: Wait>(rt: &R, shared: &Turn<Replica>, pass: &mut Pass<Replica>) -> Held<Replica>
    requires { IsFree shared.now pass.old }
    ensures taken { IsHeld shared.now pass.old pass.new result.value }
    ensures before { result.before.value ≡ result.value }
{
    shared.enter(rt, pass)
}

/// Gives back a replica that was only looked at. No memory.
pub fn give(shared: &Turn<Replica>, pass: &mut Pass<Replica>, held: Held<Replica>)
    requires turn { IsOf shared.now pass.old }
    requires entered { pass.old.held ≡ Some held.value.journal }
    requires start { held.value.start ≡ shared.now.start }
    requires same { held.before.value ≡ held.value }
    ensures { pass.new ≡ record pass.old { seen = held.value.journal; held = None } }
{
    shared.leave(pass, held);
}

/// Looks how far the journal has come: the allocator of the replica, and the point. It waits. No memory.
pub fn look<R: Wait>(rt: &R, shared: &Turn<Replica>, pass: &mut Pass<Replica>) -> (Global, u64)
    requires { IsFree shared.now pass.old }
    ensures pass { HasRead shared.now pass.old pass.new }
    ensures point { result.1 ≡ length pass.new.seen }
{
    let held = take(rt, shared, pass);
    let alloc = held.value.allocator();
    let point = held.value.taken();
    give(shared, pass, held);
    (alloc, point)
}

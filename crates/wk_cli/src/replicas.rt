//! The command `replica`.
ghost use Rattle.std.specs.Prelude.{◌≡◌, ◌≤◌, ℕ, List, [], None, Option};
ghost use Rattle.wk_base.specs.Faults.{Rose};
ghost use Rattle.wk_cli.specs.Followed.{IsFollowedBy};
ghost use Rattle.wk_cli.specs.Statuses.{bad_of_replica, status_of_replica};

use crate::ends::Finish;
use std::alloc::Global;
use std::sync::Wait;
use std::thread::Threads;
use wk_base::{Sink, Source};
use wk_commands::{Following, ReplicaEnd, follow_feed};
use wk_core::BadStore;
use wk_door::Door;

/// The status with which a replica ends.
fn status_of_replica(end: ReplicaEnd) -> u8
    ensures { result ≡ status_of_replica end }
{
    match end {
        ReplicaEnd::Done => 0,
        ReplicaEnd::Memory => 1,
        ReplicaEnd::ReadFault => 3,
        ReplicaEnd::WriteFault => 4,
        ReplicaEnd::DoorFault => 6,
        ReplicaEnd::Bound => 9,
        ReplicaEnd::BadFeed(_) => 11,
    }
}

/// The bad line of the feed, as a row of the rule behind those of a store, where that is the end.
fn bad_of_replica(end: ReplicaEnd) -> Option<BadStore>
    ensures { result ≡ bad_of_replica end }
{
    match end {
        ReplicaEnd::BadFeed(number) => Some(BadStore {
            rule: 8,
            row: number,
        }),
        ReplicaEnd::Done
        | ReplicaEnd::Memory
        | ReplicaEnd::ReadFault
        | ReplicaEnd::WriteFault
        | ReplicaEnd::DoorFault
        | ReplicaEnd::Bound => None,
    }
}

/// The end of a replica, for which no store was opened.
fn ended<S>(alloc: Global, end: ReplicaEnd) -> Finish<S>
    ensures status { result.status ≡ status_of_replica end }
    ensures points { result.points.items ≡ [] }
    ensures bad { result.bad ≡ bad_of_replica end }
    ensures store { result.store ≡ None }
{
    Finish {
        status: status_of_replica(end),
        points: Vec::new(alloc),
        bad: bad_of_replica(end),
        store: None,
    }
}

/// Follows the feed that the input gives, and serves the connections that come in by the door from a replica ([`follow_feed`]). No
/// store is opened. It waits.
pub(crate) fn replica<S, I: Source, O: Sink, D: Door + Send, R: Threads + Wait + Sync>(
    rt: &R,
    alloc: Global,
    asked: Following<'_>,
    input: &mut I,
    output: &mut O,
    door: &mut D,
) -> Finish<S>
where
    D::Link: Send,
    ensures followed { (moments : Option (List ℕ)) → IsFollowedBy asked.entry.address.now asked.entry.most
        (record { told = D.told door.old; faults = D.faults door.old }) (record { told = D.told door.new; faults = D.faults door.new })
        (record { rest = I.rest input.old; moments = moments; taken = O.taken output.old })
        (record { rest = I.rest input.new; moments = moments; taken = O.taken output.new }) result }
    ensures reads_never_fall { I.faults input.old ≤ I.faults input.new }
    ensures no_read_fault { result.status ≡ 0 → I.faults input.new ≡ I.faults input.old }
    ensures read_fault { result.status ≡ 3 → Rose (I.faults input.old) (I.faults input.new) }
    ensures writes_never_fall { O.faults output.old ≤ O.faults output.new }
    ensures no_write_fault { result.status ≡ 0 → O.faults output.new ≡ O.faults output.old }
    ensures write_fault { result.status ≡ 4 → Rose (O.faults output.old) (O.faults output.new) }
    ensures doors_never_fall { D.faults door.old ≤ D.faults door.new }
    ensures no_door_fault { result.status ≡ 0 → D.faults door.new ≡ D.faults door.old }
    ensures door_fault { result.status ≡ 6 → Rose (D.faults door.old) (D.faults door.new) }
{
    ended(alloc, follow_feed(rt, alloc, asked, input, door, output))
}

//! The command `serve`.
ghost use Rattle.std.specs.Prelude.{◌≡◌, ◌≤◌, ℕ, List, Option};
ghost use Rattle.wk_base.specs.Faults.{Rose};
ghost use Rattle.wk_page_rules.specs.Verdict.{max_journal};
ghost use Rattle.wk_cli.specs.Works.{IsServedAt};

use crate::ends::{Finish, unopened};
use crate::works::ended;
use std::alloc::Global;
use std::sync::Wait;
use std::thread::Threads;
use wk_base::{Clock, Gate, Sink};
use wk_commands::{Serving, serve_over};
use wk_door::Door;
use wk_keeper::{OpenRefusal, Vault};

/// Opens the store of a name and serves the connections that come in by the door over its wiki, whose journal takes at most so
/// many events ([`serve_over`]), with its feed where that is asked. It waits.
pub(crate) fn serve<
    V: Vault,
    G: Gate + Copy + Send,
    D: Door + Send,
    C: Clock + Send,
    O: Sink + Send,
    R: Threads + Wait + Sync,
>(
    rt: &R,
    alloc: Global,
    vault: &mut V,
    name: &str,
    journal: u64,
    asked: Serving<'_>,
    gate: G,
    door: &mut D,
    clock: &mut C,
    output: &mut O,
) -> Finish<V::Store>
where
    V::Store: Send,
    D::Link: Send,
    requires journal { journal ≤ max_journal }
    ensures served { (rest : Option (List ℕ)) → IsServedAt V.Store.told V.Store.faults V.Store.is_whole asked.entry.feed asked.entry.address.now asked.entry.most journal
        (record { tables = V.told vault.old name.now; whole = V.opens_whole vault.old name.now }) (V.faults vault.old) (V.faults vault.new)
        (record { told = D.told door.old; faults = D.faults door.old }) (record { told = D.told door.new; faults = D.faults door.new })
        (record { rest = rest; moments = C.left clock.old; taken = O.taken output.old })
        (record { rest = rest; moments = C.left clock.new; taken = O.taken output.new }) result }
    ensures writes_never_fall { O.faults output.old ≤ O.faults output.new }
    ensures no_write_fault { result.status ≡ 0 → O.faults output.new ≡ O.faults output.old }
    ensures write_fault { result.status ≡ 4 → Rose (O.faults output.old) (O.faults output.new) }
    ensures opens_never_fall { V.faults vault.old ≤ V.faults vault.new }
    ensures doors_never_fall { D.faults door.old ≤ D.faults door.new }
    ensures no_door_fault { result.status ≡ 0 → D.faults door.new ≡ D.faults door.old }
    ensures door_fault { result.status ≡ 6 → Rose (D.faults door.old) (D.faults door.new) }
{
    match vault.open(name) {
        Ok(store) => ended(
            alloc,
            serve_over(rt, alloc, store, journal, asked, gate, door, clock, output),
        ),
        Err(OpenRefusal::Failed) => unopened(alloc, 5),
        Err(OpenRefusal::Memory) => unopened(alloc, 1),
    }
}

//! The commands `check`, `jobs` and `gen`.
ghost use Rattle.std.specs.Prelude.{◌≡◌, ◌≤◌, ℕ, List, [], Option, None, Some};
ghost use Rattle.wk_base.specs.Faults.{Rose};
ghost use Rattle.wk_page_rules.specs.Verdict.{max_journal};
ghost use Rattle.wk_cli.specs.Statuses.{bad_of_work, status_of_command, status_of_work};
ghost use Rattle.wk_cli.specs.Works.{IsWorkedAt};

use crate::ends::{Finish, bad_of_cause, status_of_cause, unopened};
use std::alloc::Global;
use std::sync::Wait;
use std::thread::Threads;
use wk_base::{Clock, Gate, Sink};
use wk_commands::{CommandEnd, Hands, Work, Worked, work_over};
use wk_core::{BadStore, LoadCause};
use wk_keeper::{OpenRefusal, Vault};

/// The status with which a command over a wiki ends.
fn status_of_command(end: CommandEnd) -> u8
    ensures { result ≡ status_of_command end }
{
    match end {
        CommandEnd::Done => 0,
        CommandEnd::Memory => 1,
        CommandEnd::WriteFault => 4,
        CommandEnd::StoreFault => 5,
        CommandEnd::DoorFault => 6,
        CommandEnd::Differs => 8,
        CommandEnd::Full => 10,
    }
}

/// The status with which a command over a store ends.
fn status_of_work(end: Result<CommandEnd, LoadCause>) -> u8
    ensures { result ≡ status_of_work end }
{
    match end {
        Ok(end) => status_of_command(end),
        Err(cause) => status_of_cause(cause),
    }
}

/// The bad row, where that is the end.
fn bad_of_work(end: Result<CommandEnd, LoadCause>) -> Option<BadStore>
    ensures { result ≡ bad_of_work end }
{
    match end {
        Ok(_) => None,
        Err(cause) => bad_of_cause(cause),
    }
}

/// The end of a command over a store.
pub(crate) fn ended<K>(alloc: Global, worked: Worked<K>) -> Finish<K>
    ensures status { result.status ≡ status_of_work worked.end }
    ensures points { result.points.items ≡ [] }
    ensures bad { result.bad ≡ bad_of_work worked.end }
    ensures store { result.store ≡ Some worked.keeper }
{
    let Worked { keeper, end } = worked;
    Finish {
        status: status_of_work(end),
        points: Vec::new(alloc),
        bad: bad_of_work(end),
        store: Some(keeper),
    }
}

/// Opens the store of a name and does what is asked of its wiki, whose journal takes at most so many events
/// ([`work_over`]). It waits.
pub(crate) fn work<V: Vault, G: Gate + Copy + Send, O: Sink, C: Clock, R: Threads + Wait + Sync>(
    rt: &R,
    alloc: Global,
    vault: &mut V,
    name: &str,
    journal: u64,
    work: Work,
    hands: Hands<G>,
    output: &mut O,
    clock: &mut C,
) -> Finish<V::Store>
where
    V::Store: Send,
    requires journal { journal ≤ max_journal }
    ensures worked { (rest : Option (List ℕ)) → IsWorkedAt V.Store.told V.Store.faults V.Store.is_whole work journal
        (record { tables = V.told vault.old name.now; whole = V.opens_whole vault.old name.now }) (V.faults vault.old) (V.faults vault.new)
        (record { rest = rest; moments = C.left clock.old; taken = O.taken output.old })
        (record { rest = rest; moments = C.left clock.new; taken = O.taken output.new }) result }
    ensures writes_never_fall { O.faults output.old ≤ O.faults output.new }
    ensures no_write_fault { result.status ≡ 0 → O.faults output.new ≡ O.faults output.old }
    ensures write_fault { result.status ≡ 4 → Rose (O.faults output.old) (O.faults output.new) }
    ensures opens_never_fall { V.faults vault.old ≤ V.faults vault.new }
{
    match vault.open(name) {
        Ok(store) => ended(
            alloc,
            work_over(rt, alloc, store, journal, work, hands, output, clock),
        ),
        Err(OpenRefusal::Failed) => unopened(alloc, 5),
        Err(OpenRefusal::Memory) => unopened(alloc, 1),
    }
}

//! The command `report`.
ghost use Rattle.std.specs.Prelude.{◌≡◌, ◌≤◌, ℕ, List, [], Option, Some};
ghost use Rattle.wk_base.specs.Faults.{Rose};
ghost use Rattle.wk_reports.specs.Over.{status_of_report};
ghost use Rattle.wk_cli.specs.Reported.{IsReportedAt, bad_of_report};

use crate::ends::{Finish, bad_of_cause, unopened};
use std::alloc::Global;
use wk_base::Sink;
use wk_core::{BadStore, LoadCause};
use wk_keeper::{OpenRefusal, Vault};
use wk_reports::{Report, ReportEnd, Reported, report_over, report_status};

/// The bad row, where that is the end.
fn bad_of_report(end: Result<ReportEnd, LoadCause>) -> Option<BadStore>
    ensures { result ≡ bad_of_report end }
{
    match end {
        Ok(_) => None,
        Err(cause) => bad_of_cause(cause),
    }
}

/// The end of a report over a store.
fn ended<K>(alloc: Global, reported: Reported<K>) -> Finish<K>
    ensures status { result.status ≡ status_of_report reported.end }
    ensures points { result.points.items ≡ [] }
    ensures bad { result.bad ≡ bad_of_report reported.end }
    ensures store { result.store ≡ Some reported.keeper }
{
    let Reported { keeper, end } = reported;
    Finish {
        status: report_status(end),
        points: Vec::new(alloc),
        bad: bad_of_report(end),
        store: Some(keeper),
    }
}

/// Opens the store of a name and writes a report of its wiki with at most so many lines ([`report_over`]).
pub(crate) fn report<V: Vault, O: Sink>(
    alloc: Global,
    vault: &mut V,
    name: &str,
    which: Report,
    most: usize,
    output: &mut O,
) -> Finish<V::Store>
    ensures reported { (rest moments : Option (List ℕ)) → IsReportedAt V.Store.told V.Store.faults V.Store.is_whole which most
        (record { tables = V.told vault.old name.now; whole = V.opens_whole vault.old name.now }) (V.faults vault.old) (V.faults vault.new)
        (record { rest = rest; moments = moments; taken = O.taken output.old })
        (record { rest = rest; moments = moments; taken = O.taken output.new }) result }
    ensures writes_never_fall { O.faults output.old ≤ O.faults output.new }
    ensures no_write_fault { result.status ≡ 0 → O.faults output.new ≡ O.faults output.old }
    ensures write_fault { result.status ≡ 4 → Rose (O.faults output.old) (O.faults output.new) }
    ensures opens_never_fall { V.faults vault.old ≤ V.faults vault.new }
{
    match vault.open(name) {
        Ok(store) => ended(alloc, report_over(alloc, store, which, most, output)),
        Err(OpenRefusal::Failed) => unopened(alloc, 5),
        Err(OpenRefusal::Memory) => unopened(alloc, 1),
    }
}

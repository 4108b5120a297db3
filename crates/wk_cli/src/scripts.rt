//! The command `script`.
ghost use Rattle.std.specs.Prelude.{◌≡◌, ◌≤◌, Some};
ghost use Rattle.wk_base.specs.Faults.{Rose};
ghost use Rattle.wk_page_rules.specs.Verdict.{max_journal};
ghost use Rattle.wk_script_runs.specs.Ends.{keeper_left};
ghost use Rattle.wk_script.specs.Report.{bad_of};
ghost use Rattle.wk_cli.specs.Scripted.{IsOver, IsScripted};
ghost use Rattle.wk_cli.specs.Statuses.{status_of_end};

use crate::ends::{Finish, keeper_of, unloaded, unopened};
use std::alloc::Global;
use wk_base::{Clock, Sink, Source};
use wk_commands::limits_with_journal;
use wk_core::{BadStore, Wiki};
use wk_keeper::{Keeper, OpenRefusal, Vault};
use wk_script::{ScriptEnd, ScriptReport, run_script};

/// The status with which a script's run ends.
fn status_of_end(end: ScriptEnd) -> u8
    ensures { result ≡ status_of_end end }
{
    match end {
        ScriptEnd::Done => 0,
        ScriptEnd::Memory => 1,
        ScriptEnd::ReadFault => 3,
        ScriptEnd::WriteFault => 4,
        ScriptEnd::StoreFault => 5,
        ScriptEnd::BadStore(_) => 7,
        ScriptEnd::Bound => 9,
    }
}

/// The bad row, where that is the end.
fn bad_of_end(end: ScriptEnd) -> Option<BadStore>
    ensures { result ≡ bad_of end }
{
    match end {
        ScriptEnd::BadStore(bad) => Some(bad),
        _ => None,
    }
}

/// The end of a script's run.
fn reported<K: Keeper>(report: ScriptReport<K>) -> Finish<K>
    ensures status { result.status ≡ status_of_end report.end }
    ensures points { result.points.items ≡ report.points.items }
    ensures bad { result.bad ≡ bad_of report.end }
    ensures store { result.store ≡ Some (keeper_left report.wiki) }
{
    let ScriptReport { wiki, end, points } = report;
    Finish {
        status: status_of_end(end),
        points,
        bad: bad_of_end(end),
        store: Some(keeper_of(wiki)),
    }
}

/// Runs the lines of the input over the wiki of this store.
fn script_over<K: Keeper, I: Source, O: Sink, C: Clock>(
    alloc: Global,
    keeper: K,
    journal: u64,
    input: &mut I,
    output: &mut O,
    clock: &mut C,
) -> Finish<K>
    requires journal { journal ≤ max_journal }
    ensures over { IsOver K.told K.faults K.is_whole journal keeper
        (record { rest = I.rest input.old; moments = C.left clock.old; taken = O.taken output.old })
        (record { rest = I.rest input.new; moments = C.left clock.new; taken = O.taken output.new }) result }
    ensures reads_never_fall { I.faults input.old ≤ I.faults input.new }
    ensures no_read_fault { result.status ≡ 0 → I.faults input.new ≡ I.faults input.old }
    ensures read_fault { result.status ≡ 3 → Rose (I.faults input.old) (I.faults input.new) }
    ensures writes_never_fall { O.faults output.old ≤ O.faults output.new }
    ensures no_write_fault { result.status ≡ 0 → O.faults output.new ≡ O.faults output.old }
    ensures write_fault { result.status ≡ 4 → Rose (O.faults output.old) (O.faults output.new) }
{
    match Wiki::load(alloc, keeper, limits_with_journal(journal)) {
        Ok(wiki) => {
            wiki.facts();
            reported(run_script(wiki, input, output, clock))
        }
        Err(refusal) => unloaded(alloc, refusal),
    }
}

/// Opens the store of a name and runs the lines of the input over its wiki ([`run_script`]), whose journal takes at most so
/// many events.
pub(crate) fn script<V: Vault, I: Source, O: Sink, C: Clock>(
    alloc: Global,
    vault: &mut V,
    name: &str,
    journal: u64,
    input: &mut I,
    output: &mut O,
    clock: &mut C,
) -> Finish<V::Store>
    requires journal { journal ≤ max_journal }
    ensures scripted { IsScripted V.Store.told V.Store.faults V.Store.is_whole journal
        (record { tables = V.told vault.old name.now; whole = V.opens_whole vault.old name.now }) (V.faults vault.old) (V.faults vault.new)
        (record { rest = I.rest input.old; moments = C.left clock.old; taken = O.taken output.old })
        (record { rest = I.rest input.new; moments = C.left clock.new; taken = O.taken output.new }) result }
    ensures reads_never_fall { I.faults input.old ≤ I.faults input.new }
    ensures no_read_fault { result.status ≡ 0 → I.faults input.new ≡ I.faults input.old }
    ensures read_fault { result.status ≡ 3 → Rose (I.faults input.old) (I.faults input.new) }
    ensures writes_never_fall { O.faults output.old ≤ O.faults output.new }
    ensures no_write_fault { result.status ≡ 0 → O.faults output.new ≡ O.faults output.old }
    ensures write_fault { result.status ≡ 4 → Rose (O.faults output.old) (O.faults output.new) }
    ensures opens_never_fall { V.faults vault.old ≤ V.faults vault.new }
{
    match vault.open(name) {
        Ok(store) => script_over(alloc, store, journal, input, output, clock),
        Err(OpenRefusal::Failed) => unopened(alloc, 5),
        Err(OpenRefusal::Memory) => unopened(alloc, 1),
    }
}

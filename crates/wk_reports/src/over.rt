//! The command over the store of a keeper.
ghost use Rattle.std.specs.Prelude.{◌≡◌, ◌≢◌, ◌≤◌, ◌==◌, ◌∷◌, [], Ok, true};
ghost use Rattle.std.specs.List.{list_any};
ghost use Rattle.wk_base.specs.Faults.{Rose};
ghost use Rattle.wk_reports.specs.Over.{IsReportedOver, status_of_report};

use crate::written::{ReportEnd, write_report};
use std::alloc::Global;
use wk_base::Sink;
use wk_core::{Keeper, Limits, LoadCause, LoadRefusal, Wiki};
use wk_report_rules::Report;

/// What is left behind a report over a store.
#[derive(Drop)]
pub struct Reported<K> {
    /// The keeper of the store.
    pub keeper: K,
    /// How the report ended, or why the store wasn't opened for it.
    pub end: Result<ReportEnd, LoadCause>,
}

/// Opens a wiki over the tables of a keeper, and writes a report of it with at most so many lines (`write_report`). It makes no
/// event, so no limit of a journal plays a part. The keeper comes back: at a refusal of the load with the tables that it had, and
/// nothing was written; else with those of the state that was opened. Its count of faults doesn't fall, and stays where it is whole.
pub fn report_over<K: Keeper, O: Sink>(
    alloc: Global,
    keeper: K,
    which: Report,
    most: usize,
    output: &mut O,
) -> Reported<K>
    ensures reported { IsReportedOver K.told K.faults K.is_whole which most keeper result.keeper
        (O.taken output.old) (O.taken output.new) result.end }
    ensures never_falls { O.faults output.old ≤ O.faults output.new }
    ensures no_write_fault { result.end ≢ Ok ReportEnd.WriteFault → O.faults output.new ≡ O.faults output.old }
    ensures write_fault { result.end ≡ Ok ReportEnd.WriteFault → Rose (O.faults output.old) (O.faults output.new) }
{
    match Wiki::load(alloc, keeper, Limits::FULL) {
        Ok(wiki) => {
            let end = write_report(&wiki, which, most, output);
            Reported {
                keeper: wiki.release(),
                end: Ok(end),
            }
        }
        Err(refusal) => {
            let LoadRefusal { keeper, cause } = refusal;
            Reported {
                keeper,
                end: Err(cause),
            }
        }
    }
}

/// The status with which the program ends behind a report over a store. That of a failed read, 3, never comes, since nothing is read.
pub fn report_status(end: Result<ReportEnd, LoadCause>) -> u8
    ensures status { result ≡ status_of_report end }
    ensures among { list_any (λ status. result == status) (0 ∷ 1 ∷ 4 ∷ 5 ∷ 7 ∷ []) ≡ true }
{
    match end {
        Ok(ReportEnd::Done) => 0,
        Ok(ReportEnd::Memory) => 1,
        Ok(ReportEnd::WriteFault) => 4,
        Err(LoadCause::Memory) => 1,
        Err(LoadCause::StoreFault) => 5,
        Err(LoadCause::BadStore(_)) => 7,
    }
}

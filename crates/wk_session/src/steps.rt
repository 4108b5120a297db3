//! The step behind a reply.
ghost use Rattle.std.specs.Prelude.{◌≡◌};
ghost use Rattle.wk_shared.specs.Calls.{IsFree, MayFail};
ghost use Rattle.wk_session.specs.Serving.{IsStepTold};
ghost use Rattle.wk_session.specs.Steps.{kind_of};

use std::sync::Wait;
use wk_base::Gate;
use wk_core::Keeper;
use wk_http::Refresh;
use wk_readers::{Refreshed, Worker, refresh_one};
use wk_shared::Shared;

/// The kind of what a step did.
fn kind_of(refreshed: &Refreshed) -> Refresh
    ensures { result ≡ kind_of refreshed.now }
{
    match refreshed {
        Refreshed::Idle { .. } => Refresh::Idle,
        Refreshed::Fanned(_) => Refresh::Fanned,
        Refreshed::Done(_) => Refresh::Done,
        Refreshed::Back { .. } => Refresh::Back,
        Refreshed::JournalFull => Refresh::JournalFull,
        Refreshed::StoreFault => Refresh::StoreFault,
        Refreshed::Memory => Refresh::Memory,
    }
}

/// Makes one step, and tells what it did. Where the last look told that no job is to be done it takes no turn; else it waits.
pub fn step<K: Keeper, R: Wait, G: Gate>(
    shared: &Shared<K>,
    rt: &R,
    worker: &mut Worker<K, G>,
) -> Refresh
    requires { IsFree shared.now worker.old.reader.pass }
    ensures { IsStepTold shared.now (MayFail shared.now.start) worker.old.reader.pass worker.new.reader.pass result }
{
    if worker.reader.told_idle() {
        return Refresh::Idle;
    }
    let refreshed = refresh_one(shared, rt, &mut worker.reader, &mut worker.gate);
    kind_of(&refreshed)
}

//! A run that meets the premises of the laws of how the program ends: the command `check` over an empty store.
ghost use Rattle.std.specs.Prelude.{◌≡◌, true};
ghost use Rattle.wk_base.specs.Faults.{Rose};
ghost use Rattle.wk_words.specs.Verdicts.{runs};
ghost use Rattle.wk_cli.specs.Finished.{IsFinished, store_named};
ghost use Rattle.wk_cli_laws.specs.Complete.{HasNoFault, HasNoFaultOutside};
ghost use Rattle.wk_cli_laws.specs.Example.{IsDone, always_whole, empty_vault, never_failed, outside_before, outside_behind, silent_door, tells_empty, wanted_check};

use std::alloc::Global;
use wk_cli::Finish;

/// The end of a command that has done its work.
fn ended(alloc: Global) -> Finish<()>
    ensures { IsDone result }
{
    Finish {
        status: 0,
        points: Vec::new(alloc),
        bad: None,
        store: Some(()),
    }
}

/// `check` over an empty store that the vault opens whole, where nothing fails: what `a_run_over_a_whole_store_is_complete` asks, and
/// `a_run_without_faults_is_complete` besides.
pub fn a_check_of_an_empty_store(alloc: Global) -> Finish<()>
    ensures done { IsDone result }
    ensures finished { IsFinished tells_empty never_failed always_whole (runs wanted_check) empty_vault 0 0 silent_door silent_door outside_before outside_behind result }
    ensures read { result.status ≡ 3 → Rose 0 0 }
    ensures written { result.status ≡ 4 → Rose 0 0 }
    ensures whole { empty_vault.whole wanted_check.store ≡ true }
    ensures outside { HasNoFaultOutside (store_named empty_vault wanted_check.store) 0 0 0 0 0 0 silent_door silent_door }
    ensures store { HasNoFault never_failed (store_named empty_vault wanted_check.store) 0 0 0 0 0 0 silent_door silent_door result }
{
    ended(alloc)
}

//! Help and the version.
ghost use Rattle.std.specs.Prelude.{◌≡◌, ◌≤◌, ℕ, List, [], None, Option};
ghost use Rattle.wk_base.specs.Faults.{Rose};
ghost use Rattle.wk_cli.specs.Finished.{IsShown};

use crate::ends::{Finish, unopened};
use std::alloc::Global;
use wk_base::{Sink, write_all};

/// Writes a text that was asked for. The status is 0, and 4 where a write failed.
pub(crate) fn show<S, O: Sink>(alloc: Global, text: &str, output: &mut O) -> Finish<S>
    ensures shown { (rest moments : Option (List ℕ)) → IsShown text.now
        (record { rest = rest; moments = moments; taken = O.taken output.old })
        (record { rest = rest; moments = moments; taken = O.taken output.new }) result }
    ensures writes_never_fall { O.faults output.old ≤ O.faults output.new }
    ensures no_write_fault { result.status ≡ 0 → O.faults output.new ≡ O.faults output.old }
    ensures write_fault { result.status ≡ 4 → Rose (O.faults output.old) (O.faults output.new) }
{
    match write_all(output, text.as_bytes()) {
        Ok(()) => unopened(alloc, 0),
        Err(_) => unopened(alloc, 4),
    }
}

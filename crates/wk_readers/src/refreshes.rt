//! Steps of a worker.
ghost use Rattle.std.specs.Prelude.{◌≡◌};
ghost use Rattle.wk_shared.specs.Calls.{IsFree};
ghost use Rattle.wk_readers.specs.Refreshes.{IsRefreshed};

use crate::reader::Reader;
use crate::{Refreshed, refresh_with};
use std::sync::Wait;
use wk_base::Gate;
use wk_core::Keeper;
use wk_shared::Shared;

/// One step of a worker, as `refresh_with` has it (MediaWiki's Manual:Job queue): a fan, or a refresh of the first page whose
/// job is queued. What the reader keeps of pages stays. It waits.
pub fn refresh_one<K: Keeper, R: Wait, G: Gate>(
    shared: &Shared<K>,
    rt: &R,
    reader: &mut Reader<K>,
    gate: &mut G,
) -> Refreshed
    requires { IsFree shared.now reader.old.pass }
    ensures refreshed { IsRefreshed shared.now reader.old.pass reader.new.pass result }
    ensures most { reader.new.most ≡ reader.old.most }
    ensures kept { reader.new.entries ≡ reader.old.entries }
{
    let alloc = reader.alloc;
    reader.looked = true;
    reader.idle = false;
    refresh_with(shared, rt, alloc, &mut reader.pass, &mut reader.trees, gate)
}

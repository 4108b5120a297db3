//! Wikis over stores in memory.
ghost use Rattle.std.specs.Prelude.{IfOk};
ghost use Rattle.wk_revs.specs.Edit.{most_held};
ghost use Rattle.wk_core.specs.Limits.{AreWithinFull};
ghost use Rattle.wk_core.specs.Loads.{HasOpened};

use std::alloc::Global;
use wk_core::{Limits, LoadCause, Tables, Wiki};
use wk_keeper::{FailKeeper, MemKeeper};

/// A store in memory whose listed calls fail.
pub type Store = FailKeeper<MemKeeper>;

/// An empty wiki over a store in memory, under these limits, none of which is above that of `Limits::FULL`. The calls of
/// its store with the numbers in `fail`, counted from 1, fail. The first of them opens the wiki: where it fails the cause
/// is told, and so where memory runs out.
pub fn empty(alloc: Global, limits: Limits, fail: Vec<u64>) -> Result<Wiki<Store>, LoadCause>
    requires { AreWithinFull (most_held limits) }
    ensures { IfOk result (λ wiki. HasOpened wiki (most_held limits)) }
{
    let store = FailKeeper::new(MemKeeper::new(Tables::new(alloc)), fail);
    match Wiki::load(alloc, store, limits) {
        Ok(wiki) => Ok(wiki),
        Err(refusal) => Err(refusal.cause),
    }
}

//! How the program ends.
ghost use Rattle.std.specs.Prelude.{◌≡◌, [], None, Some};
ghost use Rattle.wk_core.specs.Loads.{bad_store_of};
ghost use Rattle.wk_script_runs.specs.Ends.{keeper_left};
ghost use Rattle.wk_cli.specs.Statuses.{status_of_cause};

use std::alloc::Global;
use wk_core::{BadStore, LoadCause, LoadRefusal, Wiki};
use wk_keeper::Keeper;

/// How the program ended.
#[derive(Drop)]
pub struct Finish<S> {
    /// The status with which the program ends.
    pub status: u8,
    /// The points of the script's replies, in order.
    pub points: Vec<u64>,
    /// The rule of a good store that the tables break, and the least row that breaks it, at status 7; at status 11 rule 8, which is that of
    /// a feed, and the number of its first bad line.
    pub bad: Option<BadStore>,
    /// The store, where the vault opened it.
    pub store: Option<S>,
}

/// An end with this status at which nothing was opened.
pub(crate) fn unopened<S>(alloc: Global, status: u8) -> Finish<S>
    ensures status { result.status ≡ status }
    ensures points { result.points.items ≡ [] }
    ensures bad { result.bad ≡ None }
    ensures store { result.store ≡ None }
{
    Finish {
        status,
        points: Vec::new(alloc),
        bad: None,
        store: None,
    }
}

/// The status with which the program ends where a store isn't opened for this cause.
pub(crate) fn status_of_cause(cause: LoadCause) -> u8
    ensures { result ≡ status_of_cause cause }
{
    match cause {
        LoadCause::Memory => 1,
        LoadCause::StoreFault => 5,
        LoadCause::BadStore(_) => 7,
    }
}

/// The bad row, where that is the cause.
pub(crate) fn bad_of_cause(cause: LoadCause) -> Option<BadStore>
    ensures { result ≡ bad_store_of cause }
{
    match cause {
        LoadCause::BadStore(bad) => Some(bad),
        LoadCause::StoreFault | LoadCause::Memory => None,
    }
}

/// The end where a store isn't opened for this refusal.
pub(crate) fn unloaded<K: Keeper>(alloc: Global, refusal: LoadRefusal<K>) -> Finish<K>
    ensures status { result.status ≡ status_of_cause refusal.cause }
    ensures points { result.points.items ≡ [] }
    ensures bad { result.bad ≡ bad_store_of refusal.cause }
    ensures store { result.store ≡ Some refusal.keeper }
{
    let LoadRefusal { keeper, cause } = refusal;
    Finish {
        status: status_of_cause(cause),
        points: Vec::new(alloc),
        bad: bad_of_cause(cause),
        store: Some(keeper),
    }
}

/// The keeper of a wiki, or the one that stands in its place.
pub(crate) fn keeper_of<K: Keeper>(handed: Result<Wiki<K>, K>) -> K
    ensures { result ≡ keeper_left handed }
{
    match handed {
        Ok(wiki) => wiki.release(),
        Err(keeper) => keeper,
    }
}

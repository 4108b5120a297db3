// A vault in memory whose calls fail where it was told so.
ghost use Rattle.std.specs.Prelude.{◌≡◌, map};
ghost use Rattle.wk_base.specs.Calls.{none_made};
ghost use Rattle.wk_keeper.specs.FailVault.{open_calls_of, store_fail_of, vault_of};
ghost use Rattle.wk_keeper.specs.Stores.{store_of};

use crate::fail_vault::FailVault;
use crate::list_vault::ListVault;
use wk_tables::Tables;

/// A vault of stores in memory, each a keeper whose calls fail where the vault was told so. It gives under each name
/// the tables that it was made with for that name, those of the first of several, and empty tables where it was made
/// with none. It tells everything.
pub type MemVault = FailVault<ListVault>;

impl FailVault<ListVault> {
    /// A vault of these stores. The calls of `open` with the numbers of `fail`, counted from 1, fail; so do those calls of
    /// each store that `store_fail` lists. Takes no memory.
    pub fn new(stores: Vec<(String, Tables)>, fail: Vec<u64>, store_fail: Vec<u64>) -> MemVault
        ensures stores { vault_of result ≡ map store_of stores.items }
        ensures calls { open_calls_of result ≡ none_made fail.items }
        ensures store_fail { store_fail_of result ≡ store_fail.items }
    {
        FailVault::over(ListVault::new(stores), fail, store_fail)
    }
}

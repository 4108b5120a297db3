// A vault of stores in memory.
ghost use Rattle.std.specs.Prelude.{◌≡◌, find, map, bytes_eq, string_bytes, true, IfOk, Some};
ghost use Rattle.std.specs.Option.{option_copied};
ghost use Rattle.wk_keeper.specs.NamedTables.{tables_named};
ghost use Rattle.wk_keeper.specs.Stores.{store_of};

use crate::keeper::{OpenRefusal, Vault};
use crate::mem_keeper::MemKeeper;
use std::alloc::Global;
use std::marker::Model;
use wk_memory::Memory;
use wk_tables::Tables;

/// A vault that gives under each name a copy of the tables that it was made with for that name, those of the first of
/// several, and empty tables where it was made with none. Its stores are whole, and it tells everything.
#[derive(Drop)]
pub struct ListVault {
    stores: Vec<(String, Tables)>,
}

impl Model for ListVault {
    ghost use Rattle.std.specs.Prelude.{List, map};
    ghost use Rattle.wk_keeper.specs.NamedTables.{NamedTables};
    ghost use Rattle.wk_keeper.specs.Stores.{store_of};

    ghost Value = { List NamedTables };

    ghost view = { λ v. map store_of v.stores.items };
}

impl ListVault {
    /// A vault of these stores. Takes no memory.
    pub fn new(stores: Vec<(String, Tables)>) -> ListVault
        ensures { result ≡ map store_of stores.items }
    {
        ListVault { stores }
    }
}

fn is_named(store: &(String, Tables), name: &str) -> bool
    ensures { result ≡ bytes_eq (string_bytes store.now.0) name.now }
{
    store.0.as_str() == name
}

/// The first store of this name.
fn first_named<'a>(stores: &'a [(String, Tables)], name: &str) -> Option<&'a (String, Tables)>
    ensures { option_copied result ≡ find (λ store. bytes_eq (string_bytes store.0) name.now) stores.now }
{
    stores.iter().find(|store| is_named(store, name))
}

/// The tables of the first store of this name, or empty ones.
fn tables_named(alloc: Global, stores: &[(String, Tables)], name: &str) -> Result<Tables, Memory>
    ensures { IfOk result (λ tables. tables.tables ≡ tables_named (map store_of stores.now) name.now) }
{
    match first_named(stores, name) {
        Some(store) => store.1.copy(),
        None => Ok(Tables::new(alloc)),
    }
}

impl Vault for ListVault {
    type Store = MemKeeper;

    ghost told = { λ v name. Some (tables_named v name) };

    ghost opens_whole = { λ _ _. true };

    ghost faults = { λ _. 0 };

    /// A keeper of a copy of the tables of this name. Never `Failed`.
    fn open(&mut self, name: &str) -> Result<MemKeeper, OpenRefusal> {
        let alloc = *self.stores.allocator();
        let tables = tables_named(alloc, &self.stores, name)?;
        Ok(MemKeeper::new(tables))
    }
}

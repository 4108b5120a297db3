//! The keeper.
ghost use Rattle.std.specs.Prelude.{◌≡◌, false, Some, IfErr, IfOk};
ghost use Rattle.sqlite.specs.Held.{state};
ghost use Rattle.sqlite.specs.Steps.{IsEmpty, over_memory};
ghost use Rattle.wk_table_rules.specs.Rows.{StoreTables, no_tables};
ghost use Rattle.wk_sqlkeeper.specs.Kept.{IsInRange};
ghost use Rattle.wk_sqlkeeper.specs.Older.{IsAsBefore, KeepsOlder};
ghost use Rattle.wk_sqlkeeper.specs.SqlKeeper.{connection_of, sql_calls, sql_faults};
ghost use Rattle.wk_sqlmemory.specs.Told.{IsTold, KeepsTables, tables_in};

use crate::ranges::change_is_in_range;
use sqlite::{Connection, MemStore};
use std::alloc::Global;
use wk_keeper::{Keeper, KeeperRefusal};
use wk_sqlkeeper::SqlKeeper;
use wk_tables::{Change, Tables};

/// A keeper of the tables of a wiki in a SQLite database in memory. Each call is that of `SqlKeeper` over the store in
/// memory, whose body is that over files. It tells its tables, and it isn't whole, since a database refuses numbers of 2^63
/// and more.
pub struct SqlMemory {
    keeper: SqlKeeper<MemStore>,
    ghost keeps: { ∥ KeepsTables (state over_memory (connection_of keeper)) ∥₁ },
}

// It is written out, so that a caller does not prove again how a connection is dropped.
impl Drop for SqlMemory {
    fn drop(self) {
        let SqlMemory { keeper: _ } = self;
    }
}

/// What tells its tables, out of a keeper that keeps them.
fn telling(keeper: SqlKeeper<MemStore>) -> SqlMemory
    requires { ∥ KeepsTables (state over_memory (connection_of keeper)) ∥₁ }
    ensures { result.keeper ≡ keeper }
{
    SqlMemory { keeper }
}

impl SqlMemory {
    /// The keeper of the tables in the connection's database, with no faults: those of a new store, of version 2, where the
    /// database is empty; those that it keeps, where a keeper was released; and those of an older store, which has no table
    /// redirect, where that one is made. It takes over no other database, since nobody can say which tables it keeps.
    ///
    /// `Failed` comes where the database refuses; `Memory` may come. At a refusal the connection is handed back, and its
    /// tables are as before.
    pub fn adopt(
        alloc: Global,
        connection: Connection<MemStore>,
    ) -> Result<SqlMemory, (Connection<MemStore>, KeeperRefusal)>
        requires { IsTold (state over_memory connection) }
        ensures told { IfOk result (λ keeper. IsEmpty (state over_memory connection) → tables_in (state over_memory (connection_of keeper.keeper)).now.trees ≡ no_tables) }
        ensures kept { IfOk result (λ keeper. ∥ KeepsTables (state over_memory connection) ∥₁ → tables_in (state over_memory (connection_of keeper.keeper)).now.trees ≡ tables_in (state over_memory connection).now.trees) }
        ensures older { IfOk result (λ keeper. (tables : StoreTables) → KeepsOlder (state over_memory connection) tables → IsInRange tables → tables_in (state over_memory (connection_of keeper.keeper)).now.trees ≡ tables) }
        ensures no_faults { IfOk result (λ keeper. sql_faults keeper.keeper ≡ 0) }
        ensures stays { IfErr result (λ e. ∥ IsAsBefore (state over_memory connection) (state over_memory e.0) ∥₁) }
    {
        match SqlKeeper::adopt(alloc, connection) {
            Ok(keeper) => Ok(telling(keeper)),
            Err(refused) => Err(refused),
        }
    }

    /// Gives the connection back, whose database keeps the tables, so that it can be taken over again. Takes no memory.
    pub fn release(self) -> Connection<MemStore>
        ensures same { result ≡ connection_of self.keeper }
        ensures keeps { ∥ KeepsTables (state over_memory result) ∥₁ }
    {
        let SqlMemory { keeper } = self;
        keeper.release()
    }
}

impl Keeper for SqlMemory {
    ghost told = { λ k. Some (tables_in (state over_memory (connection_of k.keeper)).now.trees) };

    ghost faults = { λ k. sql_faults k.keeper };

    ghost is_whole = { λ _. false };

    ghost calls = { λ k. sql_calls k.keeper };

    fn load(&mut self) -> Result<Tables, KeeperRefusal> {
        self.keeper.load()
    }

    fn apply(&mut self, change: &Change) -> Result<(), KeeperRefusal> {
        change_is_in_range(change);
        self.keeper.apply(change)
    }
}

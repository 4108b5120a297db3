// A keeper in memory.
ghost use Rattle.std.specs.Prelude.{◌≡◌, ℕ, true, Some};

use crate::keeper::{Keeper, KeeperRefusal};
use std::marker::Model;
use wk_tables::{Change, Tables, apply, make_room};

/// A keeper of tables in memory. It tells them, and it is whole.
#[derive(Drop)]
pub struct MemKeeper {
    tables: Tables,
}

impl Model for MemKeeper {
    ghost use Rattle.wk_table_rules.specs.Rows.{StoreTables};

    ghost Value = { StoreTables };

    ghost view = { λ k. k.tables.tables };
}

impl MemKeeper {
    /// A keeper of these tables. Takes no memory.
    pub fn new(tables: Tables) -> MemKeeper
        ensures { result ≡ tables.tables }
    {
        MemKeeper { tables }
    }
}

impl Keeper for MemKeeper {
    ghost told = { λ k. Some k };

    ghost faults = { λ _. 0 };

    ghost is_whole = { λ _. true };

    /// A copy of the tables. Never `Failed`.
    fn load(&mut self) -> Result<Tables, KeeperRefusal> {
        Ok(self.tables.copy()?)
    }

    /// Takes all its memory before it changes the tables. Never `Failed`.
    fn apply(&mut self, change: &Change) -> Result<(), KeeperRefusal> {
        make_room(&mut self.tables, change)?;
        let change = change.copy()?;
        apply(&mut self.tables, change);
        Ok(())
    }
}

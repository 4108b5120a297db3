//! Makes of a store in memory one that has no table redirect, as those of version 1 may.
ghost use Rattle.std.specs.Prelude.{◌≡◌, [], OnOk};
ghost use Rattle.sqlite.specs.Held.{state};
ghost use Rattle.sqlite.specs.Steps.{over_memory};
ghost use Rattle.wk_table_rules.specs.Rows.{StoreTables};
ghost use Rattle.wk_sqltables.specs.Held.{Holds};
ghost use Rattle.wk_sqlkeeper.specs.Older.{HoldsOlder};
ghost use Rattle.wk_sqlmemory.specs.Told.{KeepsOlderTables, KeepsTables};

use sqlite::{Connection, Error, ErrorCode, MemStore, Transaction};

/// Drops the table redirect. The other tables stay.
fn drop_redirect(transaction: &mut Transaction<'_, MemStore>) -> Result<(), Error>
    ensures same { transaction.new.conn.ghost_name ≡ transaction.old.conn.ghost_name }
    ensures dropped { OnOk result ((tables : StoreTables) → Holds (state over_memory transaction.old.conn.now) tables → HoldsOlder (state over_memory transaction.new.conn.now) (record tables { redirects = [] })) }
{
    match transaction.execute("DROP TABLE redirect", &[]) {
        Ok(_) => Ok(()),
        Err(error) => Err(error),
    }
}

/// Drops the table redirect of a store, in one transaction. A connection in a transaction is refused.
pub fn make_older(connection: &mut Connection<MemStore>) -> Result<(), Error>
    ensures { OnOk result (∥ KeepsTables (state over_memory connection.old) ∥₁ → ∥ KeepsOlderTables (state over_memory connection.new) ∥₁) }
{
    if !connection.is_autocommit() {
        return Err(Error::SqliteFailure(ErrorCode::TransactionState));
    }
    let mut transaction = connection.transaction();
    drop_redirect(&mut transaction)?;
    transaction.commit()
}

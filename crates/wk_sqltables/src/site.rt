//! The statement on the table site.
ghost use Rattle.std.specs.Prelude.{◌≡◌, [], ◌∷◌, OnOk, IsTrue};
ghost use Rattle.sqlite_value.specs.declared.value.Value.TheVariants.{Text as TextValue};
ghost use Rattle.sqlite.specs.Held.{state};
ghost use Rattle.sqlite.specs.State.{ExecutesInside, HasCleanDisk, KeepsCommit, Survives};
ghost use Rattle.wk_table_rules.specs.Changes.{set_version};
ghost use Rattle.wk_sqltables.specs.Held.{Makes};
ghost use Rattle.wk_sqltables.specs.Statements.{set_version_text};

use sqlite::types::ValueRef;
use sqlite::{Alter, Error, Transaction};
use std::alloc::Global;

fn run_set<S: Alter>(transaction: &mut Transaction<'_, S>, value: &str) -> Result<usize, Error>
    ensures same { transaction.new.conn.ghost_name ≡ transaction.old.conn.ghost_name }
    ensures runs { HasCleanDisk (state S.Store transaction.new.conn.now) → IsTrue (state S.Store transaction.old.conn.now).in_transaction → ExecutesInside 0 set_version_text (TextValue value.now ∷ []) (state S.Store transaction.old.conn.now) (state S.Store transaction.new.conn.now) result }
    ensures survives { Survives (state S.Store transaction.old.conn.now) (state S.Store transaction.new.conn.now) (λ _. ⊥) }
{
    transaction.execute(
        "UPDATE site SET site_value = ?1 WHERE site_key = 'version'",
        &[ValueRef::Text(value.as_bytes())],
    )
}

/// Sets the number of the version.
pub fn set_version<S: Alter>(
    alloc: Global,
    transaction: &mut Transaction<'_, S>,
    version: u64,
) -> Result<(), Error>
    ensures same { transaction.new.conn.ghost_name ≡ transaction.old.conn.ghost_name }
    ensures made { HasCleanDisk (state S.Store transaction.new.conn.now) → OnOk result (Makes (state S.Store transaction.old.conn.now) (state S.Store transaction.new.conn.now) (set_version version)) }
    ensures inside { HasCleanDisk (state S.Store transaction.new.conn.now) → OnOk result (IsTrue (state S.Store transaction.old.conn.now).in_transaction → IsTrue (state S.Store transaction.new.conn.now).in_transaction) }
    ensures kept { HasCleanDisk (state S.Store transaction.new.conn.now) → IsTrue (state S.Store transaction.old.conn.now).in_transaction → KeepsCommit (state S.Store transaction.old.conn.now) (state S.Store transaction.new.conn.now) }
    ensures survives { Survives (state S.Store transaction.old.conn.now) (state S.Store transaction.new.conn.now) (λ _. ⊥) }
{
    let value = format!(in alloc; "{version}")?;
    run_set(transaction, value.as_str())?;
    Ok(())
}

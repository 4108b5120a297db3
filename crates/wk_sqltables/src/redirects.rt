//! The statements on the table redirect.
ghost use Rattle.std.specs.Prelude.{◌≡◌, ◌==◌, pos, [], ◌∷◌, filter, not, OnOk, IsTrue};
ghost use Rattle.sqlite_keyed.specs.Keyed.{insert_by};
ghost use Rattle.sqlite_value.specs.declared.value.Value.TheVariants.{Int, Text as TextValue};
ghost use Rattle.sqlite.specs.Held.{state};
ghost use Rattle.sqlite.specs.State.{ExecutesInside, HasCleanDisk, KeepsCommit, Survives};
ghost use Rattle.wk_table_rules.specs.Rows.{StoreTables};
ghost use Rattle.wk_table_rules.specs.Changes.{redirect_row};
ghost use Rattle.wk_sqltables.specs.Held.{Holds};
ghost use Rattle.wk_sqltables.specs.Members.{SetsRedirect};
ghost use Rattle.wk_sqltables.specs.Statements.{drop_redirect_text, add_redirect_text};

use sqlite::types::ValueRef;
use sqlite::{Alter, Error, Transaction};
use wk_title::Title;

fn run_drop<S: Alter>(transaction: &mut Transaction<'_, S>, page: i64) -> Result<usize, Error>
    ensures same { transaction.new.conn.ghost_name ≡ transaction.old.conn.ghost_name }
    ensures runs { HasCleanDisk (state S.Store transaction.new.conn.now) → IsTrue (state S.Store transaction.old.conn.now).in_transaction → ExecutesInside 0 drop_redirect_text (Int page ∷ []) (state S.Store transaction.old.conn.now) (state S.Store transaction.new.conn.now) result }
    ensures survives { Survives (state S.Store transaction.old.conn.now) (state S.Store transaction.new.conn.now) (λ _. ⊥) }
{
    transaction.execute(
        "DELETE FROM redirect WHERE rd_from = ?1",
        &[ValueRef::Int(page)],
    )
}

/// Takes away the row of the page.
fn drop_redirect<S: Alter>(transaction: &mut Transaction<'_, S>, page: u32) -> Result<(), Error>
    ensures same { transaction.new.conn.ghost_name ≡ transaction.old.conn.ghost_name }
    ensures made { HasCleanDisk (state S.Store transaction.new.conn.now) → OnOk result ((tables : StoreTables) → Holds (state S.Store transaction.old.conn.now) tables → Holds (state S.Store transaction.new.conn.now) (record tables { redirects = filter (λ r. not (r.rd_from == page)) tables.redirects })) }
    ensures inside { HasCleanDisk (state S.Store transaction.new.conn.now) → OnOk result (IsTrue (state S.Store transaction.old.conn.now).in_transaction → IsTrue (state S.Store transaction.new.conn.now).in_transaction) }
    ensures kept { HasCleanDisk (state S.Store transaction.new.conn.now) → IsTrue (state S.Store transaction.old.conn.now).in_transaction → KeepsCommit (state S.Store transaction.old.conn.now) (state S.Store transaction.new.conn.now) }
    ensures survives { Survives (state S.Store transaction.old.conn.now) (state S.Store transaction.new.conn.now) (λ _. ⊥) }
{
    run_drop(transaction, i64::from(page))?;
    Ok(())
}

fn run_add<S: Alter>(
    transaction: &mut Transaction<'_, S>,
    page: i64,
    namespace: i64,
    title: &str,
) -> Result<usize, Error>
    ensures same { transaction.new.conn.ghost_name ≡ transaction.old.conn.ghost_name }
    ensures runs { HasCleanDisk (state S.Store transaction.new.conn.now) → IsTrue (state S.Store transaction.old.conn.now).in_transaction → ExecutesInside 0 add_redirect_text (Int page ∷ Int namespace ∷ TextValue title.now ∷ []) (state S.Store transaction.old.conn.now) (state S.Store transaction.new.conn.now) result }
    ensures survives { Survives (state S.Store transaction.old.conn.now) (state S.Store transaction.new.conn.now) (λ _. ⊥) }
{
    transaction.execute(
        "INSERT INTO redirect (rd_from, rd_namespace, rd_title) VALUES (?1, ?2, ?3)",
        &[
            ValueRef::Int(page),
            ValueRef::Int(namespace),
            ValueRef::Text(title.as_bytes()),
        ],
    )
}

/// Adds the row of the page.
fn add_redirect<S: Alter>(
    transaction: &mut Transaction<'_, S>,
    page: u32,
    title: &Title,
) -> Result<(), Error>
    ensures same { transaction.new.conn.ghost_name ≡ transaction.old.conn.ghost_name }
    ensures made { HasCleanDisk (state S.Store transaction.new.conn.now) → OnOk result ((tables : StoreTables) → Holds (state S.Store transaction.old.conn.now) tables → Holds (state S.Store transaction.new.conn.now) (record tables { redirects = insert_by (λ r. pos r.rd_from) tables.redirects (redirect_row page title.now) })) }
    ensures inside { HasCleanDisk (state S.Store transaction.new.conn.now) → OnOk result (IsTrue (state S.Store transaction.old.conn.now).in_transaction → IsTrue (state S.Store transaction.new.conn.now).in_transaction) }
    ensures kept { HasCleanDisk (state S.Store transaction.new.conn.now) → IsTrue (state S.Store transaction.old.conn.now).in_transaction → KeepsCommit (state S.Store transaction.old.conn.now) (state S.Store transaction.new.conn.now) }
    ensures survives { Survives (state S.Store transaction.old.conn.now) (state S.Store transaction.new.conn.now) (λ _. ⊥) }
{
    run_add(
        transaction,
        i64::from(page),
        i64::from(title.ns()),
        title.key(),
    )?;
    Ok(())
}

/// Makes this the row of the page, or takes its row away.
pub fn set_redirect<S: Alter>(
    transaction: &mut Transaction<'_, S>,
    page: u32,
    redirect: &Option<Title>,
) -> Result<(), Error>
    ensures same { transaction.new.conn.ghost_name ≡ transaction.old.conn.ghost_name }
    ensures made { HasCleanDisk (state S.Store transaction.new.conn.now) → OnOk result (SetsRedirect (state S.Store transaction.old.conn.now) (state S.Store transaction.new.conn.now) page redirect.now) }
    ensures inside { HasCleanDisk (state S.Store transaction.new.conn.now) → OnOk result (IsTrue (state S.Store transaction.old.conn.now).in_transaction → IsTrue (state S.Store transaction.new.conn.now).in_transaction) }
    ensures kept { HasCleanDisk (state S.Store transaction.new.conn.now) → IsTrue (state S.Store transaction.old.conn.now).in_transaction → KeepsCommit (state S.Store transaction.old.conn.now) (state S.Store transaction.new.conn.now) }
    ensures survives { Survives (state S.Store transaction.old.conn.now) (state S.Store transaction.new.conn.now) (λ _. ⊥) }
{
    drop_redirect(transaction, page)?;
    match redirect {
        Some(title) => add_redirect(transaction, page, title),
        None => Ok(()),
    }
}

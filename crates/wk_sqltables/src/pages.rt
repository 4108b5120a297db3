//! The statement on the table page.
ghost use Rattle.std.specs.Prelude.{◌≡◌, pos, [], ◌∷◌, OnOk, IsTrue};
ghost use Rattle.sqlite_value.specs.declared.value.Value.TheVariants.{Int, Text as TextValue};
ghost use Rattle.sqlite.specs.Held.{state};
ghost use Rattle.sqlite.specs.State.{ExecutesInside, HasCleanDisk, KeepsCommit, Survives};
ghost use Rattle.wk_table_rules.specs.Changes.{set_page};
ghost use Rattle.wk_sqltables.specs.Held.{Makes};
ghost use Rattle.wk_sqltables.specs.Statements.{set_page_text};

use crate::numbers::whole;
use sqlite::types::ValueRef;
use sqlite::{Alter, Error, Transaction};
use wk_table_rows::PageRow;

fn run_set<S: Alter>(
    transaction: &mut Transaction<'_, S>,
    id: i64,
    namespace: i64,
    title: &str,
    latest: i64,
    len: i64,
) -> Result<usize, Error>
    ensures same { transaction.new.conn.ghost_name ≡ transaction.old.conn.ghost_name }
    ensures runs { HasCleanDisk (state S.Store transaction.new.conn.now) → IsTrue (state S.Store transaction.old.conn.now).in_transaction → ExecutesInside 0 set_page_text (Int id ∷ Int namespace ∷ TextValue title.now ∷ Int latest ∷ Int len ∷ []) (state S.Store transaction.old.conn.now) (state S.Store transaction.new.conn.now) result }
    ensures survives { Survives (state S.Store transaction.old.conn.now) (state S.Store transaction.new.conn.now) (λ _. ⊥) }
{
    transaction.execute(
        "INSERT INTO page (page_id, page_namespace, page_title, page_latest, page_len) VALUES (?1, ?2, ?3, ?4, ?5) ON CONFLICT (page_id) DO UPDATE SET page_namespace = excluded.page_namespace, page_title = excluded.page_title, page_latest = excluded.page_latest, page_len = excluded.page_len",
        &[
            ValueRef::Int(id),
            ValueRef::Int(namespace),
            ValueRef::Text(title.as_bytes()),
            ValueRef::Int(latest),
            ValueRef::Int(len),
        ],
    )
}

/// Makes this the row of the page of its number, or adds it. A number of 2^63 or more is refused with
/// `IntegralValueOutOfRange`, before the statement.
pub fn set_page<S: Alter>(transaction: &mut Transaction<'_, S>, row: &PageRow) -> Result<(), Error>
    ensures same { transaction.new.conn.ghost_name ≡ transaction.old.conn.ghost_name }
    ensures made { HasCleanDisk (state S.Store transaction.new.conn.now) → OnOk result (Makes (state S.Store transaction.old.conn.now) (state S.Store transaction.new.conn.now) (set_page row.now)) }
    ensures inside { HasCleanDisk (state S.Store transaction.new.conn.now) → OnOk result (IsTrue (state S.Store transaction.old.conn.now).in_transaction → IsTrue (state S.Store transaction.new.conn.now).in_transaction) }
    ensures kept { HasCleanDisk (state S.Store transaction.new.conn.now) → IsTrue (state S.Store transaction.old.conn.now).in_transaction → KeepsCommit (state S.Store transaction.old.conn.now) (state S.Store transaction.new.conn.now) }
    ensures survives { Survives (state S.Store transaction.old.conn.now) (state S.Store transaction.new.conn.now) (λ _. ⊥) }
{
    let id = whole(row.page_id, 0)?;
    let latest = whole(row.page_latest, 3)?;
    let len = whole(row.page_len, 4)?;
    run_set(
        transaction,
        id,
        row.page_namespace,
        row.page_title.as_str(),
        latest,
        len,
    )?;
    Ok(())
}

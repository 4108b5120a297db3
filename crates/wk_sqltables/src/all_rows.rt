//! All link rows of a page.
ghost use Rattle.std.specs.Prelude.{◌≡◌, true, pos, [], ◌∷◌, OnOk, IfOk, IsTrue};
ghost use Rattle.sqlite_value.specs.declared.value.Value.TheVariants.{Int};
ghost use Rattle.sqlite.specs.Held.{state};
ghost use Rattle.sqlite.specs.State.{HasCleanDisk, KeepsCommit, QueriesRowInside, Survives};
ghost use Rattle.wk_table_rules.specs.Rows.{StoreTables};
ghost use Rattle.wk_table_rules.specs.Changes.{has_page, namespace_of, set_rows};
ghost use Rattle.wk_sqltables.specs.Held.{Holds, Makes};
ghost use Rattle.wk_sqltables.specs.Rows.{AreRising};
ghost use Rattle.wk_sqltables.specs.Statements.{page_namespace_text};

use crate::links::{FromPage, LinkTable, set_links};
use crate::members::set_members;
use crate::redirects::set_redirect;
use sqlite::types::ValueRef;
use sqlite::{Alter, Error, Row, Transaction};
use wk_table_rows::PageRows;

fn run_find<S: Alter>(transaction: &mut Transaction<'_, S>, page: i64) -> Result<Row, Error>
    ensures same { transaction.new.conn.ghost_name ≡ transaction.old.conn.ghost_name }
    ensures runs { HasCleanDisk (state S.Store transaction.new.conn.now) → QueriesRowInside page_namespace_text (Int page ∷ []) (state S.Store transaction.old.conn.now) (state S.Store transaction.new.conn.now) result }
    ensures survives { Survives (state S.Store transaction.old.conn.now) (state S.Store transaction.new.conn.now) (λ _. ⊥) }
{
    transaction.query_row(
        "SELECT page_namespace FROM page WHERE page_id = ?1",
        &[ValueRef::Int(page)],
    )
}

/// The page of this number. The database refuses, with `QueryReturnedNoRows`, where it has none.
fn page_numbered<S: Alter>(
    transaction: &mut Transaction<'_, S>,
    page: u32,
) -> Result<FromPage, Error>
    ensures page { IfOk result (λ from. from.page ≡ page) }
    ensures namespace { HasCleanDisk (state S.Store transaction.new.conn.now) → IfOk result (λ from. (tables : StoreTables) → Holds (state S.Store transaction.old.conn.now) tables → has_page tables page ≡ true → from.namespace ≡ namespace_of tables page) }
    ensures same { transaction.new.conn.ghost_name ≡ transaction.old.conn.ghost_name }
    ensures made { HasCleanDisk (state S.Store transaction.new.conn.now) → OnOk result ((tables : StoreTables) → Holds (state S.Store transaction.old.conn.now) tables → Holds (state S.Store transaction.new.conn.now) tables) }
    ensures inside { HasCleanDisk (state S.Store transaction.new.conn.now) → OnOk result (IsTrue (state S.Store transaction.old.conn.now).in_transaction → IsTrue (state S.Store transaction.new.conn.now).in_transaction) }
    ensures kept { HasCleanDisk (state S.Store transaction.new.conn.now) → IsTrue (state S.Store transaction.old.conn.now).in_transaction → KeepsCommit (state S.Store transaction.old.conn.now) (state S.Store transaction.new.conn.now) }
    ensures survives { Survives (state S.Store transaction.old.conn.now) (state S.Store transaction.new.conn.now) (λ _. ⊥) }
{
    let row = run_find(transaction, i64::from(page))?;
    let namespace = row.get(0)?;
    Ok(FromPage { page, namespace })
}

/// Makes these all link rows of the page with this number.
pub fn set_rows<S: Alter>(
    transaction: &mut Transaction<'_, S>,
    page: u32,
    rows: &PageRows,
) -> Result<(), Error>
    ensures same { transaction.new.conn.ghost_name ≡ transaction.old.conn.ghost_name }
    ensures made { HasCleanDisk (state S.Store transaction.new.conn.now) → OnOk result (AreRising rows.now → Makes (state S.Store transaction.old.conn.now) (state S.Store transaction.new.conn.now) (set_rows page rows.now)) }
    ensures inside { HasCleanDisk (state S.Store transaction.new.conn.now) → OnOk result (IsTrue (state S.Store transaction.old.conn.now).in_transaction → IsTrue (state S.Store transaction.new.conn.now).in_transaction) }
    ensures kept { HasCleanDisk (state S.Store transaction.new.conn.now) → IsTrue (state S.Store transaction.old.conn.now).in_transaction → KeepsCommit (state S.Store transaction.old.conn.now) (state S.Store transaction.new.conn.now) }
    ensures survives { Survives (state S.Store transaction.old.conn.now) (state S.Store transaction.new.conn.now) (λ _. ⊥) }
{
    let from = page_numbered(transaction, page)?;
    set_links(transaction, LinkTable::Pagelinks, from, &rows.links)?;
    set_links(transaction, LinkTable::Templatelinks, from, &rows.templates)?;
    set_links(transaction, LinkTable::Existlinks, from, &rows.exists)?;
    set_members(transaction, page, &rows.members)?;
    set_redirect(transaction, page, &rows.redirect)
}

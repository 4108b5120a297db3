//! The edits of a change, and the transaction that they are made in.
ghost use Rattle.std.specs.Prelude.{◌≡◌, true, OnErr, OnOk, IsTrue, map};
ghost use Rattle.sqlite.specs.Held.{state};
ghost use Rattle.sqlite.specs.State.{HasCleanDisk, KeepsCommit, Survives};
ghost use Rattle.wk_table_rules.specs.Rows.{StoreTables};
ghost use Rattle.wk_table_rules.specs.Changes.{applied, fits};
ghost use Rattle.wk_tables.specs.Edits.{edit_of};
ghost use Rattle.wk_sqltables.specs.Held.{Makes};
ghost use Rattle.wk_sqltables.specs.Edits.{AreOrdered, IsOrdered, Keeps, MakesAll};

use crate::all_rows::set_rows;
use crate::jobs::{add_job, drop_job, set_job};
use crate::pages::set_page;
use crate::revisions::add_revision;
use crate::site::set_version;
use sqlite::{Alter, Connection, Error, ErrorCode, Transaction};
use std::alloc::Global;
use wk_tables::{Change, RowEdit};

/// Makes one edit.
fn make_edit<S: Alter>(
    alloc: Global,
    transaction: &mut Transaction<'_, S>,
    edit: &RowEdit,
) -> Result<(), Error>
    ensures same { transaction.new.conn.ghost_name ≡ transaction.old.conn.ghost_name }
    ensures made { HasCleanDisk (state S.Store transaction.new.conn.now) → OnOk result (IsOrdered (edit_of edit.now) → Makes (state S.Store transaction.old.conn.now) (state S.Store transaction.new.conn.now) (edit_of edit.now)) }
    ensures inside { HasCleanDisk (state S.Store transaction.new.conn.now) → OnOk result (IsTrue (state S.Store transaction.old.conn.now).in_transaction → IsTrue (state S.Store transaction.new.conn.now).in_transaction) }
    ensures kept { HasCleanDisk (state S.Store transaction.new.conn.now) → IsTrue (state S.Store transaction.old.conn.now).in_transaction → KeepsCommit (state S.Store transaction.old.conn.now) (state S.Store transaction.new.conn.now) }
    ensures survives { Survives (state S.Store transaction.old.conn.now) (state S.Store transaction.new.conn.now) (λ _. ⊥) }
{
    match edit {
        RowEdit::AddRevision(row) => add_revision(transaction, row),
        RowEdit::SetPage(row) => set_page(transaction, row),
        RowEdit::SetRows(page, rows) => set_rows(transaction, *page, rows),
        RowEdit::AddJob(row) => add_job(transaction, row),
        RowEdit::SetJob(row) => set_job(transaction, row),
        RowEdit::DropJob(id) => drop_job(transaction, *id),
        RowEdit::SetVersion(version) => set_version(alloc, transaction, *version),
    }
}

/// Makes the edits in order.
fn make_edits<S: Alter>(
    alloc: Global,
    transaction: &mut Transaction<'_, S>,
    edits: &[RowEdit],
) -> Result<(), Error>
    ensures same { transaction.new.conn.ghost_name ≡ transaction.old.conn.ghost_name }
    ensures made { HasCleanDisk (state S.Store transaction.new.conn.now) → OnOk result (MakesAll (state S.Store transaction.old.conn.now) (state S.Store transaction.new.conn.now) (map edit_of edits.now)) }
    ensures inside { HasCleanDisk (state S.Store transaction.new.conn.now) → OnOk result (IsTrue (state S.Store transaction.old.conn.now).in_transaction → IsTrue (state S.Store transaction.new.conn.now).in_transaction) }
    ensures kept { HasCleanDisk (state S.Store transaction.new.conn.now) → IsTrue (state S.Store transaction.old.conn.now).in_transaction → KeepsCommit (state S.Store transaction.old.conn.now) (state S.Store transaction.new.conn.now) }
    ensures survives { Survives (state S.Store transaction.old.conn.now) (state S.Store transaction.new.conn.now) (λ _. ⊥) }
{
    'edits: for edit in edits {
        make_edit(alloc, transaction, edit)?;
    }
    Ok(())
}

/// Makes the edits of the change in order, in one transaction, which an edit that is refused rolls back. A connection in a
/// transaction is refused with `TransactionState`.
pub fn make_change<S: Alter>(
    alloc: Global,
    connection: &mut Connection<S>,
    change: &Change,
) -> Result<(), Error>
    ensures made { HasCleanDisk (state S.Store connection.new) → OnOk result (AreOrdered change.now → (tables : StoreTables) → Keeps (state S.Store connection.old) tables → fits tables change.now ≡ true → Keeps (state S.Store connection.new) (applied tables change.now)) }
    ensures refused { HasCleanDisk (state S.Store connection.new) → IsTrue (state S.Store connection.new).is_open → OnErr result ((tables : StoreTables) → Keeps (state S.Store connection.old) tables → Keeps (state S.Store connection.new) tables) }
{
    if !connection.is_autocommit() {
        return Err(Error::SqliteFailure(ErrorCode::TransactionState));
    }
    let mut transaction = connection.transaction();
    make_edits(alloc, &mut transaction, &change.edits)?;
    transaction.commit()
}

//! A change of the tables as one transaction.
ghost use Rattle.std.specs.Prelude.{◌≡◌, true, false, IfErr, IsErr, IsTrue, OnErr, OnOk};
ghost use Rattle.sqlite.specs.Held.{state};
ghost use Rattle.sqlite.specs.State.{HasCleanDisk};
ghost use Rattle.wk_table_rules.specs.Rows.{StoreTables};
ghost use Rattle.wk_table_rules.specs.Changes.{applied, fits};
ghost use Rattle.wk_sqltables.specs.Edits.{Keeps};
ghost use Rattle.wk_sqlkeeper.specs.Causes.{cause_of};
ghost use Rattle.wk_sqlkeeper.specs.Numbers.{change_fits_columns};
ghost use Rattle.wk_sqlkeeper.specs.Rising.{change_rises};

use crate::answers::Permit;
use crate::cause::SqlCause;
use crate::numbers::change_fits_columns;
use crate::rising::change_rises;
use sqlite::{Alter, Connection, Constraint, Error, ErrorCode};
use std::alloc::Global;
use wk_tables::Change;

/// Makes the edits of the change in order, in one transaction, which an edit that is refused rolls back. A change whose link
/// rows don't rise is refused with `ConstraintViolation` before a statement, and one with a number of 2^63 or more, but for
/// moments and the version, with `IntegralValueOutOfRange`.
pub fn make_change<S: Alter>(
    alloc: Global,
    connection: &mut Connection<S>,
    change: &Change,
    _: Permit,
) -> Result<(), Error>
    ensures made { HasCleanDisk (state S.Store connection.new) → OnOk result ((tables : StoreTables) → Keeps (state S.Store connection.old) tables → fits tables change.now ≡ true → Keeps (state S.Store connection.new) (applied tables change.now)) }
    ensures refused { HasCleanDisk (state S.Store connection.new) → IsTrue (state S.Store connection.new).is_open → OnErr result ((tables : StoreTables) → Keeps (state S.Store connection.old) tables → Keeps (state S.Store connection.new) tables) }
    ensures out_of_order { change_rises change.now ≡ false → IsErr result × (connection.new ≡ connection.old) }
    ensures cause { change_rises change.now ≡ false → IfErr result (λ error. cause_of error ≡ SqlCause.Statement) }
    ensures out_of_range { change_rises change.now ≡ true → change_fits_columns change.now ≡ false → IsErr result × (connection.new ≡ connection.old) }
    ensures range_cause { change_rises change.now ≡ true → change_fits_columns change.now ≡ false → IfErr result (λ error. cause_of error ≡ SqlCause.Value) }
{
    if !change_rises(change) {
        return Err(Error::SqliteFailure(ErrorCode::ConstraintViolation(Constraint::Check)));
    }
    if !change_fits_columns(change) {
        return Err(Error::IntegralValueOutOfRange(0));
    }
    wk_sqltables::make_change(alloc, connection, change)
}

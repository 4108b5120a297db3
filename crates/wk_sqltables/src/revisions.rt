//! The statement on the table revision.
ghost use Rattle.std.specs.Prelude.{◌≡◌, pos, [], ◌∷◌, OnOk, IfOk, IsTrue};
ghost use Rattle.sqlite_value.specs.declared.value.Value.TheVariants.{Int, Text as TextValue};
ghost use Rattle.sqlite.specs.Held.{state};
ghost use Rattle.sqlite.specs.State.{ExecutesInside, HasCleanDisk, KeepsCommit, Survives};
ghost use Rattle.wk_table_rules.specs.Changes.{add_revision};
ghost use Rattle.wk_sqltables.specs.Entries.{stored_moment, stored_flag};
ghost use Rattle.wk_sqltables.specs.Held.{Makes};
ghost use Rattle.wk_sqltables.specs.Statements.{add_revision_text};

use crate::numbers::{stored_flag, stored_moment, whole};
use sqlite::types::ValueRef;
use sqlite::{Alter, Error, Transaction};
use wk_table_rows::RevisionRow;

/// The numbers of a revision as the database keeps them.
#[derive(Clone, Copy)]
struct Numbers {
    id: i64,
    page: i64,
    parent: i64,
    moment: i64,
    len: i64,
    gone: i64,
}

/// The numbers of the revision, or `IntegralValueOutOfRange` for the first that is 2^63 or more, but for the moment.
fn numbers_of(row: &RevisionRow) -> Result<Numbers, Error>
    ensures { IfOk result (λ numbers. numbers ≡ record { id = pos row.now.rev_id; page = pos row.now.rev_page; parent = pos row.now.rev_parent_id; moment = stored_moment row.now.rev_timestamp; len = pos row.now.rev_len; gone = stored_flag row.now.rev_gone }) }
{
    let id = whole(row.rev_id, 0)?;
    let page = whole(row.rev_page, 1)?;
    let parent = whole(row.rev_parent_id, 2)?;
    let len = whole(row.rev_len, 4)?;
    Ok(Numbers {
        id,
        page,
        parent,
        moment: stored_moment(row.rev_timestamp),
        len,
        gone: stored_flag(row.rev_gone),
    })
}

fn run_add<S: Alter>(
    transaction: &mut Transaction<'_, S>,
    numbers: Numbers,
    text: &str,
) -> Result<usize, Error>
    ensures same { transaction.new.conn.ghost_name ≡ transaction.old.conn.ghost_name }
    ensures runs { HasCleanDisk (state S.Store transaction.new.conn.now) → IsTrue (state S.Store transaction.old.conn.now).in_transaction → ExecutesInside 0 add_revision_text (Int numbers.id ∷ Int numbers.page ∷ Int numbers.parent ∷ Int numbers.moment ∷ Int numbers.len ∷ Int numbers.gone ∷ TextValue text.now ∷ []) (state S.Store transaction.old.conn.now) (state S.Store transaction.new.conn.now) result }
    ensures survives { Survives (state S.Store transaction.old.conn.now) (state S.Store transaction.new.conn.now) (λ _. ⊥) }
{
    transaction.execute(
        "INSERT INTO revision (rev_id, rev_page, rev_parent_id, rev_timestamp, rev_len, rev_gone, rev_text) VALUES (?1, ?2, ?3, ?4, ?5, ?6, ?7)",
        &[
            ValueRef::Int(numbers.id),
            ValueRef::Int(numbers.page),
            ValueRef::Int(numbers.parent),
            ValueRef::Int(numbers.moment),
            ValueRef::Int(numbers.len),
            ValueRef::Int(numbers.gone),
            ValueRef::Text(text.as_bytes()),
        ],
    )
}

/// Adds a revision. A number of 2^63 or more, but for the moment, is refused with `IntegralValueOutOfRange`, before the
/// statement.
pub fn add_revision<S: Alter>(
    transaction: &mut Transaction<'_, S>,
    row: &RevisionRow,
) -> Result<(), Error>
    ensures same { transaction.new.conn.ghost_name ≡ transaction.old.conn.ghost_name }
    ensures made { HasCleanDisk (state S.Store transaction.new.conn.now) → OnOk result (Makes (state S.Store transaction.old.conn.now) (state S.Store transaction.new.conn.now) (add_revision row.now)) }
    ensures inside { HasCleanDisk (state S.Store transaction.new.conn.now) → OnOk result (IsTrue (state S.Store transaction.old.conn.now).in_transaction → IsTrue (state S.Store transaction.new.conn.now).in_transaction) }
    ensures kept { HasCleanDisk (state S.Store transaction.new.conn.now) → IsTrue (state S.Store transaction.old.conn.now).in_transaction → KeepsCommit (state S.Store transaction.old.conn.now) (state S.Store transaction.new.conn.now) }
    ensures survives { Survives (state S.Store transaction.old.conn.now) (state S.Store transaction.new.conn.now) (λ _. ⊥) }
{
    let numbers = numbers_of(row)?;
    run_add(transaction, numbers, row.rev_text.as_str())?;
    Ok(())
}

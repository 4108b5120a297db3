//! The statements on the table job.
ghost use Rattle.std.specs.Prelude.{◌≡◌, pos, [], ◌∷◌, OnOk, IsTrue};
ghost use Rattle.sqlite_value.specs.declared.value.Value.TheVariants.{Int, Text as TextValue};
ghost use Rattle.sqlite.specs.Held.{state};
ghost use Rattle.sqlite.specs.State.{ExecutesInside, HasCleanDisk, KeepsCommit, Survives};
ghost use Rattle.wk_table_rules.specs.Changes.{add_job, set_job, drop_job};
ghost use Rattle.wk_sqltables.specs.Held.{Makes};
ghost use Rattle.wk_sqltables.specs.Statements.{add_job_text, set_job_text, drop_job_text};

use crate::numbers::whole;
use sqlite::types::ValueRef;
use sqlite::{Alter, Error, Transaction};
use wk_table_rows::JobRow;

fn run_add<'a, S: Alter>(
    transaction: &mut Transaction<'_, S>,
    id: i64,
    cmd: &'a str,
    namespace: i64,
    title: &'a str,
    params: &'a str,
) -> Result<usize, Error>
    ensures same { transaction.new.conn.ghost_name ≡ transaction.old.conn.ghost_name }
    ensures runs { HasCleanDisk (state S.Store transaction.new.conn.now) → IsTrue (state S.Store transaction.old.conn.now).in_transaction → ExecutesInside 0 add_job_text (Int id ∷ TextValue cmd.now ∷ Int namespace ∷ TextValue title.now ∷ TextValue params.now ∷ []) (state S.Store transaction.old.conn.now) (state S.Store transaction.new.conn.now) result }
    ensures survives { Survives (state S.Store transaction.old.conn.now) (state S.Store transaction.new.conn.now) (λ _. ⊥) }
{
    transaction.execute(
        "INSERT INTO job (job_id, job_cmd, job_namespace, job_title, job_params) VALUES (?1, ?2, ?3, ?4, ?5)",
        &[
            ValueRef::Int(id),
            ValueRef::Text(cmd.as_bytes()),
            ValueRef::Int(namespace),
            ValueRef::Text(title.as_bytes()),
            ValueRef::Text(params.as_bytes()),
        ],
    )
}

/// Adds a job. A number of 2^63 or more is refused with `IntegralValueOutOfRange`, before the statement.
pub fn add_job<S: Alter>(transaction: &mut Transaction<'_, S>, row: &JobRow) -> Result<(), Error>
    ensures same { transaction.new.conn.ghost_name ≡ transaction.old.conn.ghost_name }
    ensures made { HasCleanDisk (state S.Store transaction.new.conn.now) → OnOk result (Makes (state S.Store transaction.old.conn.now) (state S.Store transaction.new.conn.now) (add_job row.now)) }
    ensures inside { HasCleanDisk (state S.Store transaction.new.conn.now) → OnOk result (IsTrue (state S.Store transaction.old.conn.now).in_transaction → IsTrue (state S.Store transaction.new.conn.now).in_transaction) }
    ensures kept { HasCleanDisk (state S.Store transaction.new.conn.now) → IsTrue (state S.Store transaction.old.conn.now).in_transaction → KeepsCommit (state S.Store transaction.old.conn.now) (state S.Store transaction.new.conn.now) }
    ensures survives { Survives (state S.Store transaction.old.conn.now) (state S.Store transaction.new.conn.now) (λ _. ⊥) }
{
    let id = whole(row.job_id, 0)?;
    run_add(
        transaction,
        id,
        row.job_cmd.as_str(),
        row.job_namespace,
        row.job_title.as_str(),
        row.job_params.as_str(),
    )?;
    Ok(())
}

fn run_set<'a, S: Alter>(
    transaction: &mut Transaction<'_, S>,
    id: i64,
    cmd: &'a str,
    namespace: i64,
    title: &'a str,
    params: &'a str,
) -> Result<usize, Error>
    ensures same { transaction.new.conn.ghost_name ≡ transaction.old.conn.ghost_name }
    ensures runs { HasCleanDisk (state S.Store transaction.new.conn.now) → IsTrue (state S.Store transaction.old.conn.now).in_transaction → ExecutesInside 0 set_job_text (Int id ∷ TextValue cmd.now ∷ Int namespace ∷ TextValue title.now ∷ TextValue params.now ∷ []) (state S.Store transaction.old.conn.now) (state S.Store transaction.new.conn.now) result }
    ensures survives { Survives (state S.Store transaction.old.conn.now) (state S.Store transaction.new.conn.now) (λ _. ⊥) }
{
    transaction.execute(
        "UPDATE job SET job_cmd = ?2, job_namespace = ?3, job_title = ?4, job_params = ?5 WHERE job_id = ?1",
        &[
            ValueRef::Int(id),
            ValueRef::Text(cmd.as_bytes()),
            ValueRef::Int(namespace),
            ValueRef::Text(title.as_bytes()),
            ValueRef::Text(params.as_bytes()),
        ],
    )
}

/// Makes this the job of its number. A number of 2^63 or more is refused with `IntegralValueOutOfRange`, before the
/// statement.
pub fn set_job<S: Alter>(transaction: &mut Transaction<'_, S>, row: &JobRow) -> Result<(), Error>
    ensures same { transaction.new.conn.ghost_name ≡ transaction.old.conn.ghost_name }
    ensures made { HasCleanDisk (state S.Store transaction.new.conn.now) → OnOk result (Makes (state S.Store transaction.old.conn.now) (state S.Store transaction.new.conn.now) (set_job row.now)) }
    ensures inside { HasCleanDisk (state S.Store transaction.new.conn.now) → OnOk result (IsTrue (state S.Store transaction.old.conn.now).in_transaction → IsTrue (state S.Store transaction.new.conn.now).in_transaction) }
    ensures kept { HasCleanDisk (state S.Store transaction.new.conn.now) → IsTrue (state S.Store transaction.old.conn.now).in_transaction → KeepsCommit (state S.Store transaction.old.conn.now) (state S.Store transaction.new.conn.now) }
    ensures survives { Survives (state S.Store transaction.old.conn.now) (state S.Store transaction.new.conn.now) (λ _. ⊥) }
{
    let id = whole(row.job_id, 0)?;
    run_set(
        transaction,
        id,
        row.job_cmd.as_str(),
        row.job_namespace,
        row.job_title.as_str(),
        row.job_params.as_str(),
    )?;
    Ok(())
}

fn run_drop<S: Alter>(transaction: &mut Transaction<'_, S>, id: i64) -> Result<usize, Error>
    ensures same { transaction.new.conn.ghost_name ≡ transaction.old.conn.ghost_name }
    ensures runs { HasCleanDisk (state S.Store transaction.new.conn.now) → IsTrue (state S.Store transaction.old.conn.now).in_transaction → ExecutesInside 0 drop_job_text (Int id ∷ []) (state S.Store transaction.old.conn.now) (state S.Store transaction.new.conn.now) result }
    ensures survives { Survives (state S.Store transaction.old.conn.now) (state S.Store transaction.new.conn.now) (λ _. ⊥) }
{
    transaction.execute("DELETE FROM job WHERE job_id = ?1", &[ValueRef::Int(id)])
}

/// Takes the job with this number away. A number of 2^63 or more is refused with `IntegralValueOutOfRange`, before the
/// statement.
pub fn drop_job<S: Alter>(transaction: &mut Transaction<'_, S>, id: u64) -> Result<(), Error>
    ensures same { transaction.new.conn.ghost_name ≡ transaction.old.conn.ghost_name }
    ensures made { HasCleanDisk (state S.Store transaction.new.conn.now) → OnOk result (Makes (state S.Store transaction.old.conn.now) (state S.Store transaction.new.conn.now) (drop_job id)) }
    ensures inside { HasCleanDisk (state S.Store transaction.new.conn.now) → OnOk result (IsTrue (state S.Store transaction.old.conn.now).in_transaction → IsTrue (state S.Store transaction.new.conn.now).in_transaction) }
    ensures kept { HasCleanDisk (state S.Store transaction.new.conn.now) → IsTrue (state S.Store transaction.old.conn.now).in_transaction → KeepsCommit (state S.Store transaction.old.conn.now) (state S.Store transaction.new.conn.now) }
    ensures survives { Survives (state S.Store transaction.old.conn.now) (state S.Store transaction.new.conn.now) (λ _. ⊥) }
{
    let id = whole(id, 0)?;
    run_drop(transaction, id)?;
    Ok(())
}

//! The tables of a wiki in a database that is taken over: which are there, and those that are missing.
ghost use Rattle.std.specs.Prelude.{◌≡◌, ◌≢◌, true, [], count_by, IsTrue, OnErr, OnOk};
ghost use Rattle.sqlite.specs.Held.{state};
ghost use Rattle.sqlite.specs.State.{HasCleanDisk, IsLive, KeepsCommit};
ghost use Rattle.sqlite.specs.Steps.{IsEmpty};
ghost use Rattle.wk_table_rules.specs.Rows.{StoreTables, no_tables};
ghost use Rattle.wk_sqltables.specs.Edits.{Keeps};
ghost use Rattle.wk_sqltables.specs.Held.{Holds};
ghost use Rattle.wk_sqltables.specs.StoreSchema.{no_schema, store_schema};
ghost use Rattle.wk_sqlkeeper.specs.Kept.{StillKeeps};
ghost use Rattle.wk_sqlkeeper.specs.Making.{HasMade, Ran, redirect_made, schema_1, schema_2, schema_3, schema_4, schema_5, schema_6, schema_7, schema_8, schema_9};
ghost use Rattle.wk_sqlkeeper.specs.Older.{HoldsOlder, IsAsBefore, IsKnown, IsMade, KeepsOlder, shows_text};

use crate::texts::{
    categorylinks_text, existlinks_text, job_text, other_texts, page_text, pagelinks_text,
    redirect_text, revision_text, site_text, templatelinks_text,
};
use sqlite::types::ValueRef;
use sqlite::{Alter, Connection, Error, ErrorCode, Row, Transaction};

/// Which tables a database has.
#[derive(Clone, Copy, PartialEq, Eq)]
enum Found {
    None,
    AllButRedirect,
    All,
    Others,
}

/// Whether the row has the text of a table of a wiki, but for redirect.
fn is_other(row: &Row) -> bool {
    match row.get_ref(0) {
        Ok(ValueRef::Text(text)) => other_texts().iter().any(|known| known.as_bytes() == text),
        _ => false,
    }
}

fn is_redirect(row: &Row) -> bool
    ensures { result ≡ shows_text redirect_made row.now }
{
    match row.get_ref(0) {
        Ok(ValueRef::Text(text)) => redirect_text().as_bytes() == text,
        _ => false,
    }
}

/// How many of the texts are that of the table redirect.
fn redirects_in(texts: &[Row]) -> usize
    ensures { result ≡ count_by (shows_text redirect_made) texts.now }
{
    texts.iter().filter(|row| is_redirect(row)).count()
}

/// Which tables a database has whose schema has these texts. No two are the same, since no two tables have one name.
fn tables_of(texts: &[Row]) -> Found
    ensures none { texts.now ≡ [] → result ≡ Found.None }
    ensures all { result ≡ Found.All → count_by (shows_text redirect_made) texts.now ≡ 1 }
{
    let others = texts.iter().filter(|row| is_other(row)).count();
    let redirects = redirects_in(texts);
    match (texts.len(), others, redirects) {
        (0, _, _) => Found::None,
        (8, 8, _) => Found::AllButRedirect,
        (9, 8, 1) => Found::All,
        _ => Found::Others,
    }
}

/// Runs a statement without parameters.
fn run<S: Alter>(transaction: &mut Transaction<'_, S>, text: &str) -> Result<(), Error>
    ensures same { transaction.new.conn.ghost_name ≡ transaction.old.conn.ghost_name }
    ensures ran { HasCleanDisk (state S.Store transaction.new.conn.now) → IsTrue (state S.Store transaction.old.conn.now).in_transaction → Ran text.now (state S.Store transaction.old.conn.now) (state S.Store transaction.new.conn.now) result }
    ensures clean { HasCleanDisk (state S.Store transaction.new.conn.now) → HasCleanDisk (state S.Store transaction.old.conn.now) }
{
    match transaction.execute(text, &[]) {
        Ok(_) => Ok(()),
        Err(error) => Err(error),
    }
}

fn make_page<S: Alter>(transaction: &mut Transaction<'_, S>) -> Result<(), Error>
    ensures same { transaction.new.conn.ghost_name ≡ transaction.old.conn.ghost_name }
    ensures made { HasCleanDisk (state S.Store transaction.new.conn.now) → OnOk result (HasMade no_schema (state S.Store transaction.old.conn.now) → HasMade schema_1 (state S.Store transaction.new.conn.now)) }
    ensures never { HasCleanDisk (state S.Store transaction.new.conn.now) → IsTrue (state S.Store transaction.old.conn.now).in_transaction → OnOk result (¬ IsMade (state S.Store transaction.old.conn.now).now.schema) }
    ensures inside { HasCleanDisk (state S.Store transaction.new.conn.now) → OnOk result (IsTrue (state S.Store transaction.old.conn.now).in_transaction → IsTrue (state S.Store transaction.new.conn.now).in_transaction) }
    ensures kept { HasCleanDisk (state S.Store transaction.new.conn.now) → IsTrue (state S.Store transaction.old.conn.now).in_transaction → KeepsCommit (state S.Store transaction.old.conn.now) (state S.Store transaction.new.conn.now) }
    ensures clean { HasCleanDisk (state S.Store transaction.new.conn.now) → HasCleanDisk (state S.Store transaction.old.conn.now) }
{
    run(transaction, page_text())
}

fn make_revision<S: Alter>(transaction: &mut Transaction<'_, S>) -> Result<(), Error>
    ensures same { transaction.new.conn.ghost_name ≡ transaction.old.conn.ghost_name }
    ensures made { HasCleanDisk (state S.Store transaction.new.conn.now) → OnOk result (HasMade schema_1 (state S.Store transaction.old.conn.now) → HasMade schema_2 (state S.Store transaction.new.conn.now)) }
    ensures inside { HasCleanDisk (state S.Store transaction.new.conn.now) → OnOk result (IsTrue (state S.Store transaction.old.conn.now).in_transaction → IsTrue (state S.Store transaction.new.conn.now).in_transaction) }
    ensures kept { HasCleanDisk (state S.Store transaction.new.conn.now) → IsTrue (state S.Store transaction.old.conn.now).in_transaction → KeepsCommit (state S.Store transaction.old.conn.now) (state S.Store transaction.new.conn.now) }
    ensures clean { HasCleanDisk (state S.Store transaction.new.conn.now) → HasCleanDisk (state S.Store transaction.old.conn.now) }
{
    run(transaction, revision_text())
}

fn make_pagelinks<S: Alter>(transaction: &mut Transaction<'_, S>) -> Result<(), Error>
    ensures same { transaction.new.conn.ghost_name ≡ transaction.old.conn.ghost_name }
    ensures made { HasCleanDisk (state S.Store transaction.new.conn.now) → OnOk result (HasMade schema_2 (state S.Store transaction.old.conn.now) → HasMade schema_3 (state S.Store transaction.new.conn.now)) }
    ensures inside { HasCleanDisk (state S.Store transaction.new.conn.now) → OnOk result (IsTrue (state S.Store transaction.old.conn.now).in_transaction → IsTrue (state S.Store transaction.new.conn.now).in_transaction) }
    ensures kept { HasCleanDisk (state S.Store transaction.new.conn.now) → IsTrue (state S.Store transaction.old.conn.now).in_transaction → KeepsCommit (state S.Store transaction.old.conn.now) (state S.Store transaction.new.conn.now) }
    ensures clean { HasCleanDisk (state S.Store transaction.new.conn.now) → HasCleanDisk (state S.Store transaction.old.conn.now) }
{
    run(transaction, pagelinks_text())
}

fn make_templatelinks<S: Alter>(transaction: &mut Transaction<'_, S>) -> Result<(), Error>
    ensures same { transaction.new.conn.ghost_name ≡ transaction.old.conn.ghost_name }
    ensures made { HasCleanDisk (state S.Store transaction.new.conn.now) → OnOk result (HasMade schema_3 (state S.Store transaction.old.conn.now) → HasMade schema_4 (state S.Store transaction.new.conn.now)) }
    ensures inside { HasCleanDisk (state S.Store transaction.new.conn.now) → OnOk result (IsTrue (state S.Store transaction.old.conn.now).in_transaction → IsTrue (state S.Store transaction.new.conn.now).in_transaction) }
    ensures kept { HasCleanDisk (state S.Store transaction.new.conn.now) → IsTrue (state S.Store transaction.old.conn.now).in_transaction → KeepsCommit (state S.Store transaction.old.conn.now) (state S.Store transaction.new.conn.now) }
    ensures clean { HasCleanDisk (state S.Store transaction.new.conn.now) → HasCleanDisk (state S.Store transaction.old.conn.now) }
{
    run(transaction, templatelinks_text())
}

fn make_existlinks<S: Alter>(transaction: &mut Transaction<'_, S>) -> Result<(), Error>
    ensures same { transaction.new.conn.ghost_name ≡ transaction.old.conn.ghost_name }
    ensures made { HasCleanDisk (state S.Store transaction.new.conn.now) → OnOk result (HasMade schema_4 (state S.Store transaction.old.conn.now) → HasMade schema_5 (state S.Store transaction.new.conn.now)) }
    ensures inside { HasCleanDisk (state S.Store transaction.new.conn.now) → OnOk result (IsTrue (state S.Store transaction.old.conn.now).in_transaction → IsTrue (state S.Store transaction.new.conn.now).in_transaction) }
    ensures kept { HasCleanDisk (state S.Store transaction.new.conn.now) → IsTrue (state S.Store transaction.old.conn.now).in_transaction → KeepsCommit (state S.Store transaction.old.conn.now) (state S.Store transaction.new.conn.now) }
    ensures clean { HasCleanDisk (state S.Store transaction.new.conn.now) → HasCleanDisk (state S.Store transaction.old.conn.now) }
{
    run(transaction, existlinks_text())
}

fn make_categorylinks<S: Alter>(transaction: &mut Transaction<'_, S>) -> Result<(), Error>
    ensures same { transaction.new.conn.ghost_name ≡ transaction.old.conn.ghost_name }
    ensures made { HasCleanDisk (state S.Store transaction.new.conn.now) → OnOk result (HasMade schema_5 (state S.Store transaction.old.conn.now) → HasMade schema_6 (state S.Store transaction.new.conn.now)) }
    ensures inside { HasCleanDisk (state S.Store transaction.new.conn.now) → OnOk result (IsTrue (state S.Store transaction.old.conn.now).in_transaction → IsTrue (state S.Store transaction.new.conn.now).in_transaction) }
    ensures kept { HasCleanDisk (state S.Store transaction.new.conn.now) → IsTrue (state S.Store transaction.old.conn.now).in_transaction → KeepsCommit (state S.Store transaction.old.conn.now) (state S.Store transaction.new.conn.now) }
    ensures clean { HasCleanDisk (state S.Store transaction.new.conn.now) → HasCleanDisk (state S.Store transaction.old.conn.now) }
{
    run(transaction, categorylinks_text())
}

fn make_job<S: Alter>(transaction: &mut Transaction<'_, S>) -> Result<(), Error>
    ensures same { transaction.new.conn.ghost_name ≡ transaction.old.conn.ghost_name }
    ensures made { HasCleanDisk (state S.Store transaction.new.conn.now) → OnOk result (HasMade schema_6 (state S.Store transaction.old.conn.now) → HasMade schema_7 (state S.Store transaction.new.conn.now)) }
    ensures inside { HasCleanDisk (state S.Store transaction.new.conn.now) → OnOk result (IsTrue (state S.Store transaction.old.conn.now).in_transaction → IsTrue (state S.Store transaction.new.conn.now).in_transaction) }
    ensures kept { HasCleanDisk (state S.Store transaction.new.conn.now) → IsTrue (state S.Store transaction.old.conn.now).in_transaction → KeepsCommit (state S.Store transaction.old.conn.now) (state S.Store transaction.new.conn.now) }
    ensures clean { HasCleanDisk (state S.Store transaction.new.conn.now) → HasCleanDisk (state S.Store transaction.old.conn.now) }
{
    run(transaction, job_text())
}

fn make_site<S: Alter>(transaction: &mut Transaction<'_, S>) -> Result<(), Error>
    ensures same { transaction.new.conn.ghost_name ≡ transaction.old.conn.ghost_name }
    ensures made { HasCleanDisk (state S.Store transaction.new.conn.now) → OnOk result (HasMade schema_7 (state S.Store transaction.old.conn.now) → HasMade schema_8 (state S.Store transaction.new.conn.now)) }
    ensures inside { HasCleanDisk (state S.Store transaction.new.conn.now) → OnOk result (IsTrue (state S.Store transaction.old.conn.now).in_transaction → IsTrue (state S.Store transaction.new.conn.now).in_transaction) }
    ensures kept { HasCleanDisk (state S.Store transaction.new.conn.now) → IsTrue (state S.Store transaction.old.conn.now).in_transaction → KeepsCommit (state S.Store transaction.old.conn.now) (state S.Store transaction.new.conn.now) }
    ensures clean { HasCleanDisk (state S.Store transaction.new.conn.now) → HasCleanDisk (state S.Store transaction.old.conn.now) }
{
    run(transaction, site_text())
}

fn make_redirect<S: Alter>(transaction: &mut Transaction<'_, S>) -> Result<(), Error>
    ensures same { transaction.new.conn.ghost_name ≡ transaction.old.conn.ghost_name }
    ensures made { HasCleanDisk (state S.Store transaction.new.conn.now) → OnOk result (HasMade schema_8 (state S.Store transaction.old.conn.now) → HasMade schema_9 (state S.Store transaction.new.conn.now)) }
    ensures whole { HasCleanDisk (state S.Store transaction.new.conn.now) → OnOk result ((tables : StoreTables) → HoldsOlder (state S.Store transaction.old.conn.now) tables → Holds (state S.Store transaction.new.conn.now) tables) }
    ensures never { HasCleanDisk (state S.Store transaction.new.conn.now) → IsTrue (state S.Store transaction.old.conn.now).in_transaction → OnOk result (¬ (state S.Store transaction.old.conn.now).now.schema ≡ store_schema) }
    ensures inside { HasCleanDisk (state S.Store transaction.new.conn.now) → OnOk result (IsTrue (state S.Store transaction.old.conn.now).in_transaction → IsTrue (state S.Store transaction.new.conn.now).in_transaction) }
    ensures kept { HasCleanDisk (state S.Store transaction.new.conn.now) → IsTrue (state S.Store transaction.old.conn.now).in_transaction → KeepsCommit (state S.Store transaction.old.conn.now) (state S.Store transaction.new.conn.now) }
    ensures clean { HasCleanDisk (state S.Store transaction.new.conn.now) → HasCleanDisk (state S.Store transaction.old.conn.now) }
{
    run(transaction, redirect_text())
}

/// The number of a new store's version.
fn make_site_row<S: Alter>(transaction: &mut Transaction<'_, S>) -> Result<(), Error>
    ensures same { transaction.new.conn.ghost_name ≡ transaction.old.conn.ghost_name }
    ensures made { HasCleanDisk (state S.Store transaction.new.conn.now) → OnOk result (HasMade schema_9 (state S.Store transaction.old.conn.now) → Holds (state S.Store transaction.new.conn.now) no_tables) }
    ensures inside { HasCleanDisk (state S.Store transaction.new.conn.now) → OnOk result (IsTrue (state S.Store transaction.old.conn.now).in_transaction → IsTrue (state S.Store transaction.new.conn.now).in_transaction) }
    ensures kept { HasCleanDisk (state S.Store transaction.new.conn.now) → IsTrue (state S.Store transaction.old.conn.now).in_transaction → KeepsCommit (state S.Store transaction.old.conn.now) (state S.Store transaction.new.conn.now) }
    ensures clean { HasCleanDisk (state S.Store transaction.new.conn.now) → HasCleanDisk (state S.Store transaction.old.conn.now) }
{
    run(
        transaction,
        "INSERT INTO site (site_key, site_value) VALUES ('version', '2')",
    )
}

/// The tables page, revision, pagelinks and templatelinks.
fn make_first<S: Alter>(transaction: &mut Transaction<'_, S>) -> Result<(), Error>
    ensures same { transaction.new.conn.ghost_name ≡ transaction.old.conn.ghost_name }
    ensures made { HasCleanDisk (state S.Store transaction.new.conn.now) → OnOk result (HasMade no_schema (state S.Store transaction.old.conn.now) → HasMade schema_4 (state S.Store transaction.new.conn.now)) }
    ensures never { HasCleanDisk (state S.Store transaction.new.conn.now) → IsTrue (state S.Store transaction.old.conn.now).in_transaction → OnOk result (¬ IsMade (state S.Store transaction.old.conn.now).now.schema) }
    ensures inside { HasCleanDisk (state S.Store transaction.new.conn.now) → OnOk result (IsTrue (state S.Store transaction.old.conn.now).in_transaction → IsTrue (state S.Store transaction.new.conn.now).in_transaction) }
    ensures kept { HasCleanDisk (state S.Store transaction.new.conn.now) → IsTrue (state S.Store transaction.old.conn.now).in_transaction → KeepsCommit (state S.Store transaction.old.conn.now) (state S.Store transaction.new.conn.now) }
    ensures clean { HasCleanDisk (state S.Store transaction.new.conn.now) → HasCleanDisk (state S.Store transaction.old.conn.now) }
{
    make_page(transaction)?;
    make_revision(transaction)?;
    make_pagelinks(transaction)?;
    make_templatelinks(transaction)
}

/// The tables existlinks, categorylinks, job and site.
fn make_second<S: Alter>(transaction: &mut Transaction<'_, S>) -> Result<(), Error>
    ensures same { transaction.new.conn.ghost_name ≡ transaction.old.conn.ghost_name }
    ensures made { HasCleanDisk (state S.Store transaction.new.conn.now) → OnOk result (HasMade schema_4 (state S.Store transaction.old.conn.now) → HasMade schema_8 (state S.Store transaction.new.conn.now)) }
    ensures inside { HasCleanDisk (state S.Store transaction.new.conn.now) → OnOk result (IsTrue (state S.Store transaction.old.conn.now).in_transaction → IsTrue (state S.Store transaction.new.conn.now).in_transaction) }
    ensures kept { HasCleanDisk (state S.Store transaction.new.conn.now) → IsTrue (state S.Store transaction.old.conn.now).in_transaction → KeepsCommit (state S.Store transaction.old.conn.now) (state S.Store transaction.new.conn.now) }
    ensures clean { HasCleanDisk (state S.Store transaction.new.conn.now) → HasCleanDisk (state S.Store transaction.old.conn.now) }
{
    make_existlinks(transaction)?;
    make_categorylinks(transaction)?;
    make_job(transaction)?;
    make_site(transaction)
}

/// All tables, in their order, and the version.
fn make_all<S: Alter>(transaction: &mut Transaction<'_, S>) -> Result<(), Error>
    ensures same { transaction.new.conn.ghost_name ≡ transaction.old.conn.ghost_name }
    ensures made { HasCleanDisk (state S.Store transaction.new.conn.now) → OnOk result (HasMade no_schema (state S.Store transaction.old.conn.now) → Holds (state S.Store transaction.new.conn.now) no_tables) }
    ensures never { HasCleanDisk (state S.Store transaction.new.conn.now) → IsTrue (state S.Store transaction.old.conn.now).in_transaction → OnOk result (¬ IsMade (state S.Store transaction.old.conn.now).now.schema) }
    ensures inside { HasCleanDisk (state S.Store transaction.new.conn.now) → OnOk result (IsTrue (state S.Store transaction.old.conn.now).in_transaction → IsTrue (state S.Store transaction.new.conn.now).in_transaction) }
    ensures kept { HasCleanDisk (state S.Store transaction.new.conn.now) → IsTrue (state S.Store transaction.old.conn.now).in_transaction → KeepsCommit (state S.Store transaction.old.conn.now) (state S.Store transaction.new.conn.now) }
    ensures clean { HasCleanDisk (state S.Store transaction.new.conn.now) → HasCleanDisk (state S.Store transaction.old.conn.now) }
{
    make_first(transaction)?;
    make_second(transaction)?;
    make_redirect(transaction)?;
    make_site_row(transaction)
}

fn make_missing<S: Alter>(transaction: &mut Transaction<'_, S>, found: Found) -> Result<(), Error>
    ensures same { transaction.new.conn.ghost_name ≡ transaction.old.conn.ghost_name }
    ensures made { HasCleanDisk (state S.Store transaction.new.conn.now) → OnOk result (found ≡ Found.None → HasMade no_schema (state S.Store transaction.old.conn.now) → Holds (state S.Store transaction.new.conn.now) no_tables) }
    ensures whole { HasCleanDisk (state S.Store transaction.new.conn.now) → OnOk result (found ≢ Found.All → (tables : StoreTables) → HoldsOlder (state S.Store transaction.old.conn.now) tables → Holds (state S.Store transaction.new.conn.now) tables) }
    ensures all { HasCleanDisk (state S.Store transaction.new.conn.now) → IsTrue (state S.Store transaction.old.conn.now).in_transaction → OnOk result ((state S.Store transaction.old.conn.now).now.schema ≡ store_schema → found ≡ Found.All) }
    ensures inside { HasCleanDisk (state S.Store transaction.new.conn.now) → OnOk result (IsTrue (state S.Store transaction.old.conn.now).in_transaction → IsTrue (state S.Store transaction.new.conn.now).in_transaction) }
    ensures kept { HasCleanDisk (state S.Store transaction.new.conn.now) → IsTrue (state S.Store transaction.old.conn.now).in_transaction → KeepsCommit (state S.Store transaction.old.conn.now) (state S.Store transaction.new.conn.now) }
    ensures clean { HasCleanDisk (state S.Store transaction.new.conn.now) → HasCleanDisk (state S.Store transaction.old.conn.now) }
{
    match found {
        Found::None => make_all(transaction),
        Found::AllButRedirect => make_redirect(transaction),
        Found::All => Ok(()),
        Found::Others => Err(Error::SqliteFailure(ErrorCode::NotADatabase)),
    }
}

/// What holds of any connection. Does nothing.
fn is_live<S: Alter>(connection: &Connection<S>)
    ensures { IsLive (state S.Store connection.now) }
{
    let _ = connection.schema();
}

/// Makes the tables of a wiki that are missing, all in one transaction. A database with other tables, or with these in
/// another shape, is refused with `NotADatabase`, and a connection in a transaction with `TransactionState`.
pub fn make_tables<S: Alter>(connection: &mut Connection<S>) -> Result<(), Error>
    ensures in_transaction { connection.old.in_transaction ≡ true → (result ≡ Err (Error.SqliteFailure ErrorCode.TransactionState)) × (connection.new ≡ connection.old) }
    ensures made { HasCleanDisk (state S.Store connection.new) → OnOk result (IsEmpty (state S.Store connection.old) → Keeps (state S.Store connection.new) no_tables) }
    ensures whole { HasCleanDisk (state S.Store connection.new) → OnOk result ((tables : StoreTables) → KeepsOlder (state S.Store connection.old) tables → Keeps (state S.Store connection.new) tables) }
    ensures kept { HasCleanDisk (state S.Store connection.new) → OnOk result (StillKeeps (state S.Store connection.old) (state S.Store connection.new)) }
    ensures stays { HasCleanDisk (state S.Store connection.new) → IsTrue (state S.Store connection.new).is_open → OnErr result (IsKnown (state S.Store connection.old).now.schema → (state S.Store connection.old).now ≡ (state S.Store connection.old).committed → IsAsBefore (state S.Store connection.old) (state S.Store connection.new)) }
{
    if !connection.is_autocommit() {
        return Err(Error::SqliteFailure(ErrorCode::TransactionState));
    }
    is_live(connection);
    let texts = connection.query_all("SELECT sql FROM sqlite_schema WHERE sql IS NOT NULL", &[])?;
    let found = tables_of(&texts);
    if found == Found::All {
        return Ok(());
    }
    let mut transaction = connection.transaction();
    make_missing(&mut transaction, found)?;
    transaction.commit()
}

//! The keeper over a database.
ghost use Rattle.std.specs.Prelude.{◌≡◌, ◌≢◌, ◌↔◌, ◌≤◌, None, Some, true, false, is_some, IfErr, IfOk, IfSome, IsErr, IsOk, IsSome, IsTrue, OnErr, OnOk};
ghost use Rattle.sqlite.specs.Held.{state};
ghost use Rattle.sqlite.specs.State.{HasCleanDisk};
ghost use Rattle.sqlite.specs.Steps.{IsEmpty};
ghost use Rattle.wk_base.specs.Faults.{Rose};
ghost use Rattle.wk_table_rules.specs.Changes.{applied, fits};
ghost use Rattle.wk_table_rules.specs.Rows.{StoreTables, no_tables};
ghost use Rattle.wk_keeper.specs.CallCounts.{CountsOne};
ghost use Rattle.wk_sqltables.specs.Edits.{Keeps};
ghost use Rattle.wk_sqlkeeper.specs.Causes.{cause_of};
ghost use Rattle.wk_sqlkeeper.specs.Kept.{IsInRange, StillKeeps};
ghost use Rattle.wk_sqlkeeper.specs.Numbers.{change_fits_columns};
ghost use Rattle.wk_sqlkeeper.specs.Older.{IsAsBefore, IsKnown, KeepsOlder};
ghost use Rattle.wk_sqlkeeper.specs.Rising.{change_rises};
ghost use Rattle.wk_sqlkeeper.specs.SqlKeeper.{connection_of, sql_calls, sql_cause, sql_faults, sql_told, sql_whole};

use crate::adoption::make_tables;
use crate::answers::{Calls, refusal_of};
use crate::cause::{SqlCause, cause_of};
use crate::changes::make_change;
use crate::loading::load_tables;
use sqlite::{Alter, Connection, Error, ErrorCode};
use std::alloc::Global;
use wk_keeper::{Keeper, KeeperRefusal};
use wk_tables::{Change, Tables};

/// A keeper of the tables of a wiki in a SQLite database. It tells no tables, and it isn't whole.
pub struct SqlKeeper<S: Alter> {
    connection: Connection<S>,
    alloc: Global,
    calls: Calls,
}

// It is written out, so that a caller does not prove again how a connection is dropped.
impl<S: Alter + Drop> Drop for SqlKeeper<S> {
    fn drop(self) {
        let SqlKeeper {
            connection: _,
            alloc: _,
            calls: _,
        } = self;
    }
}

/// The keeper of the connection, before its first call, where its tables were made, or else the connection again, and why.
fn kept<S: Alter + Drop>(
    alloc: Global,
    connection: Connection<S>,
    made: Result<(), Error>,
) -> Result<SqlKeeper<S>, (Connection<S>, SqlCause)>
    ensures adopted { IfOk result (λ keeper. IsOk made × (connection_of keeper ≡ connection)) }
    ensures no_faults { IfOk result (λ keeper. sql_faults keeper ≡ 0) }
    ensures no_calls { IfOk result (λ keeper. sql_calls keeper ≡ Some 0) }
    ensures no_cause { IfOk result (λ keeper. sql_cause keeper ≡ None) }
    ensures handed_back { IfErr result (λ e. IsErr made × (e.0 ≡ connection)) }
    ensures cause { IfErr result (λ e. IfErr made (λ error. e.1 ≡ cause_of error)) }
{
    match made {
        Ok(()) => Ok(SqlKeeper {
            connection,
            alloc,
            calls: Calls::new(),
        }),
        Err(error) => Err((connection, cause_of(error))),
    }
}

impl<S: Alter + Drop> SqlKeeper<S> {
    /// The keeper of the tables in the connection's database, with no faults. Where the database has no tables, those of
    /// a new store are made, of version 2, in one transaction; where it has those of a store but for redirect, as one of
    /// version 1 may, that one is made.
    ///
    /// `Failed` comes where the database refuses, where it has other tables, or these in another shape, and where a
    /// transaction is open; `Memory` may come. At a refusal the connection is handed back, and the tables are as before.
    ///
    /// Whatever tables the database keeps that were made in their own order, with redirect or without, the keeper has them.
    pub fn adopt(
        alloc: Global,
        connection: Connection<S>,
    ) -> Result<SqlKeeper<S>, (Connection<S>, KeeperRefusal)>
        ensures no_faults { IfOk result (λ keeper. sql_faults keeper ≡ 0) }
        ensures in_transaction { connection.in_transaction ≡ true → result ≡ Err (connection, KeeperRefusal.Failed) }
        ensures blank { IfOk result (λ keeper. HasCleanDisk (state S.Store (connection_of keeper)) → IsEmpty (state S.Store connection) → Keeps (state S.Store (connection_of keeper)) no_tables) }
        ensures older { IfOk result (λ keeper. HasCleanDisk (state S.Store (connection_of keeper)) → (tables : StoreTables) → KeepsOlder (state S.Store connection) tables → Keeps (state S.Store (connection_of keeper)) tables) }
        ensures kept { IfOk result (λ keeper. HasCleanDisk (state S.Store (connection_of keeper)) → StillKeeps (state S.Store connection) (state S.Store (connection_of keeper))) }
        ensures stays { IfErr result (λ e. HasCleanDisk (state S.Store e.0) → IsTrue (state S.Store e.0).is_open → IsKnown (state S.Store connection).now.schema → (state S.Store connection).now ≡ (state S.Store connection).committed → IsAsBefore (state S.Store connection) (state S.Store e.0)) }
    {
        match SqlKeeper::adopt_or_cause(alloc, connection) {
            Ok(keeper) => Ok(keeper),
            Err((connection, cause)) => Err((connection, refusal_of(cause))),
        }
    }

    /// As `adopt`, and a refusal tells its cause: `OtherTables` where the database has other tables, or these in another
    /// shape, `Statement` where a transaction is open, another where the database refuses, or memory is wanting.
    pub fn adopt_or_cause(
        alloc: Global,
        mut connection: Connection<S>,
    ) -> Result<SqlKeeper<S>, (Connection<S>, SqlCause)>
        ensures no_faults { IfOk result (λ keeper. sql_faults keeper ≡ 0) }
        ensures no_calls { IfOk result (λ keeper. sql_calls keeper ≡ Some 0) }
        ensures no_cause { IfOk result (λ keeper. sql_cause keeper ≡ None) }
        ensures in_transaction { connection.in_transaction ≡ true → result ≡ Err (connection, SqlCause.Statement) }
        ensures blank { IfOk result (λ keeper. HasCleanDisk (state S.Store (connection_of keeper)) → IsEmpty (state S.Store connection) → Keeps (state S.Store (connection_of keeper)) no_tables) }
        ensures older { IfOk result (λ keeper. HasCleanDisk (state S.Store (connection_of keeper)) → (tables : StoreTables) → KeepsOlder (state S.Store connection) tables → Keeps (state S.Store (connection_of keeper)) tables) }
        ensures kept { IfOk result (λ keeper. HasCleanDisk (state S.Store (connection_of keeper)) → StillKeeps (state S.Store connection) (state S.Store (connection_of keeper))) }
        ensures stays { IfErr result (λ e. HasCleanDisk (state S.Store e.0) → IsTrue (state S.Store e.0).is_open → IsKnown (state S.Store connection).now.schema → (state S.Store connection).now ≡ (state S.Store connection).committed → IsAsBefore (state S.Store connection) (state S.Store e.0)) }
    {
        let made = make_tables(&mut connection);
        kept(alloc, connection, made)
    }
}

impl<S: Alter> SqlKeeper<S> {
    /// Gives the connection back. Takes no memory.
    pub fn release(self) -> Connection<S>
        ensures { result ≡ connection_of self }
    {
        let SqlKeeper {
            connection,
            alloc: _,
            calls: _,
        } = self;
        connection
    }

    /// How many calls have failed. It stops at the end of `u64`.
    pub fn faults(&self) -> u64
        ensures { result ≡ sql_faults self.now }
    {
        self.calls.faults()
    }

    /// Why the last call was refused, and `None` where it wasn't.
    pub fn cause(&self) -> Option<SqlCause>
        ensures { result ≡ sql_cause self.now }
    {
        self.calls.cause()
    }
}

impl<S: Alter + Drop> Keeper for SqlKeeper<S> {
    ghost told = { sql_told };

    ghost faults = { sql_faults };

    ghost is_whole = { sql_whole };

    ghost calls = { sql_calls };

    /// The tables, each read by one query. `Failed` also comes where a value doesn't fit the field of its row; `cause`
    /// tells why.
    fn load(&mut self) -> Result<Tables, KeeperRefusal>
        ensures given { IfOk result (λ tables. IfSome (sql_told self.old) (λ kept. tables.tables ≡ kept)) }
        ensures tables { sql_told self.new ≡ sql_told self.old }
        ensures stays_whole { sql_whole self.new ≡ sql_whole self.old }
        ensures never_falls { sql_faults self.old ≤ sql_faults self.new }
        ensures whole { sql_whole self.old ≡ true → sql_faults self.new ≡ sql_faults self.old }
        ensures no_fault { result ≢ Err KeeperRefusal.Failed → sql_faults self.new ≡ sql_faults self.old }
        ensures cause { result ≡ Err KeeperRefusal.Failed → Rose (sql_faults self.old) (sql_faults self.new) }
        ensures one_call { OnOk result (CountsOne (sql_calls self.old) (sql_calls self.new)) }
        ensures failed_call { result ≡ Err KeeperRefusal.Failed → CountsOne (sql_calls self.old) (sql_calls self.new) }
        ensures no_call { result ≡ Err KeeperRefusal.Memory → sql_calls self.new ≡ sql_calls self.old }

        ensures no_cause { OnOk result (sql_cause self.new ≡ None) }
        ensures why { IsErr result → IsSome (sql_cause self.new) }
        ensures memory { (result ≡ Err KeeperRefusal.Memory) ↔ (sql_cause self.new ≡ Some SqlCause.Memory) }
        ensures read { HasCleanDisk (state S.Store (connection_of self.new)) → IfOk result (λ loaded. (tables : StoreTables) → Keeps (state S.Store (connection_of self.old)) tables → IsInRange tables → loaded.tables ≡ tables) }
        ensures kept { HasCleanDisk (state S.Store (connection_of self.new)) → OnOk result (StillKeeps (state S.Store (connection_of self.old)) (state S.Store (connection_of self.new))) }
        ensures stays { HasCleanDisk (state S.Store (connection_of self.new)) → IsTrue (state S.Store (connection_of self.new)).is_open → OnErr result (StillKeeps (state S.Store (connection_of self.old)) (state S.Store (connection_of self.new))) }
    {
        let made = self.calls.made();
        let permit = self.calls.permit();
        let answer = load_tables(self.alloc, &mut self.connection, permit);
        self.calls.answered(made, answer)
    }

    /// Makes the change in one transaction, which is on the disk before the answer is given. `Failed` comes of two kinds of
    /// change before a statement: where a page's link rows aren't in the order of their titles or have one twice, and where a
    /// number of a row is 2^63 or more, but for moments. Otherwise it comes where the database refuses for another cause than
    /// memory; `cause` tells why.
    ///
    /// Whatever tables the database keeps that were made in their own order, at `Ok` it keeps what the change makes of them,
    /// and after a refusal the same ones, where the disk gives back what was written.
    fn apply(&mut self, change: &Change) -> Result<(), KeeperRefusal>
        requires { IfSome (sql_told self.old) (λ kept. fits kept change.now ≡ true) }
        ensures made { OnOk result (IfSome (sql_told self.old) (λ kept. sql_told self.new ≡ Some (applied kept change.now))) }
        ensures refused { OnErr result (sql_told self.new ≡ sql_told self.old) }
        ensures tells { is_some (sql_told self.new) ≡ is_some (sql_told self.old) }
        ensures stays_whole { sql_whole self.new ≡ sql_whole self.old }
        ensures never_falls { sql_faults self.old ≤ sql_faults self.new }
        ensures whole { sql_whole self.old ≡ true → sql_faults self.new ≡ sql_faults self.old }
        ensures no_fault { result ≢ Err KeeperRefusal.Failed → sql_faults self.new ≡ sql_faults self.old }
        ensures cause { result ≡ Err KeeperRefusal.Failed → Rose (sql_faults self.old) (sql_faults self.new) }
        ensures one_call { OnOk result (CountsOne (sql_calls self.old) (sql_calls self.new)) }
        ensures failed_call { result ≡ Err KeeperRefusal.Failed → CountsOne (sql_calls self.old) (sql_calls self.new) }
        ensures no_call { result ≡ Err KeeperRefusal.Memory → sql_calls self.new ≡ sql_calls self.old }

        ensures no_cause { OnOk result (sql_cause self.new ≡ None) }
        ensures why { IsErr result → IsSome (sql_cause self.new) }
        ensures memory { (result ≡ Err KeeperRefusal.Memory) ↔ (sql_cause self.new ≡ Some SqlCause.Memory) }
        ensures kept { HasCleanDisk (state S.Store (connection_of self.new)) → OnOk result ((tables : StoreTables) → Keeps (state S.Store (connection_of self.old)) tables → fits tables change.now ≡ true → Keeps (state S.Store (connection_of self.new)) (applied tables change.now)) }
        ensures undone { HasCleanDisk (state S.Store (connection_of self.new)) → IsTrue (state S.Store (connection_of self.new)).is_open → OnErr result ((tables : StoreTables) → Keeps (state S.Store (connection_of self.old)) tables → Keeps (state S.Store (connection_of self.new)) tables) }
        ensures out_of_order { change_rises change.now ≡ false → (result ≡ Err KeeperRefusal.Failed) × (connection_of self.new ≡ connection_of self.old) × (sql_cause self.new ≡ Some SqlCause.Statement) }
        ensures out_of_range { change_rises change.now ≡ true → change_fits_columns change.now ≡ false → (result ≡ Err KeeperRefusal.Failed) × (connection_of self.new ≡ connection_of self.old) × (sql_cause self.new ≡ Some SqlCause.Value) }
    {
        let made = self.calls.made();
        let permit = self.calls.permit();
        let answer = make_change(self.alloc, &mut self.connection, change, permit);
        self.calls.answered(made, answer)
    }
}

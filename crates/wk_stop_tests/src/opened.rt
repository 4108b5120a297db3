//! Keepers over databases, and changes that they make.
use crate::samples::{Step, change};
use sqlite::{Alter, Connection, MemStore};
use std::alloc::Global;
use std::test::Fail;
use wk_keeper::{Keeper, KeeperRefusal};
use wk_sqlkeeper::SqlKeeper;
use wk_tables::TableRows;

/// A keeper over a new database in memory.
pub fn new_keeper(alloc: Global) -> Result<SqlKeeper<MemStore>, Fail> {
    adopted(alloc, Connection::open_in_memory(alloc)?)
}

/// The keeper of the connection.
pub fn adopted<S: Alter + Drop>(
    alloc: Global,
    connection: Connection<S>,
) -> Result<SqlKeeper<S>, Fail> {
    match SqlKeeper::adopt(alloc, connection) {
        Ok(keeper) => Ok(keeper),
        Err((_, _)) => Err(Fail::from("the keeper was refused")),
    }
}

/// The rows of the keeper's tables, where it gives them.
pub fn rows_of<K: Keeper>(keeper: &mut K) -> Option<TableRows> {
    let Ok(tables) = keeper.load() else {
        return None;
    };
    tables.rows().ok()
}

/// Makes the steps as one change of the keeper's.
pub fn make_change<S: Alter + Drop>(
    alloc: Global,
    keeper: &mut SqlKeeper<S>,
    steps: &[Step],
) -> Result<Result<(), KeeperRefusal>, Fail> {
    let change = change(alloc, steps)?;
    Ok(keeper.apply(&change))
}

//! A file that is opened as a store.
ghost use Rattle.std.specs.Prelude.{◌≡◌, IfOk, true};
ghost use Rattle.std.specs.IoError.{error_kind};
ghost use Rattle.wk_sqlkeeper.specs.SqlKeeper.{sql_faults};
ghost use Rattle.wk_vault.specs.Causes.{look_refusal};
ghost use Rattle.wk_vault.specs.Opening.{may_open};

use crate::cause::{Refusal, StoreCause, refusal_of, refusal_of_cause};
use crate::start::{FileKind, found_at};
use crate::tells::{tell_lost, tell_new};
use crate::verdict::judged;
use sqlite::{Alter, Connection, File, FileStore};
use std::alloc::Global;
use std::io::{self, ErrorKind};
use wk_sqlkeeper::SqlKeeper;
use wk_wal::LogKind;

/// What it means that a file or its log can't be looked at.
fn refusal_of_look(error: io::Error) -> Refusal
    ensures { result ≡ look_refusal (error_kind error) }
{
    match error.kind() {
        ErrorKind::OutOfMemory => Refusal::Memory,
        _ => Refusal::Because(StoreCause::CannotOpen),
    }
}

/// The connection to the database in the file. What stands at the name was judged before, since a file that isn't there is
/// made, and a log beside one that is empty is lost.
fn connected(
    rt: &HostRuntime,
    name: &str,
    file: FileKind,
    log: LogKind,
    makes: bool,
) -> Result<Connection<FileStore<File>>, Refusal>
    requires judged { may_open file log makes ≡ true }
{
    Connection::open(rt, name).map_err(refusal_of)
}

/// The keeper in memory of its own.
fn boxed<S: Alter + Drop>(alloc: Global, keeper: SqlKeeper<S>) -> Result<Box<SqlKeeper<S>>, Refusal>
    ensures { IfOk result (λ kept. kept.value ≡ keeper) }
{
    match Box::new(alloc, keeper) {
        Ok(kept) => Ok(kept),
        Err(_) => Err(Refusal::Memory),
    }
}

/// The keeper of the database. A connection that is refused is let go, and its log isn't copied.
fn adopted<S: Alter + Drop>(
    alloc: Global,
    connection: Connection<S>,
) -> Result<Box<SqlKeeper<S>>, Refusal>
    ensures { IfOk result (λ keeper. sql_faults keeper.value ≡ 0) }
{
    match SqlKeeper::adopt_or_cause(alloc, connection) {
        Ok(keeper) => boxed(alloc, keeper),
        Err((_, cause)) => Err(refusal_of_cause(cause)),
    }
}

/// The keeper of the store in the file of this name. A file that is missing or empty becomes a new store where one is to be
/// made and no log lies beside it, and that is told; it is told too where a part of the log is left out.
pub fn opened(
    rt: &HostRuntime,
    name: &str,
    makes: bool,
) -> Result<Box<SqlKeeper<FileStore<File>>>, Refusal>
    ensures { IfOk result (λ keeper. sql_faults keeper.value ≡ 0) }
{
    let found = found_at(rt, name).map_err(refusal_of_look)?;
    let new = judged(found.file, found.log, makes).map_err(Refusal::Because)?;
    let connection = connected(rt, name, found.file, found.log, makes)?;
    tell_lost(rt, name, found.lost);
    let keeper = adopted(rt.alloc(), connection)?;
    if new {
        tell_new(rt, name);
    }
    Ok(keeper)
}

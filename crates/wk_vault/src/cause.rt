//! Why a file isn't opened as a store.
ghost use Rattle.std.specs.Prelude.{◌≡◌, ◌↔◌};
ghost use Rattle.wk_vault.specs.Causes.{adopt_refusal, open_refusal};

use sqlite::{Error as SqlError, ErrorCode};
use thiserror::Error;
use wk_sqlkeeper::SqlCause;

/// Why a file isn't opened as a store.
#[derive(Clone, Copy, Debug, PartialEq, Eq, Error)]
pub enum StoreCause {
    /// Another process, or another part of this one, has the store open.
    #[error("the store is in use")]
    InUse,
    /// The system doesn't open the file, or doesn't make it where there is none.
    #[error("the store's file can't be opened")]
    CannotOpen,
    /// The file has something else than a sound SQLite database.
    #[error("the store's file isn't a sound SQLite database")]
    NoDatabase,
    /// The database has other tables than a wiki, or these in another shape, or those of a new store can't be made in it.
    #[error("the store's file isn't a wiki's")]
    OtherTables,
    /// The disk failed.
    #[error("the disk of the store failed")]
    DiskFailed,
    /// The disk is full.
    #[error("the disk of the store is full")]
    DiskFull,
    /// There is no store, and none is to be made.
    #[error("there is no store of this name")]
    NoStore,
    /// The file is missing or empty, and its log has something.
    #[error("the store's file is missing or empty, and its log isn't")]
    LogAlone,
    /// What lies in the place of the log is none, or is the log of another database.
    #[error("the store's log isn't one, or is another database's")]
    OtherLog,
}

/// Why a store isn't opened.
#[derive(Clone, Copy, PartialEq, Eq)]
pub enum Refusal {
    /// Memory ran out.
    Memory,
    /// The file, its disk, or who has it open.
    Because(StoreCause),
}

/// What a database that isn't opened for this error means: want of memory exactly where memory was wanting, and a store
/// in use exactly where another has it open.
pub fn refusal_of(error: SqlError) -> Refusal
    ensures memory { (result ≡ Refusal.Memory) ↔ (error ≡ SqlError.SqliteFailure ErrorCode.OutOfMemory) }
    ensures in_use { (result ≡ Refusal.Because StoreCause.InUse) ↔ (error ≡ SqlError.SqliteFailure ErrorCode.DatabaseBusy) }
    ensures which { result ≡ open_refusal error }
{
    match error {
        SqlError::SqliteFailure(ErrorCode::OutOfMemory) => Refusal::Memory,
        SqlError::SqliteFailure(ErrorCode::DatabaseBusy) => Refusal::Because(StoreCause::InUse),
        SqlError::SqliteFailure(ErrorCode::CannotOpen) => Refusal::Because(StoreCause::CannotOpen),
        SqlError::SqliteFailure(ErrorCode::SystemIoFailure) => {
            Refusal::Because(StoreCause::DiskFailed)
        }
        SqlError::SqliteFailure(ErrorCode::DiskFull) => Refusal::Because(StoreCause::DiskFull),
        _ => Refusal::Because(StoreCause::NoDatabase),
    }
}

/// What it means that a database isn't taken over for this cause.
pub fn refusal_of_cause(cause: SqlCause) -> Refusal
    ensures { result ≡ adopt_refusal cause }
{
    match cause {
        SqlCause::Memory => Refusal::Memory,
        SqlCause::DiskFull => Refusal::Because(StoreCause::DiskFull),
        SqlCause::DiskFailed | SqlCause::Closed => Refusal::Because(StoreCause::DiskFailed),
        SqlCause::Damaged => Refusal::Because(StoreCause::NoDatabase),
        SqlCause::Locked => Refusal::Because(StoreCause::InUse),
        SqlCause::OtherTables | SqlCause::Value | SqlCause::NoRow | SqlCause::Statement => {
            Refusal::Because(StoreCause::OtherTables)
        }
    }
}

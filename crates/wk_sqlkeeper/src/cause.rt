//! Why a database refused.
ghost use Rattle.std.specs.Prelude.{◌≡◌};
ghost use Rattle.wk_sqlkeeper.specs.Causes.{cause_of};

use sqlite::{Error, ErrorCode};
use thiserror::Error as IsError;

/// Why a database refused.
#[derive(Clone, Copy, Debug, PartialEq, Eq, IsError)]
pub enum SqlCause {
    /// Memory ran out.
    #[error("memory ran out")]
    Memory,
    /// The disk has no room.
    #[error("the disk is full")]
    DiskFull,
    /// A read, a write or a sync of the disk failed.
    #[error("a read, a write or a sync of the disk failed")]
    DiskFailed,
    /// The disk doesn't give back what was written.
    #[error("the database is damaged")]
    Damaged,
    /// Another has the database.
    #[error("the database is locked")]
    Locked,
    /// An earlier failure of the disk closed the database.
    #[error("an earlier failure closed the database")]
    Closed,
    /// The database has other tables than a wiki, or these in another shape.
    #[error("the database has other tables")]
    OtherTables,
    /// A value doesn't fit: one of a row that was read its field, or one of a row to write its column.
    #[error("a value doesn't fit its column")]
    Value,
    /// A row that must be there isn't.
    #[error("a row is missing")]
    NoRow,
    /// The database refused a statement: what it names isn't there, or stands already, or a transaction is open. Or the link
    /// rows of a change are out of order, and no statement was made.
    #[error("the database refused a statement")]
    Statement,
}

/// Why the database refused, where it answered this error.
pub fn cause_of(error: Error) -> SqlCause
    ensures { result ≡ cause_of error }
{
    match error {
        Error::SqliteFailure(code) => match code {
            ErrorCode::OutOfMemory => SqlCause::Memory,
            ErrorCode::DiskFull => SqlCause::DiskFull,
            ErrorCode::SystemIoFailure => SqlCause::DiskFailed,
            ErrorCode::DatabaseCorrupt => SqlCause::Damaged,
            ErrorCode::DatabaseBusy => SqlCause::Locked,
            ErrorCode::Closed => SqlCause::Closed,
            ErrorCode::NotADatabase => SqlCause::OtherTables,
            ErrorCode::TooBig => SqlCause::Value,
            _ => SqlCause::Statement,
        },
        Error::InvalidColumnType(_, _) => SqlCause::Value,
        Error::IntegralValueOutOfRange(_) => SqlCause::Value,
        Error::Utf8Error(_) => SqlCause::Value,
        Error::QueryReturnedNoRows => SqlCause::NoRow,
        _ => SqlCause::Statement,
    }
}

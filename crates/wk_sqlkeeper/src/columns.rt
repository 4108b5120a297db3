//! The columns of the database's rows as the fields of a wiki's rows.
ghost use Rattle.std.specs.Prelude.{◌≡◌, ◌<◌, ◌^◌, pos, IfErr, IfOk};
ghost use Rattle.sqlite_value.specs.declared.value.Value.TheVariants.{Int, Text as TextValue};
ghost use Rattle.sqlite_value.specs.Order.{column};
ghost use Rattle.wk_sqlkeeper.specs.Reading.{HasFlag, HasNumber, HasText, HasWhole, OnlyUnless};
ghost use Rattle.wk_sqltables.specs.Entries.{stored_flag, stored_moment};

use crate::answers::no_memory;
use sqlite::types::{Type, ValueRef};
use sqlite::{Error, Row};
use std::alloc::Global;
use wk_bytes::Text;
use wk_sqltables::moment_of;

/// The texts of a wiki are shorter.
const TOO_LONG: usize = 1 << 32;

fn not_fitting(at: usize, value: ValueRef<'_>) -> Error {
    Error::InvalidColumnType(at, Type::of(value))
}

/// The text of the column, or the error that says why it is no text of a wiki's: it isn't of the type text, not UTF-8,
/// or has 2^32 bytes or more.
pub fn text_at(alloc: Global, row: &Row, at: usize) -> Result<Text, Error>
    ensures read { IfOk result (λ text. column row.now at ≡ TextValue text) }
    ensures refused { IfErr result (OnlyUnless (HasText row.now at)) }
{
    let value = row.get_ref(at)?;
    let ValueRef::Text(bytes) = value else {
        return Err(not_fitting(at, value));
    };
    let Ok(text) = std::str::from_utf8(bytes) else {
        return Err(Error::Utf8Error(at));
    };
    if text.len() >= TOO_LONG {
        return Err(not_fitting(at, value));
    }
    Text::new(alloc, text).map_err(no_memory)
}

/// The number of the column, or the error where it isn't a whole number of 0 or more.
pub fn number_at(row: &Row, at: usize) -> Result<u64, Error>
    ensures read { IfOk result (λ number. column row.now at ≡ Int (pos number)) }
    ensures refused { IfErr result (OnlyUnless (HasNumber row.now at)) }
{
    row.get(at)
}

/// The number of a namespace in the column, or the error where it isn't a whole number.
pub fn namespace_at(row: &Row, at: usize) -> Result<i64, Error>
    ensures read { IfOk result (λ number. column row.now at ≡ Int number) }
    ensures refused { IfErr result (OnlyUnless (HasWhole row.now at)) }
{
    row.get(at)
}

/// The moment of the column, or the error where it isn't a whole number.
pub fn moment_at(row: &Row, at: usize) -> Result<u64, Error>
    ensures read { IfOk result (λ seconds. column row.now at ≡ Int (stored_moment seconds)) }
    ensures fits { IfOk result (λ seconds. seconds < 2 ^ 64) }
    ensures refused { IfErr result (OnlyUnless (HasWhole row.now at)) }
{
    let stored = namespace_at(row, at)?;
    Ok(moment_of(stored))
}

/// Whether the column has 1 and not 0, or the error where it has neither.
pub fn flag_at(row: &Row, at: usize) -> Result<bool, Error>
    ensures read { IfOk result (λ flag. column row.now at ≡ Int (stored_flag flag)) }
    ensures refused { IfErr result (OnlyUnless (HasFlag row.now at)) }
{
    match number_at(row, at)? {
        0 => Ok(false),
        1 => Ok(true),
        _ => Err(Error::IntegralValueOutOfRange(at)),
    }
}

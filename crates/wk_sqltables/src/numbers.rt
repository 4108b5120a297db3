//! Numbers of a wiki as the database keeps them, which are from -2^63 to 2^63 - 1.
ghost use Rattle.std.specs.Prelude.{◌≡◌, ◌^◌, ◌≤◌, pos, IfErr, IfOk};
ghost use Rattle.wk_sqltables.specs.Entries.{stored_moment, stored_flag};

use sqlite::Error;

/// The number for the column at this place, or `IntegralValueOutOfRange` exactly where it is 2^63 or more.
pub fn whole(number: u64, at: usize) -> Result<i64, Error>
    ensures value { IfOk result (λ stored. stored ≡ pos number) }
    ensures too_large { IfErr result (λ e. (e ≡ Error.IntegralValueOutOfRange at) × (2 ^ 63 ≤ number)) }
{
    i64::try_from(number).map_err(|_| Error::IntegralValueOutOfRange(at))
}

/// The moment, in seconds since 1970. From 2^63 on it is that number less 2^64 (own).
pub fn stored_moment(seconds: u64) -> i64
    ensures { result ≡ stored_moment seconds }
{
    seconds.cast_signed()
}

/// The moment that is kept so.
pub fn moment_of(stored: i64) -> u64
    ensures { stored_moment result ≡ stored }
{
    stored.cast_unsigned()
}

/// Whether something is so, as 1 or 0.
pub fn stored_flag(flag: bool) -> i64
    ensures { result ≡ stored_flag flag }
{
    if flag { 1 } else { 0 }
}

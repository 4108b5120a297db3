//! Whether two numerals are one number.
ghost use Rattle.std.specs.Prelude.{◌≡◌, ◌↔◌, ◌==◌, ◌<◌, ◌+◌, ◌*◌, ◌^◌, ℕ, IsTrue, length, slice_index_or};
ghost use Rattle.wk_text_rules.specs.Decimal.{digits_value};
ghost use Rattle.wk_text_rules.specs.Numerals.{same_decimal, are_one_number, same_text};
ghost use Rattle.wk_decimal.specs.Digits.{IsSignificant};
ghost use Rattle.wk_decimal.specs.Numeral.{digits_of, decimal_of};

use crate::numeral::{Numeral, read_numeral};

fn length(n: &Numeral<'_>) -> usize
    ensures { result ≡ length (digits_of n.now) }
{
    n.front.len() + n.back.len()
}

/// The digit at a place, and a zero at each place behind the last digit.
fn digit(n: &Numeral<'_>, at: usize) -> u8
    ensures { result ≡ slice_index_or (digits_of n.now) at 48 }
{
    if at < n.front.len() {
        n.front[at]
    } else {
        n.back.get(at - n.front.len()).copied().unwrap_or(b'0')
    }
}

/// Whether the digits are the same from the first on, with zeros behind the last.
fn same_digits(a: &Numeral<'_>, b: &Numeral<'_>) -> bool
    ensures { IsTrue result
        ↔ ((k : ℕ) → slice_index_or (digits_of a.now) k 48 ≡ slice_index_or (digits_of b.now) k 48) }
{
    for at in 0..length(a).max(length(b)) {
        if digit(a, at) != digit(b, at) {
            return false;
        }
    }
    true
}

/// Whether the first digits are worth the same power of ten.
fn same_place(a: &Numeral<'_>, b: &Numeral<'_>) -> bool
    ensures { IsTrue result
        ↔ (length (digits_of a.now) + (a.now.up + b.now.down) ≡ length (digits_of b.now) + (b.now.up + a.now.down)) }
{
    length(a) as u128 + (a.up as u128 + b.down as u128)
        == length(b) as u128 + (b.up as u128 + a.down as u128)
}

/// Whether the numbers are equal without their signs, where neither is zero.
fn same_size(a: &Numeral<'_>, b: &Numeral<'_>) -> bool
    requires a { IsSignificant (digits_of a.now) }
    requires b { IsSignificant (digits_of b.now) }
    requires a_nonzero { 0 < length (digits_of a.now) }
    requires b_nonzero { 0 < length (digits_of b.now) }
    ensures { IsTrue result
        ↔ (digits_value (digits_of a.now) * 10 ^ (a.now.up + b.now.down) ≡ digits_value (digits_of b.now) * 10 ^ (b.now.up + a.now.down)) }
{
    same_place(a, b) && same_digits(a, b)
}

fn is_zero(n: &Numeral<'_>) -> bool
    ensures { result ≡ (length (digits_of n.now) == 0) }
{
    n.front.is_empty() && n.back.is_empty()
}

/// Whether two numerals are one number. Zero has no sign.
fn same_number(a: &Numeral<'_>, b: &Numeral<'_>) -> bool
    requires a { IsSignificant (digits_of a.now) }
    requires b { IsSignificant (digits_of b.now) }
    ensures { result ≡ same_decimal (decimal_of a.now) (decimal_of b.now) }
{
    if is_zero(a) || is_zero(b) {
        return is_zero(a) && is_zero(b);
    }
    a.minus == b.minus && same_size(a, b)
}

fn are_one_number(a: &[u8], b: &[u8]) -> bool
    ensures { result ≡ are_one_number a.now b.now }
{
    let Some(m) = read_numeral(a) else {
        return false;
    };
    let Some(n) = read_numeral(b) else {
        return false;
    };
    same_number(&m, &n)
}

/// Whether two texts are equal to `#ifeq` and `#switch` (MediaWiki's Help:Extension:ParserFunctions): as numbers where
/// both are numerals, and else byte by byte.
///
/// A numeral is a sign, if there is one; digits, with or without a point and digits behind them, or a point and digits;
/// and then, if there is one, an exponent: `e` or `E`, a sign, if there is one, and digits whose value is from -9999 to
/// 9999. Numerals are compared exactly, so `1.0` is `1` and `-0` is `0`, and `1.` is no numeral (own). Takes no memory.
pub fn same(a: &[u8], b: &[u8]) -> bool
    ensures { result ≡ same_text a.now b.now }
{
    are_one_number(a, b) || a == b
}

//! The parts of a numeral: its sign, the digits round its point, and the power behind its letter.
ghost use Rattle.std.specs.Prelude.{◌≡◌, ◌≤◌, IsTrue, position};
ghost use Rattle.std.specs.Char.{is_ascii_digit};
ghost use Rattle.std.specs.List.{list_all, before_first};
ghost use Rattle.std.specs.Option.{SomeIff, option_copied};
ghost use Rattle.wk_text_rules.specs.Decimal.{digits_value};
ghost use Rattle.wk_text_rules.specs.Numerals.{is_point, is_exponent_letter, is_digits, without_sign, has_minus, behind_first, is_mantissa, exponent_of, power_of};
ghost use Rattle.wk_decimal.specs.Parts.{IsPlaceIn, SplitsAt};

use wk_bytes::{are_digits, digits_value};

const MOST_EXPONENT: u64 = 9999;

/// What stands before a place, and what stands behind it; or all, where there is no place.
fn split_at(bytes: &[u8], place: Option<usize>) -> (&[u8], Option<&[u8]>)
    requires { IsPlaceIn bytes.now place }
    ensures { SplitsAt bytes.now place result.0.now (option_copied result.1) }
{
    match place {
        Some(at) => (&bytes[..at], Some(&bytes[at + 1..])),
        None => (bytes, None),
    }
}

fn first_letter(text: &[u8]) -> Option<usize>
    ensures { result ≡ position is_exponent_letter text.now }
{
    text.iter().position(|byte| *byte == b'e' || *byte == b'E')
}

fn first_point(mantissa: &[u8]) -> Option<usize>
    ensures { result ≡ position is_point mantissa.now }
{
    mantissa.iter().position(|byte| *byte == b'.')
}

/// What stands before the first `e` or `E`, and what stands behind it, if there is one.
pub fn split_at_letter(text: &[u8]) -> (&[u8], Option<&[u8]>)
    ensures front { result.0.now ≡ before_first is_exponent_letter text.now }
    ensures back { option_copied result.1 ≡ behind_first is_exponent_letter text.now }
{
    split_at(text, first_letter(text))
}

/// What stands before the first point, and what stands behind it, if there is one.
pub fn split_at_point(mantissa: &[u8]) -> (&[u8], Option<&[u8]>)
    ensures front { result.0.now ≡ before_first is_point mantissa.now }
    ensures back { option_copied result.1 ≡ behind_first is_point mantissa.now }
{
    split_at(mantissa, first_point(mantissa))
}

/// Whether a minus stands at the front, and the bytes without the sign, if there is one.
pub fn split_sign(bytes: &[u8]) -> (bool, &[u8])
    ensures minus { result.0 ≡ has_minus bytes.now }
    ensures rest { result.1.now ≡ without_sign bytes.now }
{
    match bytes {
        [b'-', rest @ ..] => (true, rest),
        [b'+', rest @ ..] => (false, rest),
        _ => (false, bytes),
    }
}

fn is_digits(bytes: &[u8]) -> bool
    ensures { result ≡ is_digits bytes.now }
{
    !bytes.is_empty() && are_digits(bytes)
}

/// Whether these stand round the point of a numeral, or the first alone where there is no point.
pub fn is_mantissa(whole: &[u8], fraction: Option<&[u8]>) -> bool
    ensures { result ≡ is_mantissa whole.now (option_copied fraction.entry) }
{
    match fraction {
        None => is_digits(whole),
        Some(fraction) => are_digits(whole) && is_digits(fraction),
    }
}

/// The number that digits write, where it is at most the greatest exponent. They may be many, with zeros in front.
fn small_number(digits: &[u8]) -> Option<usize>
    requires { IsTrue (list_all is_ascii_digit digits.now) }
    ensures { SomeIff result (digits_value digits.now ≤ 9999) (digits_value digits.now) }
{
    match digits_value(digits) {
        Some(value) if value <= MOST_EXPONENT => Some(value as usize),
        _ => None,
    }
}

fn exponent(bytes: &[u8]) -> Option<(usize, usize)>
    ensures { result ≡ exponent_of bytes.now }
{
    let (minus, digits) = split_sign(bytes);
    if !is_digits(digits) {
        return None;
    }
    let Some(power) = small_number(digits) else {
        return None;
    };
    Some(if minus { (0, power) } else { (power, 0) })
}

/// How many powers of ten the value is up and down by what stands behind the letter, where that is an exponent.
pub fn power(behind_letter: Option<&[u8]>) -> Option<(usize, usize)>
    ensures { result ≡ power_of (option_copied behind_letter.entry) }
{
    match behind_letter {
        None => Some((0, 0)),
        Some(bytes) => exponent(bytes),
    }
}

//! Reading a numeral.
ghost use Rattle.std.specs.Prelude.{◌≡◌, ◌≤◌, ◌<◌, [], IsTrue, IfSome, option_map, length};
ghost use Rattle.std.specs.Char.{is_ascii_digit};
ghost use Rattle.std.specs.List.{list_all};
ghost use Rattle.std.specs.Option.{option_copied};
ghost use Rattle.wk_text_rules.specs.Numerals.{numeral, decimal_by, or_nothing};
ghost use Rattle.wk_decimal.specs.Digits.{without_leading_zeros, IsSignificant};
ghost use Rattle.wk_decimal.specs.Numeral.{digits_of, decimal_of};

use crate::parts::{is_mantissa, power, split_at_letter, split_at_point, split_sign};

/// A numeral: its digits without zeros in front, in two parts, times ten to the power `up`, over ten to the power
/// `down`.
#[derive(Clone, Copy)]
pub struct Numeral<'a> {
    pub minus: bool,
    pub front: &'a [u8],
    pub back: &'a [u8],
    pub up: usize,
    pub down: usize,
}

fn without_leading_zeros(digits: &[u8]) -> &[u8]
    ensures { result.now ≡ without_leading_zeros digits.now }
{
    let mut start = 0;
    while start < digits.len() && digits[start] == b'0' {
        start += 1;
    }
    &digits[start..]
}

/// The digits of a fraction that count behind these of the whole part: zeros in front of them don't, where the whole
/// part has none.
fn counted_behind<'a>(front: &[u8], fraction: &'a [u8]) -> &'a [u8]
    ensures none { front.now ≡ [] → result.now ≡ without_leading_zeros fraction.now }
    ensures some { 0 < length front.now → result.now ≡ fraction.now }
{
    if front.is_empty() {
        without_leading_zeros(fraction)
    } else {
        fraction
    }
}

/// The numeral of these digits round the point.
fn significant<'a>(
    minus: bool,
    whole: &'a [u8],
    fraction: &'a [u8],
    up: usize,
    down: usize,
) -> Numeral<'a>
    requires whole { IsTrue (list_all is_ascii_digit whole.now) }
    requires fraction { IsTrue (list_all is_ascii_digit fraction.now) }
    requires down { down ≤ 9999 }
    ensures value { decimal_of result ≡ decimal_by minus whole.now fraction.now (up, down) }
    ensures digits { IsSignificant (digits_of result) }
{
    let front = without_leading_zeros(whole);
    Numeral {
        minus,
        front,
        back: counted_behind(front, fraction),
        up,
        down: down + fraction.len(),
    }
}

fn or_nothing(fraction: Option<&[u8]>) -> &[u8]
    ensures { result.now ≡ or_nothing (option_copied fraction.entry) }
{
    match fraction {
        Some(digits) => digits,
        None => &[],
    }
}

/// The numeral that the text is, or `None` exactly where it is none.
pub fn read_numeral(text: &[u8]) -> Option<Numeral<'_>>
    ensures value { option_map decimal_of result ≡ numeral text.now }
    ensures digits { IfSome result (λ n. IsSignificant (digits_of n)) }
{
    let (mantissa, behind_letter) = split_at_letter(text);
    let (minus, digits) = split_sign(mantissa);
    let (whole, fraction) = split_at_point(digits);
    if !is_mantissa(whole, fraction) {
        return None;
    }
    let Some((up, down)) = power(behind_letter) else {
        return None;
    };
    Some(significant(minus, whole, or_nothing(fraction), up, down))
}

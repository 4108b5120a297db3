//! Decimal numbers as requests and script lines write them.
ghost use Rattle.std.specs.Prelude.{◌≡◌, ◌+◌, ◌-◌, ◌*◌, ◌^◌, ◌<◌, IsTrue};
ghost use Rattle.std.specs.Char.{is_ascii_digit};
ghost use Rattle.std.specs.List.{list_all};
ghost use Rattle.std.specs.Option.{SomeIff};
ghost use Rattle.wk_text_rules.specs.Decimal.{is_decimal, digits_value, decimal_number};

/// Whether every byte is a decimal digit; so is no byte at all. Takes no memory.
pub fn are_digits(bytes: &[u8]) -> bool
    ensures { result ≡ list_all is_ascii_digit bytes.now }
{
    bytes.iter().all(|byte| byte.is_ascii_digit())
}

fn is_decimal(bytes: &[u8]) -> bool
    ensures { result ≡ is_decimal bytes.now }
{
    match bytes {
        [] => false,
        [_] => are_digits(bytes),
        [first, _, ..] => *first != b'0' && are_digits(bytes),
    }
}

fn with_digit(value: u64, digit: u8) -> Option<u64>
    requires { IsTrue (is_ascii_digit digit) }
    ensures { SomeIff result (10 * value + (digit - 48) < 2 ^ 64) (10 * value + (digit - 48)) }
{
    let Some(tens) = value.checked_mul(10) else {
        return None;
    };
    tens.checked_add(u64::from(digit - b'0'))
}

/// The number that the digits stand for, with zeros in front or without, and 0 where there are none. `None` exactly
/// where it isn't below 2^64. Takes no memory.
pub fn digits_value(digits: &[u8]) -> Option<u64>
    requires { IsTrue (list_all is_ascii_digit digits.now) }
    ensures { SomeIff result (digits_value digits.now < 2 ^ 64) (digits_value digits.now) }
{
    let mut value = 0;
    for digit in digits {
        let Some(next) = with_digit(value, *digit) else {
            return None;
        };
        value = next;
    }
    Some(value)
}

/// The number that the bytes write: digits without a sign and without a leading zero (`0` itself is legal),
/// below 2^64 (own). `None` exactly where they write no such number. Takes no memory.
pub fn decimal(bytes: &[u8]) -> Option<u64>
    ensures { result ≡ decimal_number bytes.now }
{
    if is_decimal(bytes) {
        digits_value(bytes)
    } else {
        None
    }
}

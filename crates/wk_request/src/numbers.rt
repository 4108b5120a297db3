//! Parameters that are numbers.
ghost use Rattle.std.specs.Prelude.{◌≡◌, option_and_then, option_copied};
ghost use Rattle.wk_text_rules.specs.Decimal.{decimal_number};
ghost use Rattle.wk_request_rules.specs.Reading.{limit_value, number_given, default_limit, max_limit};

use wk_bytes::decimal;
use wk_form::Params;

/// The most entries of one reply.
const MAX_LIMIT: u64 = 500;

/// The most entries of a reply to a request without a limit.
pub const DEFAULT_LIMIT: usize = 10;

/// The number that a value is, where there is one.
pub fn number_of(value: Option<&str>) -> Option<u64>
    ensures { result ≡ option_and_then decimal_number (option_copied value.entry) }
{
    match value {
        Some(digits) => decimal(digits.as_bytes()),
        None => None,
    }
}

/// The number that a parameter has, where it is given and is one.
pub fn number_given(params: &Params, parameter: &str) -> Option<u64>
    ensures { result ≡ number_given parameter.now params.now }
{
    number_of(params.get(parameter))
}

/// A limit: a decimal number from 1 on, or `max`; above the most it counts as the most.
pub fn limit_value(value: &str) -> Option<usize>
    ensures { result ≡ limit_value value.now }
{
    if value == "max" {
        return Some(MAX_LIMIT as usize);
    }
    match decimal(value.as_bytes()) {
        None | Some(0) => None,
        Some(number) => Some(number.min(MAX_LIMIT) as usize),
    }
}

//! Parameters that are there, and those that have a value.
ghost use Rattle.std.specs.Prelude.{◌≡◌, option_copied};
ghost use Rattle.wk_request_rules.specs.Modules.{has_value, is_given};
ghost use Rattle.wk_request_rules.specs.Reading.{value_given};

use wk_form::Params;

/// Whether the parameter is there, whatever its value is.
pub fn is_given(params: &Params, parameter: &str) -> bool
    ensures { result ≡ is_given parameter.now params.now }
{
    params.get(parameter).is_some()
}

/// Whether the parameter's first value is this one.
pub fn has_value(params: &Params, parameter: &str, value: &str) -> bool
    ensures { result ≡ has_value parameter.now value.now params.now }
{
    match params.get(parameter) {
        Some(given) => given == value,
        None => false,
    }
}

/// The first value of a parameter, where there is such a parameter and it is given.
pub fn value_given<'a>(params: &'a Params, parameter: Option<&str>) -> Option<&'a str>
    ensures { option_copied result ≡ value_given (option_copied parameter.entry) params.now }
{
    match parameter {
        Some(name) => params.get(name),
        None => None,
    }
}

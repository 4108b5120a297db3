//! The checks of the parameters, in their order (own).
ghost use Rattle.std.specs.Prelude.{◌≡◌, ◌&&◌, not, codes, option_and_then, option_copied};
ghost use Rattle.wk_text_rules.specs.Decimal.{decimal_number};
ghost use Rattle.wk_request_rules.specs.Modules.{base_parameter, continue_parameter, is_given, limit_parameter, needs_text, saves, title_parameter};
ghost use Rattle.wk_request_rules.specs.Reading.{checks, first_some, has_token, limit_value, number_refused, read_for, refuse_where, request_of, title_refused};
ghost use Rattle.wk_request_rules.specs.Requests.{bad_token, must_be_posted, no_text};
ghost use Rattle.wk_request.specs.Refusals.{checked_as, failed};

use crate::flags::{has_value, is_given};
use crate::modules::module_called;
use crate::numbers::limit_value;
use crate::parameters::{
    base_parameter, continue_parameter, limit_parameter, needs_text, saves, title_parameter,
};
use crate::refusal::Refusal;
use wk_bytes::decimal;
use wk_form::Params;
use wk_request_rules::Module;

/// The token with which a page is saved.
const EDIT_TOKEN: &str = "+\\";

fn check_method(posted: bool, kind: Module) -> Result<(), Refusal>
    ensures { failed result ≡ refuse_where (saves kind && not posted) must_be_posted }
{
    if saves(kind) && !posted {
        Err(Refusal::MustBePosted)
    } else {
        Ok(())
    }
}

fn check_token(params: &Params, kind: Module) -> Result<(), Refusal>
    ensures { failed result ≡ refuse_where (saves kind && not (has_token params.now)) bad_token }
{
    if saves(kind) && !has_value(params, "token", EDIT_TOKEN) {
        Err(Refusal::BadToken)
    } else {
        Ok(())
    }
}

fn check_title(params: &Params, parameter: Option<&'static str>) -> Result<(), Refusal>
    ensures { failed result ≡ option_and_then (title_refused params.now) (option_copied parameter.entry) }
{
    match parameter {
        Some(name) if !is_given(params, name) => Err(Refusal::NoTitle(name)),
        _ => Ok(()),
    }
}

fn check_text(params: &Params, kind: Module) -> Result<(), Refusal>
    ensures { failed result ≡ refuse_where (needs_text kind && not (is_given (codes "text") params.now)) no_text }
{
    if needs_text(kind) && !is_given(params, "text") {
        Err(Refusal::NoText)
    } else {
        Ok(())
    }
}

/// A value that is there must be a decimal number.
fn check_number(params: &Params, parameter: &'static str) -> Result<(), Refusal>
    ensures { failed result ≡ number_refused decimal_number params.now parameter.now }
{
    match params.get(parameter) {
        Some(value) if decimal(value.as_bytes()).is_none() => Err(Refusal::BadInteger(parameter)),
        _ => Ok(()),
    }
}

/// The same of a parameter that a module may have.
fn check_own_number(params: &Params, parameter: Option<&'static str>) -> Result<(), Refusal>
    ensures { failed result ≡ option_and_then (number_refused decimal_number params.now) (option_copied parameter.entry) }
{
    match parameter {
        Some(name) => check_number(params, name),
        None => Ok(()),
    }
}

fn check_limit(params: &Params, parameter: Option<&'static str>) -> Result<(), Refusal>
    ensures { failed result ≡ option_and_then (number_refused limit_value params.now) (option_copied parameter.entry) }
{
    let Some(name) = parameter else {
        return Ok(());
    };
    match params.get(name) {
        Some(value) if limit_value(value).is_none() => Err(Refusal::BadInteger(name)),
        _ => Ok(()),
    }
}

/// The checks of a module, in their order: the method, the token, the title, the text, the base, the least point, the
/// limit, and where a listing goes on.
fn check(params: &Params, posted: bool, kind: Module) -> Result<(), Refusal>
    ensures { failed result ≡ first_some (checks params.now posted kind) }
{
    check_method(posted, kind)?;
    check_token(params, kind)?;
    check_title(params, title_parameter(kind))?;
    check_text(params, kind)?;
    check_own_number(params, base_parameter(kind))?;
    check_number(params, "minpoint")?;
    check_limit(params, limit_parameter(kind))?;
    check_own_number(params, continue_parameter(kind))
}

/// The module, where no check of it fails, or the first that does.
fn checked_module(params: &Params, posted: bool, kind: Module) -> Result<Module, Refusal>
    ensures { checked_as params.now result ≡ read_for params.now posted kind }
{
    match check(params, posted, kind) {
        Ok(()) => Ok(kind),
        Err(refusal) => Err(refusal),
    }
}

/// The module that is called, where no check fails, or the first that does.
pub fn checked(params: &Params, posted: bool) -> Result<Module, Refusal>
    ensures { checked_as params.now result ≡ request_of params.now posted }
{
    match module_called(params) {
        Ok(kind) => checked_module(params, posted, kind),
        Err(parameter) => Err(Refusal::BadValue(parameter)),
    }
}

//! The errors of replies (the codes are those of MediaWiki's API:Errors and warnings and of the modules' pages, as far as
//! it has them; their texts and the points are own). Each shows the length that the journal has at its step.
ghost use Rattle.std.specs.Prelude.{◌≡◌, [], IfOk};
ghost use Rattle.serde_json.specs.View.{view};
ghost use Rattle.wk_answer_rules.specs.ApiErrors.{api_error, badinteger, badvalue, editconflict, error_of, futurepoint, limit_word, notitle, parameter_entry, row_entries, wikifull};
ghost use Rattle.wk_answer_rules.specs.Values.{reply_beside};

use crate::members::{Plain, reply_of};
use serde_json::Value;
use std::alloc::Global;
use wk_memory::Memory;
use wk_page_rules::Limit;

/// An error with this code and this text, and nothing beside them.
pub fn error_reply(alloc: Global, code: &str, info: &str, point: u64) -> Result<Value, Memory>
    ensures { IfOk result (λ v. view v ≡ (reply_beside (row_entries (error_of code.now info.now [])) point).value) }
{
    let table = &[("code", Plain::Text(code)), ("info", Plain::Text(info))];
    reply_of(alloc, "error", table, point)
}

/// An error about a parameter.
fn parameter_error(
    alloc: Global,
    code: &str,
    info: &str,
    parameter: &str,
    point: u64,
) -> Result<Value, Memory>
    ensures { IfOk result (λ v. view v
        ≡ (reply_beside (row_entries (error_of code.now info.now (parameter_entry parameter.now))) point).value) }
{
    let table = &[
        ("code", Plain::Text(code)),
        ("info", Plain::Text(info)),
        ("parameter", Plain::Text(parameter)),
    ];
    reply_of(alloc, "error", table, point)
}

/// The parameter has a value that it can't have.
pub fn bad_value(alloc: Global, parameter: &str, point: u64) -> Result<Value, Memory>
    ensures { IfOk result (λ v. view v ≡ (api_error (badvalue parameter.now) point).value) }
{
    parameter_error(alloc, "badvalue", "Unrecognized value.", parameter, point)
}

/// The parameter, which has to name a title, is missing.
pub fn no_title(alloc: Global, parameter: &str, point: u64) -> Result<Value, Memory>
    ensures { IfOk result (λ v. view v ≡ (api_error (notitle parameter.now) point).value) }
{
    parameter_error(alloc, "notitle", "The title must be set.", parameter, point)
}

/// The parameter isn't a whole number, or is one of 2^64 or more.
pub fn bad_integer(alloc: Global, parameter: &str, point: u64) -> Result<Value, Memory>
    ensures { IfOk result (λ v. view v ≡ (api_error (badinteger parameter.now) point).value) }
{
    parameter_error(
        alloc,
        "badinteger",
        "Invalid whole number.",
        parameter,
        point,
    )
}

/// The request is to be answered at a point that isn't reached yet; the journal has this length.
pub fn future_point(alloc: Global, latest: u64, point: u64) -> Result<Value, Memory>
    ensures { IfOk result (λ v. view v ≡ (api_error (futurepoint latest) point).value) }
{
    let table = &[
        ("code", Plain::Text("futurepoint")),
        ("info", Plain::Text("That point is not reached yet.")),
        ("latest", Plain::Number(latest)),
    ];
    reply_of(alloc, "error", table, point)
}

/// The edit names a base that isn't the page's current revision, which is this one, 0 where the page is missing.
pub fn edit_conflict(alloc: Global, current: u64, point: u64) -> Result<Value, Memory>
    ensures { IfOk result (λ v. view v ≡ (api_error (editconflict current) point).value) }
{
    let table = &[
        ("code", Plain::Text("editconflict")),
        ("info", Plain::Text("Edit conflict.")),
        ("current", Plain::Number(current)),
    ];
    reply_of(alloc, "error", table, point)
}

/// How a limit is told.
fn limit_word(limit: Limit) -> &'static str
    ensures { result.now ≡ limit_word limit }
{
    match limit {
        Limit::Pages => "pages",
        Limit::Revisions => "revisions",
        Limit::Text => "text",
    }
}

/// The edit would pass a limit of the wiki.
pub fn wiki_full(alloc: Global, limit: Limit, point: u64) -> Result<Value, Memory>
    ensures { IfOk result (λ v. view v ≡ (api_error (wikifull limit) point).value) }
{
    let table = &[
        ("code", Plain::Text("wikifull")),
        ("info", Plain::Text("A limit of the wiki is reached.")),
        ("limit", Plain::Text(limit_word(limit))),
    ];
    reply_of(alloc, "error", table, point)
}

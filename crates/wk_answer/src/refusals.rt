//! The replies to parameters that ask nothing, and where memory is wanting.
ghost use Rattle.std.specs.Prelude.{◌≡◌, IfOk};
ghost use Rattle.serde_json.specs.View.{view};
ghost use Rattle.wk_answer_rules.specs.ApiErrors.{api_error, nomemory};
ghost use Rattle.wk_answer.specs.Declined.{IsDeclined};
ghost use Rattle.wk_answer.specs.Numbered.{error_numbered};

use serde_json::Value;
use std::alloc::Global;
use wk_memory::Memory;
use wk_replies::{bad_integer, bad_value, error_reply, no_title};
use wk_request::RequestRefusal;

/// The error of the refusal with this number, about this parameter.
fn numbered(alloc: Global, number: u8, parameter: &str, point: u64) -> Result<Value, Memory>
    ensures { IfOk result (λ v. view v ≡ (api_error (error_numbered number parameter.now) point).value) }
{
    match number {
        1 => bad_value(alloc, parameter, point),
        2 => error_reply(alloc, "mustbeposted", "This action must be posted.", point),
        3 => error_reply(alloc, "badtoken", "Invalid token.", point),
        4 => no_title(alloc, parameter, point),
        5 => error_reply(alloc, "notext", "The text must be set.", point),
        _ => bad_integer(alloc, parameter, point),
    }
}

/// Memory is wanting, at a point of the journal.
pub fn no_memory(alloc: Global, point: u64) -> Result<Value, Memory>
    ensures { IfOk result (λ v. view v ≡ (api_error nomemory point).value) }
{
    error_reply(alloc, "nomemory", "Out of memory.", point)
}

/// The reply to parameters that ask nothing, by their refusal (MediaWiki's API:Errors and warnings; the order is own), or that
/// memory is wanting, at a point of the journal. `Memory` comes where there is no room for the reply.
#[tactic(auto, using(crate::proofs::ByNumber::is_numbered))]
pub fn declined(alloc: Global, refusal: &RequestRefusal, point: u64) -> Result<Value, Memory>
    ensures { IsDeclined refusal.now point result }
{
    match refusal {
        RequestRefusal::Refused { number, parameter } => {
            numbered(alloc, *number, parameter, point)
        }
        RequestRefusal::Memory => no_memory(alloc, point),
    }
}

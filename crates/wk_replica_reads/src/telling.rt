//! What is told of what a message asks.
ghost use Rattle.std.specs.Prelude.{◌≡◌, IfOk};
ghost use Rattle.serde_json.specs.View.{view};
ghost use Rattle.wk_answer_rules.specs.ApiErrors.{api_error, nomemory};

use serde_json::Value;
use std::alloc::Global;
use wk_memory::Memory;

/// The value of a reply, and the point that it shows.
#[derive(Drop)]
pub struct Told {
    pub value: Result<Value, Memory>,
    pub point: u64,
}

/// The reply where memory was wanting.
pub fn no_memory(alloc: Global, point: u64) -> Told
    ensures value { IfOk result.value (λ v. view v ≡ (api_error nomemory point).value) }
    ensures point { result.point ≡ point }
{
    Told {
        value: wk_answer::no_memory(alloc, point),
        point,
    }
}

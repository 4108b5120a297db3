//! Errors as replies.
ghost use Rattle.std.specs.Prelude.{◌≡◌, IfOk};
ghost use Rattle.serde_json.specs.View.{view};
ghost use Rattle.wk_answer_rules.specs.ApiErrors.{contenttoobig};
ghost use Rattle.wk_answer_rules.specs.Pages.{fails};
ghost use Rattle.wk_listings.specs.Replied.{value_at};

use serde_json::Value;
use std::alloc::Global;
use wk_memory::Memory;
use wk_replies::error_reply;

/// The text is longer than any that is kept, which is told at a point of the journal. `Memory` comes where there is no room
/// for the reply.
pub fn content_too_big(alloc: Global, point: u64) -> Result<Value, Memory>
    ensures { IfOk result (λ v. view v ≡ value_at point (fails contenttoobig)) }
{
    let info = "The text is longer than 2097152 bytes.";
    error_reply(alloc, "contenttoobig", info, point)
}

//! Errors of what is asked.
ghost use Rattle.std.specs.Prelude.{◌≡◌, IfOk};
ghost use Rattle.serde_json.specs.View.{view};
ghost use Rattle.wk_answer_rules.specs.ApiErrors.{invalidcategory, invalidtitle, missingtitle};
ghost use Rattle.wk_answer_rules.specs.Pages.{fails};
ghost use Rattle.wk_listings.specs.Replied.{value_at};

use serde_json::Value;
use std::alloc::Global;
use wk_memory::Memory;
use wk_replies::error_reply;

/// The text names no title.
pub fn invalid_title(alloc: Global, point: u64) -> Result<Value, Memory>
    ensures { IfOk result (λ v. view v ≡ value_at point (fails invalidtitle)) }
{
    error_reply(alloc, "invalidtitle", "Bad title.", point)
}

/// The title isn't that of a category.
pub fn invalid_category(alloc: Global, point: u64) -> Result<Value, Memory>
    ensures { IfOk result (λ v. view v ≡ value_at point (fails invalidcategory)) }
{
    let info = "The title is not in the Category namespace.";
    error_reply(alloc, "invalidcategory", info, point)
}

/// No save of the title was ever made, or its page doesn't exist.
pub fn missing_title(alloc: Global, point: u64) -> Result<Value, Memory>
    ensures { IfOk result (λ v. view v ≡ value_at point (fails missingtitle)) }
{
    error_reply(alloc, "missingtitle", "The page does not exist.", point)
}

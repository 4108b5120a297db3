//! Replies to parameters.
ghost use Rattle.std.specs.Prelude.{◌≡◌, None, length, IfOk};
ghost use Rattle.serde_json.specs.View.{view};
ghost use Rattle.wk_request_rules.specs.Requests.{ParsedRequest};
ghost use Rattle.wk_request.specs.Refusals.{Refuses};
ghost use Rattle.wk_answer_rules.specs.Answers.{act};
ghost use Rattle.wk_answer.specs.Saved.{IsActed};
ghost use Rattle.wk_probe_wiki.specs.Refused.{IsRefusal};

use serde_json::Value;
use std::alloc::Global;
use wk_answer::{act, declined};
use wk_core::{Keeper, Wiki};
use wk_expand::Trees;
use wk_memory::Memory;
use wk_request::{Request, RequestRefusal};

/// The reply to parameters that ask nothing.
fn refused_reply(alloc: Global, refusal: &RequestRefusal, point: u64) -> Result<Value, Memory>
    ensures { (parsed : ParsedRequest) → Refuses parsed refusal.now
        → IfOk result (λ v. IsRefusal parsed point (view v)) }
{
    match refusal {
        RequestRefusal::Memory => Err(Memory),
        RequestRefusal::Refused { .. } => declined(alloc, refusal, point),
    }
}

/// Does what the parameters in a query and a body ask of the API, posted or not, at this many seconds since 1970, and
/// gives the reply: by the rules, with the event that the request makes, if it makes one; or that the store failed. The
/// wiki isn't sealed. `Memory` may come, and then nothing happened.
pub fn reply<K: Keeper>(
    wiki: &mut Wiki<K>,
    query: &[u8],
    body: &[u8],
    posted: bool,
    now: u64,
    trees: &mut Trees,
) -> Result<Value, Memory>
    requires { wiki.old.start.sealed ≡ None }
    ensures acted { IfOk result (λ v. IsActed K.told K.faults wiki.old wiki.new
        (act wiki.old.start.limits wiki.old.state (length wiki.old.journal) now query.now body.now posted) (view v)) }
    ensures start { wiki.new.start ≡ wiki.old.start }
{
    let alloc = wiki.allocator();
    match Request::of(alloc, query, body, posted) {
        Ok(request) => act(wiki, &request, now, trees),
        Err(refusal) => refused_reply(alloc, &refusal, wiki.point()),
    }
}

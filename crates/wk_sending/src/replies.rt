//! The answer that is made of a reply.
ghost use Rattle.std.specs.Prelude.{◌≡◌, IfOk, IsOkAnd, string_bytes, false};
ghost use Rattle.serde_json.specs.View.{view};
ghost use Rattle.serde_json.specs.Written.{compact_text, has_float};
ghost use Rattle.wk_answer_rules.specs.Values.{ApiReply};
ghost use Rattle.wk_session_rules.specs.Replies.{bare, told};
ghost use Rattle.wk_sending.specs.Replied.{Carries};

use serde_json::Value;
use std::alloc::Global;
use wk_memory::Memory;

/// A status, the body, if memory was there for it, and the point that it shows, if it shows one.
#[derive(Drop)]
pub struct Answer {
    pub status: u16,
    pub body: Result<String, Memory>,
    pub point: Option<u64>,
}

/// The text of a reply's value.
fn body_of(alloc: Global, value: Result<Value, Memory>) -> Result<String, Memory>
    requires plain { IfOk value (λ v. has_float (view v) ≡ false) }
    ensures { IfOk result (λ body. IsOkAnd value (λ v. string_bytes body ≡ compact_text (view v))) }
{
    match value {
        Ok(value) => Ok(value.to_string(alloc)?),
        Err(memory) => Err(memory),
    }
}

impl Answer {
    /// A status without a body, which shows no point. Takes no memory.
    pub fn bare(alloc: Global, status: u16) -> Answer
        ensures { Carries result (bare status) }
    {
        Answer {
            status,
            body: Ok(String::new(alloc)),
            point: None,
        }
    }

    /// What the API replies, with status 200: this value as compact JSON (RFC 8259), which shows this point. The value has no
    /// number with a fraction.
    pub fn told(alloc: Global, value: Result<Value, Memory>, point: u64) -> Answer
        requires plain { IfOk value (λ v. has_float (view v) ≡ false) }
        ensures { (reply : ApiReply) → IfOk value (λ v. view v ≡ reply.value) → point ≡ reply.point → Carries result (told reply) }
    {
        Answer {
            status: 200,
            body: body_of(alloc, value),
            point: Some(point),
        }
    }
}

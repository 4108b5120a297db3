//! The errors of lines, and those of the API that lines meet (the codes and texts are own). Each shows the length that the
//! journal has behind the line.
ghost use Rattle.std.specs.Prelude.{◌≡◌, IfOk};
ghost use Rattle.serde_json.specs.View.{view};
ghost use Rattle.wk_answer_rules.specs.ApiErrors.{api_error, journalfull, nomemory, storefault};
ghost use Rattle.wk_script_rules.specs.Replies.{badline, kind_name, line_error, linetoolong, needsread, noread, notticket};

use serde_json::Value;
use std::alloc::Global;
use wk_memory::Memory;
use wk_replies::{Plain, error_reply, reply, titled};
use wk_title::Title;
use wk_view_rules::Kind;

/// The line has none of the known forms.
pub fn bad_line(alloc: Global, point: u64) -> Result<Value, Memory>
    ensures { IfOk result (λ v. view v ≡ (line_error badline point).value) }
{
    error_reply(alloc, "badline", "Unknown line.", point)
}

/// The line has more bytes than a line may have.
pub fn line_too_long(alloc: Global, point: u64) -> Result<Value, Memory>
    ensures { IfOk result (λ v. view v ≡ (line_error linetoolong point).value) }
{
    let info = "The line is longer than 8388608 bytes.";
    error_reply(alloc, "linetoolong", info, point)
}

/// No ticket of this number is out.
pub fn no_ticket(alloc: Global, point: u64) -> Result<Value, Memory>
    ensures { IfOk result (λ v. view v ≡ (line_error notticket point).value) }
{
    error_reply(alloc, "notticket", "No such ticket.", point)
}

/// The draft of the ticket has all that it asks for.
pub fn no_read(alloc: Global, point: u64) -> Result<Value, Memory>
    ensures { IfOk result (λ v. view v ≡ (line_error noread point).value) }
{
    error_reply(alloc, "noread", "Nothing is left to read.", point)
}

/// How a kind is told.
pub fn kind_name(kind: Kind) -> &'static str
    ensures { result.now ≡ kind_name kind }
{
    match kind {
        Kind::View => "view",
        Kind::Include => "include",
        Kind::Exists => "exists",
    }
}

/// The draft of the ticket still asks for this title.
pub fn needs_read(alloc: Global, title: &Title, kind: Kind, point: u64) -> Result<Value, Memory>
    ensures { IfOk result (λ v. view v ≡ (line_error (needsread title.now kind) point).value) }
{
    let table = &[
        ("code", Plain::Text("needsread")),
        ("info", Plain::Text("A read is missing.")),
        ("kind", Plain::Text(kind_name(kind))),
    ];
    reply(alloc, "error", titled(alloc, title, table)?, point)
}

/// The journal has no room for the event.
pub fn journal_full(alloc: Global, point: u64) -> Result<Value, Memory>
    ensures { IfOk result (λ v. view v ≡ (api_error journalfull point).value) }
{
    error_reply(alloc, "journalfull", "The journal is full.", point)
}

/// Memory ran out.
pub fn no_memory(alloc: Global, point: u64) -> Result<Value, Memory>
    ensures { IfOk result (λ v. view v ≡ (api_error nomemory point).value) }
{
    error_reply(alloc, "nomemory", "Out of memory.", point)
}

/// The store failed.
pub fn store_fault(alloc: Global, point: u64) -> Result<Value, Memory>
    ensures { IfOk result (λ v. view v ≡ (api_error storefault point).value) }
{
    error_reply(alloc, "storefault", "The store failed.", point)
}

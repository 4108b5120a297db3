//! The bytes of a response.
ghost use Rattle.std.specs.Prelude.{◌≡◌, ◌==◌, ◌++◌, length, codes, string_bytes, IfOk, OnOk, OnErr};
ghost use Rattle.wk_wire_rules.specs.Responses.{reason, line_where, body_sent, response};
ghost use Rattle.wk_http.specs.Head.{head_text};

use std::alloc::Global;
use wk_memory::Memory;

fn reason(status: u16) -> &'static str
    ensures { result.now ≡ reason status }
{
    match status {
        200 => "OK",
        400 => "Bad Request",
        404 => "Not Found",
        405 => "Method Not Allowed",
        411 => "Length Required",
        413 => "Content Too Large",
        415 => "Unsupported Media Type",
        501 => "Not Implemented",
        _ => "",
    }
}

fn type_line(status: u16) -> &'static str
    ensures { result.now ≡ line_where (status == 200) (codes "Content-Type: application/json; charset=utf-8") }
{
    if status == 200 {
        "Content-Type: application/json; charset=utf-8\r\n"
    } else {
        ""
    }
}

fn close_line(close: bool) -> &'static str
    ensures { result.now ≡ line_where close (codes "Connection: close") }
{
    if close { "Connection: close\r\n" } else { "" }
}

fn body_sent(status: u16, body: &[u8]) -> &[u8]
    ensures { result.now ≡ body_sent status body.now }
{
    if status == 200 { body } else { &[] }
}

/// All up to the body, of which there are so many bytes.
fn head_text(
    alloc: Global,
    status: u16,
    reason: &str,
    type_line: &str,
    count: usize,
    close_line: &str,
) -> Result<String, Memory>
    ensures { IfOk result (λ head. string_bytes head ≡ head_text status reason.now type_line.now count close_line.now) }
{
    let head = format!(in alloc;
        "HTTP/1.1 {status} {reason}\r\n{type_line}Content-Length: {count}\r\n{close_line}\r\n"
    )?;
    Ok(head)
}

/// Appends both, or neither.
fn append_both(into: &mut Vec<u8>, first: &[u8], second: &[u8]) -> Result<(), Memory>
    ensures ok { OnOk result (into.new.items ≡ into.old.items ++ first.now ++ second.now) }
    ensures err { OnErr result (into.new.items ≡ into.old.items) }
{
    let len = into.len();
    into.extend_from_slice(first)?;
    match into.extend_from_slice(second) {
        Ok(()) => Ok(()),
        Err(_) => {
            into.truncate(len);
            Err(Memory)
        }
    }
}

/// Appends a response (RFC 9112 section 4) with this status and body; `close` says that the connection ends with it.
///
/// Only status 200 has a body and the type of JSON; with another status nothing of `body` is sent (own). A status
/// other than 200, 400, 404, 405, 411, 413, 415 and 501 has an empty reason. After an `Err` nothing was appended.
pub fn response(status: u16, body: &[u8], close: bool, into: &mut Vec<u8>) -> Result<(), Memory>
    ensures ok { OnOk result (into.new.items ≡ into.old.items ++ response status body.now close) }
    ensures err { OnErr result (into.new.items ≡ into.old.items) }
{
    let alloc = *into.allocator();
    let body = body_sent(status, body);
    let head = head_text(
        alloc,
        status,
        reason(status),
        type_line(status),
        body.len(),
        close_line(close),
    )?;
    append_both(into, head.as_bytes(), body)
}

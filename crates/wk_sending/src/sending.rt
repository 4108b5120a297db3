//! The bytes of a reply, on a connection.
ghost use Rattle.std.specs.Prelude.{◌≡◌, ◌≢◌, ◌≤◌, Err};
ghost use Rattle.wk_base.specs.Faults.{Rose};
ghost use Rattle.wk_wire_rules.specs.Heads.{Message};
ghost use Rattle.wk_wire_rules.specs.Responses.{response};
ghost use Rattle.wk_session_rules.specs.Replies.{Reply, sent};
ghost use Rattle.wk_sending.specs.Replied.{Carries};
ghost use Rattle.wk_sending.specs.Sending.{IsEnded, IsSent};

use crate::replies::Answer;
use std::alloc::Global;
use wk_base::Failed;
use wk_http::{SessionEnd, response};
use wk_link::{Link, send_all};

/// Sends a response, in as few writes as the link takes. `close` says that the connection ends with it.
///
/// `WriteFault` comes only where the link's count of such faults rose in this call, or stands at its end; the only other end is
/// `Memory`, and nothing was sent then. What is left to read stays as it is.
pub fn send<L: Link>(
    alloc: Global,
    link: &mut L,
    status: u16,
    body: &[u8],
    close: bool,
) -> Result<(), SessionEnd>
    ensures sent { IsSent (response status body.now close) (L.Sink.taken link.old) (L.Sink.taken link.new) result }
    ensures never_falls { L.Sink.faults link.old ≤ L.Sink.faults link.new }
    ensures no_fault { result ≢ Err SessionEnd.WriteFault → L.Sink.faults link.new ≡ L.Sink.faults link.old }
    ensures cause { result ≡ Err SessionEnd.WriteFault → Rose (L.Sink.faults link.old) (L.Sink.faults link.new) }
    ensures rest { L.Source.rest link.new ≡ L.Source.rest link.old }
    ensures read_faults { L.Source.faults link.new ≡ L.Source.faults link.old }
{
    let mut bytes = Vec::new(alloc);
    if let Err(_) = response(status, body, close, &mut bytes) {
        return Err(SessionEnd::Memory);
    }
    match send_all(link, &bytes) {
        Ok(()) => Ok(()),
        Err(Failed) => Err(SessionEnd::WriteFault),
    }
}

/// Sends the answer to a message, if memory was there for its body.
pub fn send_answer<L: Link>(
    alloc: Global,
    link: &mut L,
    answer: &Answer,
    close: bool,
) -> Result<(), SessionEnd>
    ensures sent { (message : Message) (reply : Reply) → close ≡ message.last → Carries answer.now reply
        → IsSent (sent message reply) (L.Sink.taken link.old) (L.Sink.taken link.new) result }
    ensures never_falls { L.Sink.faults link.old ≤ L.Sink.faults link.new }
    ensures no_fault { result ≢ Err SessionEnd.WriteFault → L.Sink.faults link.new ≡ L.Sink.faults link.old }
    ensures cause { result ≡ Err SessionEnd.WriteFault → Rose (L.Sink.faults link.old) (L.Sink.faults link.new) }
    ensures rest { L.Source.rest link.new ≡ L.Source.rest link.old }
    ensures read_faults { L.Source.faults link.new ≡ L.Source.faults link.old }
{
    match &answer.body {
        Ok(body) => send(alloc, link, answer.status, body.as_bytes(), close),
        Err(_) => Err(SessionEnd::Memory),
    }
}

/// The end of a session whose reading ended so: to a bad place its status is sent, with which the connection ends.
pub fn end_reading<L: Link>(alloc: Global, link: &mut L, end: SessionEnd) -> SessionEnd
    ensures ended { IsEnded (L.Sink.taken link.old) (L.Sink.taken link.new) end result }
    ensures never_falls { L.Sink.faults link.old ≤ L.Sink.faults link.new }
    ensures no_fault { result ≢ SessionEnd.WriteFault → L.Sink.faults link.new ≡ L.Sink.faults link.old }
    ensures cause { result ≡ SessionEnd.WriteFault → end ≢ SessionEnd.WriteFault → Rose (L.Sink.faults link.old) (L.Sink.faults link.new) }
    ensures rest { L.Source.rest link.new ≡ L.Source.rest link.old }
    ensures read_faults { L.Source.faults link.new ≡ L.Source.faults link.old }
{
    match end {
        SessionEnd::Bad(status) => match send(alloc, link, status, &[], true) {
            Ok(()) => end,
            Err(unsent) => unsent,
        },
        _ => end,
    }
}

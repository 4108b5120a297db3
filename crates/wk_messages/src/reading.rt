//! How a connection is read into a feed.
ghost use Rattle.std.specs.Prelude.{◌≡◌, ◌≢◌, ◌+◌, ◌^◌, ◌<◌, ◌≤◌, IfErr, IfOk, OnOk, Err};
ghost use Rattle.wk_base.specs.Faults.{Rose};
ghost use Rattle.wk_wire_rules.specs.Messages.{IsOpen};
ghost use Rattle.wk_http.specs.Requests.{message_in};
ghost use Rattle.wk_messages.specs.Reading.{Gives, ReadsOn, StopsAt};

use wk_base::Failed;
use wk_http::{Feed, HttpRequest, Next, SessionEnd};
use wk_link::Link;

/// The bytes that are asked of one read.
const ROOM: usize = 8_192;

/// A connection is read no further once so many bytes were read.
const BOUND: u64 = 1 << 40;

/// Reads once, where no whole message and no bad place is left, and pushes what was read.
fn fill<L: Link>(feed: &mut Feed, total: &mut u64, link: &mut L) -> Result<(), SessionEnd>
    requires { IsOpen feed.old }
    ensures ok { OnOk result (ReadsOn (record { left = feed.old; total = total.old }) (record { left = feed.new; total = total.new })
        (L.Source.rest link.old) (L.Source.rest link.new) × (total.old < total.new)) }
    ensures err { IfErr result (StopsAt (record { left = feed.old; total = total.old })
        (record { left = feed.new; total = total.new }) (L.Source.rest link.old) (L.Source.rest link.new)) }
    ensures few { total.old < 2 ^ 40 + 2 ^ 13 → total.new < 2 ^ 40 + 2 ^ 13 }
    ensures never_falls { L.Source.faults link.old ≤ L.Source.faults link.new }
    ensures no_fault { result ≢ Err SessionEnd.ReadFault → L.Source.faults link.new ≡ L.Source.faults link.old }
    ensures cause { result ≡ Err SessionEnd.ReadFault → Rose (L.Source.faults link.old) (L.Source.faults link.new) }
    ensures written { L.Sink.taken link.new ≡ L.Sink.taken link.old }
    ensures write_faults { L.Sink.faults link.new ≡ L.Sink.faults link.old }
{
    if BOUND <= *total {
        return Err(SessionEnd::Bound);
    }
    let mut room = [0u8; ROOM];
    let n = match link.receive(&mut room) {
        Ok(n) => n,
        Err(Failed) => return Err(SessionEnd::ReadFault),
    };
    if n == 0 {
        if feed.is_between() {
            return Err(SessionEnd::PeerEnd);
        }
        return Err(SessionEnd::Cut);
    }
    *total += n as u64;
    match feed.push(&room[..n]) {
        Ok(()) => Ok(()),
        Err(_) => Err(SessionEnd::Memory),
    }
}

/// The next whole message of a connection, of which so many bytes were read and pushed.
pub fn next_message<L: Link>(
    feed: &mut Feed,
    total: &mut u64,
    link: &mut L,
) -> Result<HttpRequest, SessionEnd>
    requires few { total.old < 2 ^ 40 + 2 ^ 13 }
    ensures ok { IfOk result (λ request. Gives (record { left = feed.old; total = total.old }) (record { left = feed.new; total = total.new })
        (L.Source.rest link.old) (L.Source.rest link.new) (message_in request)) }
    ensures err { IfErr result (StopsAt (record { left = feed.old; total = total.old })
        (record { left = feed.new; total = total.new }) (L.Source.rest link.old) (L.Source.rest link.new)) }
    ensures few { total.new < 2 ^ 40 + 2 ^ 13 }
    ensures never_falls { L.Source.faults link.old ≤ L.Source.faults link.new }
    ensures no_fault { result ≢ Err SessionEnd.ReadFault → L.Source.faults link.new ≡ L.Source.faults link.old }
    ensures cause { result ≡ Err SessionEnd.ReadFault → Rose (L.Source.faults link.old) (L.Source.faults link.new) }
    ensures written { L.Sink.taken link.new ≡ L.Sink.taken link.old }
    ensures write_faults { L.Sink.faults link.new ≡ L.Sink.faults link.old }
{
    'reads: loop {
        match feed.next() {
            Ok(Next::Whole(request)) => return Ok(request),
            Ok(Next::Bad(status)) => return Err(SessionEnd::Bad(status)),
            Ok(Next::More) => {
                if let Err(end) = fill(feed, total, link) {
                    return Err(end);
                }
            }
            Err(_) => return Err(SessionEnd::Memory),
        }
    }
}

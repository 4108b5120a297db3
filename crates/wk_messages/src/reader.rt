//! A reader of messages.
ghost use Rattle.std.specs.Prelude.{◌≡◌, ◌≢◌, ◌+◌, ◌^◌, ◌<◌, ◌≤◌, [], IfErr, IfOk, Err};
ghost use Rattle.wk_base.specs.Faults.{Rose};
ghost use Rattle.wk_http.specs.Requests.{message_in};
ghost use Rattle.wk_messages.specs.Reading.{Gives, StopsAt, nothing_read};

use crate::reading::next_message;
use std::alloc::Global;
use std::marker::Model;
use wk_http::{Feed, HttpRequest, SessionEnd};
use wk_link::Link;

/// Reads a connection and gives its messages, one after the other.
#[derive(Drop)]
pub struct MessageReader {
    feed: Feed,
    total: u64,
}

impl Model for MessageReader {
    ghost use Rattle.std.specs.Prelude.{◌+◌, ◌^◌, ◌<◌};
    ghost use Rattle.wk_messages.specs.Reading.{Reading};

    ghost Value = { Reading };

    ghost view = { λ r. record { left = r.feed; total = r.total } };

    ghost invariant = { λ r. r.total < 2 ^ 40 + 2 ^ 13 };
}

impl MessageReader {
    /// A reader of a connection, before its first read. Takes no memory.
    pub fn new(alloc: Global) -> MessageReader
        ensures { result ≡ nothing_read }
    {
        MessageReader {
            feed: Feed::new(alloc),
            total: 0,
        }
    }

    /// The next whole message. The connection is read only where no whole message is there.
    ///
    /// No more than 2^40 bytes and one piece are read in all. `PeerEnd` comes where the input ended between two messages,
    /// `Cut` where it ended within one; `Bad` at a bad place, with its status; `ReadFault` where a read failed; `Bound` where
    /// 2^40 bytes were read and no whole message is left; `Memory` where memory ran out: what was read last may then be lost.
    /// It is never `Closed` or `WriteFault`. No message is given behind one of these.
    pub fn next<L: Link>(&mut self, link: &mut L) -> Result<HttpRequest, SessionEnd>
        ensures ok { IfOk result (λ request. Gives self.old self.new (L.Source.rest link.old) (L.Source.rest link.new) (message_in request)) }
        ensures err { IfErr result (StopsAt self.old self.new (L.Source.rest link.old) (L.Source.rest link.new)) }
        ensures few { self.new.total < 2 ^ 40 + 2 ^ 13 }
        ensures never_falls { L.Source.faults link.old ≤ L.Source.faults link.new }
        ensures no_fault { result ≢ Err SessionEnd.ReadFault → L.Source.faults link.new ≡ L.Source.faults link.old }
        ensures cause { result ≡ Err SessionEnd.ReadFault → Rose (L.Source.faults link.old) (L.Source.faults link.new) }
        ensures written { L.Sink.taken link.new ≡ L.Sink.taken link.old }
        ensures write_faults { L.Sink.faults link.new ≡ L.Sink.faults link.old }
    {
        next_message(&mut self.feed, &mut self.total, link)
    }
}

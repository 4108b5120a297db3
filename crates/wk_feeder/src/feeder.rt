//! Sending what a shared wiki's journal says.
ghost use Rattle.std.specs.Prelude.{◌≡◌, ◌≢◌, ◌≤◌, length, drop, map, None, Err, IfOk, OnErr};
ghost use Rattle.std.specs.Io.KnownBytes.{Appends};
ghost use mathlib.Core.List.{IsPrefix};
ghost use Rattle.wk_base.specs.Faults.{Rose};
ghost use Rattle.wk_turn.specs.Told.{IsOf};
ghost use Rattle.wk_shared.specs.Calls.{IsFree};
ghost use Rattle.wk_feeder.specs.Bytes.{event_bytes};
ghost use Rattle.wk_feeder.specs.Events.{event_of};

use crate::events::{FeedEvent, events_behind, lines_of};
use crate::start::{FeedRefusal, write_lines};
use std::alloc::Global;
use std::marker::Model;
use std::sync::Wait;
use wk_base::Sink;
use wk_core::{Keeper, Wiki};
use wk_memory::Memory;
use wk_shared::{Pass, Shared};

/// Sends the events of a shared wiki in their order, each once. Contracts see its pass, and how many of the events that the pass
/// has seen were sent.
///
/// While a feeder has the turn it takes the new events, with their titles and texts shared; their lines are made and written
/// when it has given the turn back. Where a call is refused the feeder has sent no more than before, and a part of the lines may
/// have been taken by the sink: what comes behind them there isn't the feed any more.
#[derive(Drop)]
pub struct Feeder<K: Keeper> {
    alloc: Global,
    pass: Pass<Wiki<K>>,
    sent: u64,
}

impl<K: Keeper> Model for Feeder<K> {
    ghost use Rattle.std.specs.Prelude.{◌≤◌, length};
    ghost use Rattle.wk_wiki_rules.specs.Events.{Event};
    ghost use Rattle.wk_wiki_rules.specs.Starts.{Start};
    ghost use Rattle.wk_feeder.specs.Feeders.{FeederSeen};

    ghost Value = { FeederSeen Start Event };

    ghost view = { λ f. record { pass = f.pass; sent = f.sent } };

    ghost invariant = { λ f. f.sent ≤ length f.pass.seen };
}

impl<K: Keeper> Feeder<K> {
    ghost use Rattle.wk_feeder.specs.Feeders.{FeederSeen};

    /// A feeder that has sent nothing. Takes no memory.
    pub fn new(alloc: Global, pass: Pass<Wiki<K>>) -> Feeder<K>
        ensures { result ≡ record { pass = pass; sent = 0 } }
    {
        Feeder {
            alloc,
            pass,
            sent: 0,
        }
    }

    /// Takes the events behind those that were sent, and tells the point. It waits for the turn, and gives it back.
    fn take_new<R: Wait>(
        &mut self,
        rt: &R,
        shared: &Shared<K>,
    ) -> (Result<Vec<FeedEvent>, Memory>, u64)
        requires { IsFree shared.now self.old.pass }
        ensures turn { IsOf shared.now self.new.pass }
        ensures free { self.new.pass.held ≡ None }
        ensures own { self.new.pass.own ≡ self.old.pass.own }
        ensures seen { IsPrefix self.old.pass.seen self.new.pass.seen }
        ensures sent { self.new.sent ≡ self.old.sent }
        ensures within { self.old.sent ≤ length self.old.pass.seen }
        ensures point { result.1 ≡ length self.new.pass.seen }
        ensures taken { IfOk result.0 (λ events. map event_of events.items ≡ drop self.old.sent self.new.pass.seen) }
    {
        let held = shared.enter(rt, &mut self.pass);
        let point = held.value.point();
        let events = events_behind(&held.value, self.sent);
        shared.leave(&mut self.pass, held);
        (events, point)
    }

    /// Sends the events since, and answers how many were sent in all: the journal's length at its step. It waits for the turn,
    /// and has given it back when it writes.
    pub fn send_new<R: Wait, O: Sink>(
        &mut self,
        rt: &R,
        shared: &Shared<K>,
        sink: &mut O,
    ) -> Result<u64, FeedRefusal>
        requires { IsFree shared.now self.old.pass }
        ensures turn { IsOf shared.now self.new.pass }
        ensures free { self.new.pass.held ≡ None }
        ensures own { self.new.pass.own ≡ self.old.pass.own }
        ensures seen { IsPrefix self.old.pass.seen self.new.pass.seen }
        ensures sent { IfOk result (λ n. (n ≡ length self.new.pass.seen) × (self.new.sent ≡ n) × Appends (O.taken sink.old) (O.taken sink.new) (event_bytes (drop self.old.sent self.new.pass.seen))) }
        ensures refused { OnErr result (self.new.sent ≡ self.old.sent) }
        // It had sent no more events than its pass had seen.
        ensures within { self.old.sent ≤ length self.old.pass.seen }
        ensures never_falls { O.faults sink.old ≤ O.faults sink.new }
        ensures no_fault { result ≢ Err FeedRefusal.WriteFault → O.faults sink.new ≡ O.faults sink.old }
        ensures fault { result ≡ Err FeedRefusal.WriteFault → Rose (O.faults sink.old) (O.faults sink.new) }
    {
        let (events, point) = self.take_new(rt, shared);
        write_lines(sink, lines_of(self.alloc, events))?;
        self.sent = point;
        Ok(point)
    }

    /// Takes the wiki and sends the rest. It waits.
    pub fn finish<R: Wait, O: Sink>(
        self,
        rt: &R,
        shared: Shared<K>,
        sink: &mut O,
    ) -> (Wiki<K>, Result<u64, FeedRefusal>)
        requires { IsFree shared self.pass }
        ensures start { result.0.start ≡ shared.start }
        ensures seen { IsPrefix self.pass.seen result.0.journal }
        ensures within { self.sent ≤ length self.pass.seen }
        ensures sent { IfOk result.1 (λ n. (n ≡ length result.0.journal) × Appends (O.taken sink.old) (O.taken sink.new) (event_bytes (drop self.sent result.0.journal))) }
        ensures never_falls { O.faults sink.old ≤ O.faults sink.new }
        ensures no_fault { result.1 ≢ Err FeedRefusal.WriteFault → O.faults sink.new ≡ O.faults sink.old }
        ensures fault { result.1 ≡ Err FeedRefusal.WriteFault → Rose (O.faults sink.old) (O.faults sink.new) }
    {
        let Feeder { alloc, pass, sent } = self;
        let wiki = shared.finish(rt, pass);
        let point = wiki.point();
        let lines = lines_of(alloc, events_behind(&wiki, sent));
        let answer = match write_lines(sink, lines) {
            Err(refusal) => Err(refusal),
            Ok(()) => Ok(point),
        };
        (wiki, answer)
    }

    /// Takes the wiki and sends nothing more. It waits.
    pub fn give_up<R: Wait>(self, rt: &R, shared: Shared<K>) -> Wiki<K>
        requires { IsFree shared self.pass }
        ensures start { result.start ≡ shared.start }
        ensures seen { IsPrefix self.pass.seen result.journal }
    {
        let Feeder {
            alloc: _,
            pass,
            sent: _,
        } = self;
        shared.finish(rt, pass)
    }
}

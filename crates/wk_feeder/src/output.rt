//! A feeder and the sink that it writes to, for many threads.
ghost use Rattle.std.specs.Prelude.{◌≡◌, ◌≢◌, ◌≤◌, ℕ, Err, IfOk, IfSome, IsErr, IsSome, List, None, Option, Some, is_some, length, take};
ghost use Rattle.std.specs.Io.KnownBytes.{Appends};
ghost use Rattle.std.proofs.Props.{props};
ghost use base.Fml.{GName};
ghost use Rattle.wk_base.specs.Faults.{Rose};
ghost use Rattle.wk_turn.specs.Told.{Begun, IsOf};
ghost use Rattle.wk_wiki_rules.specs.Starts.{Start};
ghost use Rattle.wk_feeder.specs.Bytes.{HasTaken, event_bytes};
ghost use Rattle.wk_feeder.specs.declared.start.FeedRefusal.TheVariants.{WriteFault};

use crate::feeder::Feeder;
use crate::start::FeedRefusal;
use std::marker::{Brand, PhantomData};
use std::sync::Wait;
use wk_base::Sink;
use wk_core::{Keeper, Wiki};
use wk_shared::Shared;

/// How a feed's events begin: where they are sent, and of which shared wiki they are. It is for proofs alone.
pub trait Begins {
    /// The bytes that the sink had taken before the first of them, where it tells them.
    ghost told: { Option (List ℕ) };

    /// How many of the sink's writes had failed then.
    ghost faults: { ℕ };

    /// Which turn the wiki is behind, and how the wiki began.
    ghost turn: { Option (Begun Start) };

    /// Which sink it is.
    ghost name: { Option GName };
}

impl Begins for Brand {
    ghost told = { None };

    ghost faults = { 0 };

    ghost turn = { None };

    ghost name = { None };
}

/// A feeder and the sink that all it sends goes to, until a call is refused: from then on nothing is sent. It stands behind a lock,
/// where many threads ask it.
#[derive(Drop)]
pub struct FeedOutput<'a, K: Keeper, O: Sink, E: Begins> {
    feeder: Feeder<K>,
    sink: &'a mut O,
    refused: Option<FeedRefusal>,
    begins: PhantomData<E>,
    ghost same: { Some sink.ghost_name ≡ E.name },
    ghost turn: { IfSome E.turn (λ turn. IsOf turn feeder.pass) } by { Prim.hlevel props },
    ghost free: { feeder.pass.held ≡ None },
    ghost sent: { refused ≡ None → HasTaken E.told (O.taken sink.now) (event_bytes (take feeder.sent feeder.pass.seen)) } by { Prim.hlevel props },
    ghost never_falls: { E.faults ≤ O.faults sink.now },
    ghost no_fault: { refused ≢ Some WriteFault → O.faults sink.now ≡ E.faults },
    ghost fault: { refused ≡ Some WriteFault → Rose E.faults (O.faults sink.now) },
}

/// What is left where a feed has ended.
#[derive(Drop)]
pub struct Fed<'a, K: Keeper, O: Sink> {
    /// The wiki.
    pub wiki: Wiki<K>,
    /// The sink.
    pub sink: &'a mut O,
    /// How many events were sent, all that the wiki has; or why not all were sent: the first refusal.
    pub sent: Result<u64, FeedRefusal>,
}

impl<'a, K: Keeper, O: Sink, E: Begins> FeedOutput<'a, K, O, E> {
    /// Where the events of a wiki are sent to a sink, of which none was sent yet. Takes no memory.
    pub fn new(feeder: Feeder<K>, sink: &'a mut O) -> FeedOutput<'a, K, O, E>
        requires told { O.taken sink.old ≡ E.told }
        requires faults { O.faults sink.old ≡ E.faults }
        requires turn { IfSome E.turn (λ turn. IsOf turn feeder.pass) }
        requires free { feeder.pass.held ≡ None }
        requires sent { feeder.sent ≡ 0 }
        requires name { Some sink.ghost_name ≡ E.name }
    {
        FeedOutput {
            feeder,
            sink,
            refused: None,
            begins: PhantomData,
        }
    }

    /// Sends the events since, if no call was refused. It waits for the turn.
    pub fn send_new<R: Wait>(&mut self, rt: &R, shared: &Shared<K>) -> Result<(), FeedRefusal>
        requires { E.turn ≡ Some shared.now }
    {
        if let Some(refusal) = self.refused {
            return Err(refusal);
        }
        match self.feeder.send_new(rt, shared, self.sink) {
            Ok(_) => Ok(()),
            Err(refusal) => {
                self.refused = Some(refusal);
                Err(refusal)
            }
        }
    }

    /// Whether a call was refused: nothing more is sent then. Takes no memory.
    pub fn is_refused(&self) -> bool
        ensures { result ≡ is_some self.now.refused }
    {
        self.refused.is_some()
    }

    /// Takes the wiki, and sends the rest, if no call was refused. It waits.
    pub fn finish<R: Wait>(self, rt: &R, shared: Shared<K>) -> Fed<'a, K, O>
        requires { E.turn ≡ Some shared }
        ensures name { Some result.sink.ghost_name ≡ E.name }
        ensures start { result.wiki.start ≡ shared.start }
        ensures refused { IsSome self.entry.refused → IsErr result.sent }
        ensures sent { IfOk result.sent (λ n. (n ≡ length result.wiki.journal)
            × Appends E.told (O.taken result.sink.now) (event_bytes result.wiki.journal)) }
        ensures never_falls { E.faults ≤ O.faults result.sink.now }
        ensures no_fault { result.sent ≢ Err WriteFault → O.faults result.sink.now ≡ E.faults }
        ensures fault { result.sent ≡ Err WriteFault → Rose E.faults (O.faults result.sink.now) }
    {
        let FeedOutput {
            feeder,
            sink,
            refused,
            begins: _,
        } = self;
        match refused {
            None => {
                let (wiki, sent) = feeder.finish(rt, shared, sink);
                Fed { wiki, sink, sent }
            }
            Some(refusal) => Fed {
                wiki: feeder.give_up(rt, shared),
                sink,
                sent: Err(refusal),
            },
        }
    }
}

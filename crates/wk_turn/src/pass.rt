//! What one caller knows of the turn, and the state while it has the turn.
ghost use Rattle.std.specs.Prelude.{◌≡◌, length, IsSome};

use crate::board::Place;
use crate::storied::Storied;
use std::marker::{Model, PhantomData};
use std::snapshot::Snapshot;

/// What one caller has seen of a turn's state. Contracts see its turn, the state's start, the journal that it has seen,
/// the places in it of the entries that it made, and the journal at `enter` while it has the turn.
#[derive(Drop)]
pub struct Pass<S: Storied> {
    pub(crate) seat: Place<S>,
    pub(crate) point: u64,
}

impl<S: Storied> Model for Pass<S> {
    ghost use Rattle.wk_turn.specs.Told.{Story, Settled, story};

    ghost Value = { Story S.Start S.Entry };

    ghost view = { λ p. story p.seat.table_id p.seat.me.0 };

    ghost invariant = { λ p. Settled S.closes p.point p.seat.me.0 p.seat.me.1 };
}

/// The state, for the caller that has the turn. It is not `Drop`: give it back by `leave`.
pub struct Held<S: Storied> {
    pub value: S,
    /// The state as it was at `enter`, for contracts alone.
    pub before: Snapshot<S>,
    // Only `enter` makes a held state, and only `leave` takes one apart.
    pub(crate) entered: PhantomData<S>,
}

impl<S: Storied> Pass<S> {
    ghost use Rattle.wk_turn.specs.Journal.{AreOwn};

    /// The length of the journal that the pass has seen. No memory.
    pub fn point(&self) -> u64
        ensures length { result ≡ length self.now.seen }
        ensures start { IsSome self.now.start }
        ensures own { AreOwn S.closes self.now.seen self.now.own }
    {
        self.point
    }
}

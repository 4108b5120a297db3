//! The table that callers share, and what a seat at it knows.
ghost use Rattle.std.specs.Prelude.{◌≡◌, ℕ, ◌+◌, ◌<◌, List, ◌∷◌};

use crate::storied::Storied;
use atomic_table::{Seat, Shared, Table, TableRule};
use std::alloc::Global;
use std::collections::LinkedList;
use std::snapshot::Snapshot;

/// The word that counts the seats.
pub(crate) const SEATS: usize = 0;

/// The word that has the next number to be drawn.
pub(crate) const TICKET: usize = 1;

/// The word that has the number which is served.
pub(crate) const SERVING: usize = 2;

/// The word that has the length of the journal.
pub(crate) const FRONT: usize = 3;

/// The first of the words that callers sleep on until their number is served. Each counts the calls to those on it.
const WAITING: usize = 4;

/// How many words callers sleep on. With fewer callers in line each has a word of its own.
const WAITS: u64 = 16;

/// The words as a turn begins round a state with a journal of this length: one seat, no number drawn, nobody called.
pub(crate) fn words_at(point: u64) -> [u64; 20]
    ensures { (calls : List ℕ) × (result ≡ 1 ∷ 0 ∷ 0 ∷ point ∷ calls) }
{
    let mut words = [0; 20];
    words[SEATS] = 1;
    words[FRONT] = point;
    words
}

/// The word that the caller with this number sleeps on.
pub(crate) fn waiting(number: u64) -> usize
    ensures { (k : ℕ) × (result ≡ 4 + k) × (k < 16) }
{
    WAITING + (number % WAITS) as usize
}

/// How far a seat has come in the line. A number is any number here; the words keep it modulo 2^64.
pub enum Stage<E> {
    Idle,
    Waits(u64),
    /// With the journal as it was found.
    Holds(u64, LinkedList<E>),
    Marked(u64),
    Ended(u64),
}

/// What a seat at the table knows. No value of it is made.
pub struct View<A, E> {
    /// None once the view was joined to another.
    pub start: Option<A>,
    pub seen: LinkedList<E>,
    /// The places of the entries that the seat made.
    pub own: LinkedList<u64>,
    /// What the two seats had seen and made that were joined last.
    pub one: LinkedList<E>,
    pub two: LinkedList<E>,
    pub own_one: LinkedList<u64>,
    pub own_two: LinkedList<u64>,
    pub stage: Stage<E>,
    /// 1 between the count of a new seat and its making.
    pub seats: u64,
}

pub struct InLine;

impl<S: Storied> TableRule<Option<S>, View<S::Start, S::Entry>, Snapshot<S>> for InLine {
    ghost use Rattle.std.specs.Prelude.{Some};
    ghost use Rattle.wk_turn.specs.Line.{Kept, newcomer};

    ghost holds = { λ first. Kept S.start S.journal S.closes (S.start first.value) };

    ghost first = { λ first. newcomer (Some (S.start first.value)) (S.journal first.value) };
}

pub type Board<S> = Table<
    Option<S>,
    View<<S as Storied>::Start, <S as Storied>::Entry>,
    Snapshot<S>,
    InLine,
    Global,
>;

pub type Top<S> = Shared<
    Option<S>,
    View<<S as Storied>::Start, <S as Storied>::Entry>,
    Snapshot<S>,
    InLine,
>;

pub type Place<S> = Seat<Option<S>, View<<S as Storied>::Start, <S as Storied>::Entry>>;

//! The lock, and how it begins.
ghost use Rattle.std.specs.Prelude.{◌≡◌, [], ◌∷◌, Some, None, IfOk, IfErr};

use crate::board::{Board, words_at};
use crate::line::{end, give_turn, merge_seats, split_seat, take_turn};
use crate::pass::{Held, Pass};
use crate::storied::Storied;
use atomic_table::{Refused, Table};
use std::alloc::{AllocFailed, Global};
use std::marker::{Model, PhantomData};
use std::snapshot::Snapshot;
use std::sync::Wait;
use wk_memory::Memory;

/// A ticket lock round one state. Contracts see which it is, and the state's start.
#[derive(Drop)]
pub struct Turn<S: Storied> {
    pub(crate) board: Board<S>,
}

impl<S: Storied> Model for Turn<S> {
    ghost use Rattle.std.specs.Prelude.{◌≡◌};
    ghost use Rattle.wk_turn.specs.Told.{Begun};

    ghost Value = { Begun S.Start };

    ghost view = { λ t. record { id = t.board.shared.table_id; start = S.start t.board.shared.key.value } };

    ghost invariant = { λ t. (t.board.shared.table_id.words ≡ 20) × (t.board.shared.table_id.slots ≡ 1) };
}

/// Begins the turn round a state. The pass has seen the state's whole journal, and made no entry.
/// The state comes back where memory ran out.
pub fn begin<S: Storied>(alloc: Global, state: S) -> Result<(Turn<S>, Pass<S>), (S, Memory)>
    ensures ok { IfOk result (λ t. (t.0.start ≡ S.start state)
        × (t.1 ≡ record { turn = t.0.id; start = Some t.0.start; seen = S.journal state; own = []; held = None })) }
    ensures err { IfErr result (λ e. e.0 ≡ state) }
{
    let point = state.length();
    let first = Snapshot::of(&state);
    let mut slots = Vec::new(alloc);
    if let Err(AllocFailed { value }) = slots.push(Some(state)) {
        slots.destroy_empty();
        return Err((value.unwrap(), Memory));
    }
    match Table::new(alloc, &words_at(point), slots, &first) {
        Ok((board, seat)) => Ok((Turn { board }, Pass { seat, point })),
        Err(Refused { mut slots }) => {
            let state = slots.pop().unwrap().unwrap();
            slots.destroy_empty();
            Err((state, Memory))
        }
    }
}

impl<S: Storied> Turn<S> {
    ghost use mathlib.Core.List.{IsPrefix};
    ghost use Rattle.std.specs.Prelude.{◌≡◌, ℕ, ◌++◌, [], Some, None, IfOk};
    ghost use Rattle.wk_turn.specs.Journal.{AreOwn, ClosesOwn, IsOpen, added, longer};
    ghost use Rattle.wk_turn.specs.Told.{IsOf};

    /// Makes a pass that has seen what `pass` has seen, and has made no entry.
    /// Memory comes only where 2^64 - 1 passes were made, or 2^64 - 1 times in a row another call was first.
    pub fn split(&self, pass: &mut Pass<S>) -> Result<Pass<S>, Memory>
        requires { IsOf self.now pass.old }
        ensures pass { pass.new ≡ pass.old }
        ensures new { IfOk result (λ p. p ≡ record pass.old { own = []; held = None }) }
    {
        let point = pass.point;
        match split_seat(&self.board.shared, &mut pass.seat) {
            Some(seat) => Ok(Pass { seat, point }),
            None => Err(Memory),
        }
    }

    /// Takes in another pass: what it has seen, where that is more, and its entries, which are others than
    /// those of `pass`. What either left open is still open. No memory.
    pub fn join(&self, pass: &mut Pass<S>, other: Pass<S>)
        requires turn { IsOf self.now pass.old × IsOf self.now other }
        requires free { (pass.old.held ≡ None) × (other.held ≡ None) }
        ensures pass { pass.new ≡ record pass.old
            { seen = longer pass.old.seen other.seen; own = pass.old.own ++ other.own } }
        ensures seen { IsPrefix pass.old.seen pass.new.seen × IsPrefix other.seen pass.new.seen }
        ensures own { AreOwn S.closes pass.new.seen pass.new.own }
        ensures each { AreOwn S.closes pass.new.seen pass.old.own
            × AreOwn S.closes pass.new.seen other.own }
        ensures mine_open { (p : ℕ) → IsOpen S.closes pass.old.seen pass.old.own p
            → IsOpen S.closes pass.new.seen pass.old.own p }
        ensures other_open { (p : ℕ) → IsOpen S.closes other.seen other.own p
            → IsOpen S.closes pass.new.seen other.own p }
    {
        let Pass { seat, point } = other;
        merge_seats(&self.board.shared, &mut pass.seat, seat);
        pass.point = pass.point.max(point);
    }

    /// Waits for the turn and takes the state. Its journal begins with all that the pass has seen, and what
    /// the pass left open is still open. No memory.
    pub fn enter<R: Wait>(&self, rt: &R, pass: &mut Pass<S>) -> Held<S>
        requires turn { IsOf self.now pass.old }
        requires free { pass.old.held ≡ None }
        ensures pass { pass.new ≡ record pass.old { held = Some (S.journal result.value) } }
        ensures before { result.before.value ≡ result.value }
        ensures start { S.start result.value ≡ self.now.start }
        ensures seen { IsPrefix pass.old.seen (S.journal result.value) }
        ensures own { AreOwn S.closes (S.journal result.value) pass.old.own }
        ensures still_open { (p : ℕ) → IsOpen S.closes pass.old.seen pass.old.own p
            → IsOpen S.closes (S.journal result.value) pass.old.own p }
    {
        let value = take_turn(rt, &self.board.shared, &mut pass.seat);
        let before = Snapshot::of(&value);
        Held {
            value,
            before,
            entered: PhantomData,
        }
    }

    /// Gives the state and the turn back. The state keeps its start, its journal begins with the one at
    /// `enter`, and an entry that was added closes only what is the pass's own and still open. The pass has
    /// then seen the whole journal, and the entries added are its own. No memory.
    pub fn leave(&self, pass: &mut Pass<S>, held: Held<S>)
        requires turn { IsOf self.now pass.old }
        requires entered { pass.old.held ≡ Some (S.journal held.before.value) }
        requires start { S.start held.value ≡ self.now.start }
        requires journal { IsPrefix (S.journal held.before.value) (S.journal held.value) }
        requires closes { ClosesOwn S.closes (S.journal held.before.value) (S.journal held.value)
            pass.old.own }
        ensures pass { let after = S.journal held.value in pass.new ≡ record pass.old
            { seen = after; own = pass.old.own ++ added (S.journal held.before.value) after; held = None } }
        ensures seen { IsPrefix pass.old.seen pass.new.seen }
        ensures own { AreOwn S.closes pass.new.seen pass.new.own }
    {
        let Held {
            value,
            before,
            entered: _,
        } = held;
        let point = value.length();
        give_turn(&self.board.shared, &mut pass.seat, value, point, &before);
        pass.point = point;
    }

    /// Waits for the turn, and keeps the state. Its journal begins with all that the pass has seen, and what
    /// the pass left open is still open. No memory.
    pub fn finish<R: Wait>(self, rt: &R, pass: Pass<S>) -> S
        requires turn { IsOf self pass }
        requires free { pass.held ≡ None }
        ensures start { S.start result ≡ self.start }
        ensures seen { IsPrefix pass.seen (S.journal result) }
        ensures own { AreOwn S.closes (S.journal result) pass.own }
        ensures still_open { (p : ℕ) → IsOpen S.closes pass.seen pass.own p
            → IsOpen S.closes (S.journal result) pass.own p }
    {
        let Turn { board } = self;
        let Pass { mut seat, point: _ } = pass;
        let state = take_turn(rt, &board.shared, &mut seat);
        end(board, seat);
        state
    }
}

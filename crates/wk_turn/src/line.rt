//! What a seat does at the table: it takes its turn and gives it back, makes another seat, and takes another in.
ghost use Rattle.std.specs.Prelude.{◌≡◌, ℕ, List, [], ◌∷◌, ◌++◌, length, true, false, IfSome, Some};
ghost use mathlib.Core.List.{IsPrefix};
ghost use Rattle.atomic_table.specs.Seated.{TableId};
ghost use Rattle.wk_turn.specs.Journal.{added, ClosesOwn, AreOwn};
ghost use Rattle.wk_turn.specs.Line.{Finds, joined, newcomer, staged};

use crate::board::{Board, FRONT, Place, SEATS, SERVING, Stage, TICKET, Top, waiting};
use crate::plays::{Call, Copy, Count, Draw, End, Glue, HandOn, Look, Mark, Tell};
use crate::storied::Storied;
use crossbeam_utils::Backoff;
use std::snapshot::Snapshot;
use std::sync::Wait;

// Counts one more seat. False where the word can count no more.
fn count_seat<S: Storied>(top: &Top<S>, place: &mut Place<S>) -> bool
    requires table { (place.old.table_id ≡ top.now.table_id) × (top.now.table_id.words ≡ 20) }
    requires bare { place.old.me.0.seats ≡ 0 }
    ensures seat { (place.new.table_id ≡ place.old.table_id) × (place.new.id ≡ place.old.id) }
    ensures counted { result ≡ true → place.new.me ≡ (record place.old.me.0 { seats = 1 }, place.old.me.1) }
    ensures full { result ≡ false → place.new.me ≡ place.old.me }
{
    'counting: for _ in 0..u64::MAX {
        let seats = top.peek(SEATS);
        if seats == u64::MAX {
            return false;
        }
        if top.compare_exchange::<Count>(place, SEATS, seats, seats + 1) == seats {
            return true;
        }
    }
    false
}

/// A new seat that has seen as much, and made nothing. None where no more seats can be counted.
pub(crate) fn split_seat<S: Storied>(top: &Top<S>, place: &mut Place<S>) -> Option<Place<S>>
    requires table { (place.old.table_id ≡ top.now.table_id) × (top.now.table_id.words ≡ 20) }
    requires bare { place.old.me.0.seats ≡ 0 }
    ensures seat { (place.new.table_id ≡ place.old.table_id) × (place.new.id ≡ place.old.id)
        × (place.new.me ≡ place.old.me) }
    ensures new { IfSome result (λ p. (p.table_id ≡ place.old.table_id)
        × (p.me ≡ (newcomer place.old.me.0.start place.old.me.0.seen, []))) }
{
    if !count_seat(top, place) {
        return None;
    }
    Some(top.split_seat::<Copy>(place))
}

/// Takes in another seat. What both have seen are beginnings of what is then seen.
pub(crate) fn merge_seats<S: Storied>(top: &Top<S>, place: &mut Place<S>, other: Place<S>)
    requires table { (place.old.table_id ≡ top.now.table_id) × (other.table_id ≡ top.now.table_id)
        × (top.now.table_id.words ≡ 20) }
    requires idle { (place.old.me.0.stage ≡ Stage.Idle) × (other.me.0.stage ≡ Stage.Idle)
        × (other.me.1 ≡ []) × (other.me.0.seats ≡ 0) }
    ensures seat { (place.new.table_id ≡ place.old.table_id) × (place.new.id ≡ place.old.id)
        × (place.new.me ≡ (joined place.old.me.0 other.me.0, place.old.me.1)) }
    ensures told { let v = joined place.old.me.0 other.me.0 in
        IsPrefix v.one v.seen × IsPrefix v.two v.seen × AreOwn S.closes v.seen v.own_one
        × AreOwn S.closes v.seen v.own_two × AreOwn S.closes v.seen v.own }
{
    top.join_seat::<Glue>(place, other);
    top.load::<Tell>(place, SEATS);
}

/// How many callers before its own number a caller may find and not sleep at once.
const NEAR: u64 = 3;

/// How often such a caller looks before it sleeps, with at most 64 pauses of the processor in between: for about as long as
/// it takes to wake a few who sleep, so that callers who all have a processor don't fall asleep one after the other.
const PATIENCE: u64 = 40;

// Sleeps until the caller with this number is called. Whoever calls has served the number before, and changes the word: so
// either the look here finds the number served, or the word isn't the one any more that the sleep is for. It leaves the
// table and each seat as they were, since it has no seat: without one no word can be written.
fn sleep<S: Storied, R: Wait>(rt: &R, top: &Top<S>, number: u64)
    requires { top.now.table_id.words ≡ 20 }
{
    let word = waiting(number);
    let calls = top.peek(word);
    if top.peek(SERVING) != number {
        top.park(rt, word, (calls & 0xffff_ffff) as u32);
    }
}

// Looks a while whether the number is served. It pauses in between and never yields, since each yield would leave a thread
// that only computes the processor for its whole share.
fn look_on<S: Storied>(top: &Top<S>, number: u64) -> bool
    requires { top.now.table_id.words ≡ 20 }
{
    let backoff = Backoff::new();
    'looking: for _ in 0..PATIENCE {
        backoff.spin();
        if top.peek(SERVING) == number {
            return true;
        }
    }
    false
}

// Lets others go first, where the number that was found served isn't the caller's. How long it rests no clause says;
// nothing depends on it but time, since the caller looks again at once. It stands apart from the loop, so that a turn that
// waits for nobody costs no more than its steps.
#[cold]
#[inline(never)]
fn rest<S: Storied, R: Wait>(rt: &R, top: &Top<S>, number: u64, serving: u64)
    requires { top.now.table_id.words ≡ 20 }
{
    if number.wrapping_sub(serving) > NEAR || !look_on(top, number) {
        sleep(rt, top, number);
    }
}

// Takes the state out of the slot that the place holds. It stands apart from the loop, so that what the steps of a take leave
// in memory isn't cleared before the number is drawn.
fn take_state<S: Storied>(top: &Top<S>, place: &mut Place<S>) -> S
    requires table { (place.old.table_id ≡ top.now.table_id) × (top.now.table_id.words ≡ 20)
        × (top.now.table_id.slots ≡ 1) }
    requires there { (state : S) × (place.old.me.1 ≡ (0, Some state) ∷ []) }
    ensures seat { (place.new.table_id ≡ place.old.table_id) × (place.new.id ≡ place.old.id) }
    ensures taken { (place.old.me.1 ≡ (0, Some result) ∷ [])
        × (place.new.me ≡ (place.old.me.0, (0, None) ∷ [])) }
{
    top.exchange(place, 0, None).unwrap()
}

/// Draws a number, waits until it is served, and takes the state.
#[inline]
pub(crate) fn take_turn<S: Storied, R: Wait>(rt: &R, top: &Top<S>, place: &mut Place<S>) -> S
    requires table { (place.old.table_id ≡ top.now.table_id) × (top.now.table_id.words ≡ 20)
        × (top.now.table_id.slots ≡ 1) }
    requires idle { (place.old.me.0.stage ≡ Stage.Idle) × (place.old.me.1 ≡ []) }
    ensures seat { (place.new.table_id ≡ place.old.table_id) × (place.new.id ≡ place.old.id) }
    ensures turn { (n : ℕ)
        × (place.new.me ≡ staged place.old.me (Stage.Holds n (S.journal result)) ((0, None) ∷ [])) }
    ensures finds { Finds S.start S.journal S.closes place.old.me.0 result }
{
    let number = top.fetch_add::<Draw>(place, TICKET, 1);
    'waiting: for _ in rt.forever() {
        let serving = top.load::<Look>(place, SERVING);
        if serving == number {
            return take_state(top, place);
        }
        rest(rt, top, number, serving);
    }
    unreachable!()
}

// Calls whoever has the number that is served, if anybody is in line. Who draws after this look finds the number served, and
// doesn't sleep. That it wakes them no clause can say: the runs on several threads show it.
fn call<S: Storied>(top: &Top<S>, place: &mut Place<S>, serving: u64)
    requires { (place.old.table_id ≡ top.now.table_id) × (top.now.table_id.words ≡ 20) }
    ensures { (place.new.table_id ≡ place.old.table_id) × (place.new.id ≡ place.old.id)
        × (place.new.me ≡ place.old.me) }
{
    if top.peek(TICKET) != serving {
        let word = waiting(serving);
        top.fetch_add::<Call>(place, word, 1);
        top.wake_all(word);
    }
}

/// Puts the state into the slot, marks how long its journal is, and gives the slot back as the next number is served.
pub(crate) fn give_turn<S: Storied>(
    top: &Top<S>,
    place: &mut Place<S>,
    state: S,
    point: u64,
    before: &Snapshot<S>,
)
    requires table { (place.old.table_id ≡ top.now.table_id) × (top.now.table_id.words ≡ 20)
        × (top.now.table_id.slots ≡ 1) }
    requires turn { ((n : ℕ) × (place.old.me.0.stage ≡ Stage.Holds n (S.journal before.now.value)))
        × (place.old.me.1 ≡ (0, None) ∷ []) }
    requires state { (place.old.me.0.start ≡ Some (S.start state))
        × IsPrefix (S.journal before.now.value) (S.journal state)
        × (point ≡ length (S.journal state)) }
    requires closes { ClosesOwn S.closes (S.journal before.now.value) (S.journal state)
        place.old.me.0.own }
    ensures seat { (place.new.table_id ≡ place.old.table_id) × (place.new.id ≡ place.old.id) }
    ensures idle { let own = place.old.me.0.own ++ added (S.journal before.now.value) (S.journal state) in
        place.new.me ≡ (
          record place.old.me.0
              { seen = S.journal state; own = own; own_one = []; own_two = []; stage = Stage.Idle },
          [],
        ) }
    ensures seen { IsPrefix place.old.me.0.seen (S.journal state) }
    ensures own { AreOwn S.closes (S.journal state)
        (place.old.me.0.own ++ added (S.journal before.now.value) (S.journal state)) }
{
    let nothing = top.exchange(place, 0, Some(state));
    let None = nothing else { unreachable!() };
    top.fetch_max::<Mark>(place, FRONT, point);
    let served = top.fetch_add::<HandOn>(place, SERVING, 1);
    call(top, place, served.wrapping_add(1));
}

/// Gives the slot back empty, and closes the table.
pub(crate) fn end<S: Storied>(board: Board<S>, mut place: Place<S>)
    requires table { (place.table_id ≡ board.shared.table_id) × (board.shared.table_id.words ≡ 20)
        × (board.shared.table_id.slots ≡ 1) }
    requires turn { ((n : ℕ) × (at : List S.Entry) × (place.me.0.stage ≡ Stage.Holds n at))
        × (place.me.1 ≡ (0, None) ∷ []) }
{
    board.shared.load::<End>(&mut place, SEATS);
    let mut closed = board.close_with(place);
    let nothing = closed.take(0);
    let None = nothing else { unreachable!() };
    closed.free();
}

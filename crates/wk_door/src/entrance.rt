// Links that many threads take of one door.
ghost use Rattle.std.specs.Prelude.{◌≡◌, ◌+◌, ◌≤◌, ◌<◌, ℕ, IfNone, IfSome, IsTrue, None, Option, Some, false, true};
ghost use Rattle.std.proofs.Props.{props};
ghost use base.Fml.{GName};
ghost use Rattle.wk_base.specs.Faults.{Rose};
ghost use Rattle.wk_door.specs.Entrances.{HasLeft, IsEntered, IsOver, after_giving, is_emptied};
ghost use Rattle.wk_door.specs.Told.{DoorCounts, counts_of};
ghost use Rattle.wk_door.specs.declared.entrance.Shut.TheVariants.{Broken, Empty};

use crate::Door;
use std::marker::{Brand, PhantomData};

/// What a door told before links were taken, and how many are taken at most: for proofs alone.
pub trait Entry {
    /// What the door told: its address, how many links it had given, and how many were left.
    ghost told: { Option DoorCounts };

    /// How many of its calls had failed.
    ghost faults: { ℕ };

    /// How many links are taken at most.
    ghost most: { ℕ };

    /// Which door it is.
    ghost name: { Option GName };
}

impl Entry for Brand {
    ghost told = { None };

    ghost faults = { 0 };

    ghost most = { 0 };

    ghost name = { None };
}

/// Why a door gives no more links.
#[derive(Clone, Copy, PartialEq, Eq)]
pub enum Shut {
    /// None is left.
    Empty,
    /// A call of the door failed.
    Broken,
}

/// Where links are taken of a door, one after the other, until so many were taken, none is left, or a call fails. It stands
/// behind a lock, where many threads take them.
#[derive(Drop)]
pub struct Entrance<'a, D: Door, E: Entry> {
    door: &'a mut D,
    most: u64,
    taken: u64,
    shut: Option<Shut>,
    entry: PhantomData<E>,
    ghost same: { Some door.ghost_name ≡ E.name },
    ghost most_is: { most ≡ E.most },
    ghost within: { taken ≤ E.most },
    ghost given: { counts_of (D.told door.now) ≡ after_giving E.told taken },
    ghost left: { HasLeft E.told taken } by { Prim.hlevel props },
    ghost never_falls: { E.faults ≤ D.faults door.now },
    ghost going: { shut ≡ None → D.faults door.now ≡ E.faults },
    ghost emptied: { shut ≡ Some Empty → (D.faults door.now ≡ E.faults) × (is_emptied (counts_of (D.told door.now)) ≡ true) },
    ghost broken: { shut ≡ Some Broken → Rose E.faults (D.faults door.now) },
}

/// How many links were taken of a door, and why it gives no more, where it is shut.
#[derive(Clone, Copy, PartialEq, Eq)]
pub struct Taken {
    /// How many links were taken.
    pub count: u64,
    /// Why the door gives no more.
    pub shut: Option<Shut>,
}

/// A door of which no more links are taken, and what was taken of it.
#[derive(Drop)]
pub struct Closed<'a, D: Door> {
    /// The door.
    pub door: &'a mut D,
    /// What was taken of it.
    pub taken: Taken,
}

impl<'a, D: Door, E: Entry> Entrance<'a, D, E> {
    /// Where at most so many links are taken of a door, of which none was yet. No memory is taken.
    pub fn new(door: &'a mut D, most: u64) -> Entrance<'a, D, E>
        requires told { counts_of (D.told door.old) ≡ E.told }
        requires faults { D.faults door.old ≡ E.faults }
        requires most { most ≡ E.most }
        requires name { Some door.ghost_name ≡ E.name }
    {
        Entrance {
            door,
            most,
            taken: 0,
            shut: None,
            entry: PhantomData,
        }
    }

    /// Whether no more links are taken. Takes no memory.
    pub fn is_over(&self) -> bool
        ensures over { IsTrue result → IsOver self.now.most self.now.taken self.now.shut }
        ensures goes_on { result ≡ false → (self.now.shut ≡ None) × (self.now.taken < self.now.most) }
    {
        self.shut.is_some() || self.most <= self.taken
    }

    /// The next link, if more are taken. It may wait for a peer.
    pub fn next_link(&mut self) -> Option<D::Link>
        ensures over { IfNone result (IsOver self.new.most self.new.taken self.new.shut) }
        ensures taken { IfSome result (λ link. (self.new.taken ≡ self.old.taken + 1) × (self.new.shut ≡ None)) }
    {
        if self.is_over() {
            return None;
        }
        match self.door.accept() {
            Ok(Some(link)) => {
                self.taken += 1;
                Some(link)
            }
            Ok(None) => {
                self.shut = Some(Shut::Empty);
                None
            }
            Err(_) => {
                self.shut = Some(Shut::Broken);
                None
            }
        }
    }

    /// The door, and what was taken of it. Takes no memory.
    pub fn close(self) -> Closed<'a, D>
        ensures name { Some result.door.ghost_name ≡ E.name }
        ensures entered { IsEntered E.told (counts_of (D.told result.door.now)) E.faults (D.faults result.door.now) E.most result.taken.count result.taken.shut }
        ensures count { result.taken.count ≡ self.entry.taken }
        ensures shut { result.taken.shut ≡ self.entry.shut }
    {
        let Entrance {
            door,
            most: _,
            taken: count,
            shut,
            entry: _,
        } = self;
        Closed {
            door,
            taken: Taken { count, shut },
        }
    }
}

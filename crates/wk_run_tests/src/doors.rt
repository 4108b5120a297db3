//! A door of links of any kind.
ghost use Rattle.std.specs.Prelude.{Some};

use std::alloc::Global;
use std::marker::Model;
use wk_base::{Calls, Failed};
use wk_door::Door;
use wk_link::Link;
use wk_memory::Memory;

/// A door of these links, in their order, whose calls fail where it was told so. It tells everything.
#[derive(Drop)]
pub struct ListDoor<L: Link> {
    links: Vec<L>,
    given: u64,
    address: Vec<u8>,
    listens: bool,
    most: usize,
    calls: Calls,
}

impl<L: Link> Model for ListDoor<L> {
    ghost use Rattle.std.specs.Prelude.{◌+◌, ◌^◌, ◌<◌, ◌≤◌, Some, None, if◌then◌else◌, length, vec_capacity};
    ghost use Rattle.wk_door.specs.MemDoor.{MemDoorTold};

    ghost Value = { MemDoorTold L };

    ghost view = { λ d. record {
      told = record {
        address = if d.listens then Some d.address.items else None;
        given = d.given;
        left = d.links.items;
      };
      most = d.most;
      calls = d.calls;
    } };

    ghost invariant = { λ d. (d.given + length d.links.items < 2 ^ 64) × (d.most ≤ vec_capacity d.address) };
}

/// How long an address may be, in bytes.
const MOST: usize = 64;

impl<L: Link> ListDoor<L> {
    /// A door with these links, which listens nowhere yet. The calls with the numbers of `fail`, counted from 1 over both
    /// kinds, fail.
    pub fn new(alloc: Global, links: Vec<L>, fail: Vec<u64>) -> Result<ListDoor<L>, Memory> {
        Ok(ListDoor {
            links,
            given: 0,
            address: Vec::with_capacity(alloc, MOST)?,
            listens: false,
            most: MOST,
            calls: Calls::new(fail),
        })
    }
}

impl<L: Link> Door for ListDoor<L> {
    type Link = L;

    ghost told = { λ d. Some d.told };

    ghost faults = { λ d. d.calls.faults };

    /// Listens, unless this call is one that is to fail, or the address is too long: then it fails.
    fn listen(&mut self, address: &str) -> Result<(), Failed> {
        if self.calls.is_next_to_fail() || address.len() > self.most {
            self.calls.fail();
            return Err(Failed);
        }
        self.address.clear();
        // There is room for it.
        self.address.extend_from_slice(address.as_bytes()).unwrap();
        self.listens = true;
        self.calls.succeed();
        Ok(())
    }

    /// Gives the first link that is left, unless this call is one that is to fail.
    fn accept(&mut self) -> Result<Option<L>, Failed> {
        if self.calls.is_next_to_fail() {
            self.calls.fail();
            return Err(Failed);
        }
        self.calls.succeed();
        if self.links.is_empty() {
            return Ok(None);
        }
        self.given += 1;
        Ok(Some(self.links.remove(0)))
    }
}

// A door of links in memory.
ghost use Rattle.std.specs.Prelude.{◌≡◌, ◌⊎◌, ◌↔◌, ◌≤◌, ◌<◌, IfOk, IsErr, OnErr, OnOk, None, Some, length};
ghost use Rattle.wk_base.specs.Calls.{IsNextToFail, after_failure, after_success, none_made};
ghost use Rattle.wk_base.specs.Faults.{Rose};
ghost use Rattle.wk_door.specs.Told.{IsAccepted, listening};

use crate::Door;
use std::alloc::Global;
use std::marker::Model;
use wk_base::{Calls, Failed, Memory};
use wk_link::MemLink;

/// A door of links in memory, in their order, whose calls fail where it was told so. It tells everything.
#[derive(Drop)]
pub struct MemDoor {
    links: Vec<MemLink>,
    given: u64,
    address: Vec<u8>,
    listens: bool,
    most: usize,
    calls: Calls,
}

impl Model for MemDoor {
    ghost use Rattle.std.specs.Prelude.{◌+◌, ◌^◌, ◌<◌, ◌≤◌, Some, None, if◌then◌else◌, length, vec_capacity};
    ghost use Rattle.wk_door.specs.MemDoor.{MemDoorTold};
    ghost use Rattle.wk_link.specs.MemLinks.{BothWays};

    ghost Value = { MemDoorTold BothWays };

    ghost view = { λ d. record {
      told = record {
        address = if d.listens then Some d.address.items else None;
        given = d.given;
        left = d.links.items;
      };
      most = d.most;
      calls = d.calls;
    } };

    ghost invariant = { λ d. (d.given + length d.links.items < 2 ^ 64) × (d.most ≤ vec_capacity d.address) };
}

impl MemDoor {
    /// A door with these links, which listens nowhere yet. The calls with the numbers of `fail`, counted from 1 over both
    /// kinds, fail. There is room for an address of `most` bytes.
    ///
    /// `Memory` comes where there is no room for such an address.
    pub fn new(
        alloc: Global,
        links: Vec<MemLink>,
        most: usize,
        fail: Vec<u64>,
    ) -> Result<MemDoor, Memory>
        ensures { IfOk result (λ d. d ≡ record {
          told = record { address = None; given = 0; left = links.items };
          most = most;
          calls = none_made fail.items;
        }) }
    {
        Ok(MemDoor {
            links,
            given: 0,
            address: Vec::with_capacity(alloc, most)?,
            listens: false,
            most,
            calls: Calls::new(fail),
        })
    }

    /// How many links were given.
    pub fn given(&self) -> u64
        ensures { result ≡ self.now.told.given }
    {
        self.given
    }

    /// How many calls have failed.
    pub fn faults(&self) -> u64
        ensures { result ≡ self.now.calls.faults }
    {
        self.calls.faults()
    }
}

impl Door for MemDoor {
    type Link = MemLink;

    ghost told = { λ d. Some d.told };

    ghost faults = { λ d. d.calls.faults };

    /// Listens, unless this call is one that is to fail, or there is no room for the address: then it fails. A call that
    /// fails changes nothing but the counts.
    fn listen(&mut self, address: &str) -> Result<(), Failed>
        ensures listens { OnOk result (Some self.new.told ≡ listening (Some self.old.told) address.now) }
        ensures refused { OnErr result (Some self.new.told ≡ Some self.old.told) }
        ensures never_falls { self.old.calls.faults ≤ self.new.calls.faults }
        ensures no_fault { OnOk result (self.new.calls.faults ≡ self.old.calls.faults) }
        ensures cause { OnErr result (Rose self.old.calls.faults self.new.calls.faults) }

        ensures fails { IsErr result ↔ (IsNextToFail self.old.calls ⊎ (self.old.most < length address.now)) }
        ensures failed { OnErr result (self.new ≡ record self.old { calls = after_failure self.old.calls }) }
        ensures counted { OnOk result (self.new.calls ≡ after_success self.old.calls) }
        ensures most { self.new.most ≡ self.old.most }
    {
        if self.calls.is_next_to_fail() || address.len() > self.most {
            self.calls.fail();
            return Err(Failed);
        }
        self.address.clear();
        // There is room for it.
        self.address.extend_from_slice(address.as_bytes()).unwrap();
        self.listens = true;
        self.calls.succeed();
        Ok(())
    }

    /// Gives the first link that is left, unless this call is one that is to fail. A call that fails changes nothing but
    /// the counts.
    fn accept(&mut self) -> Result<Option<MemLink>, Failed>
        ensures given { IfOk result (IsAccepted (Some self.old.told) (Some self.new.told)) }
        ensures refused { OnErr result (Some self.new.told ≡ Some self.old.told) }
        ensures never_falls { self.old.calls.faults ≤ self.new.calls.faults }
        ensures no_fault { OnOk result (self.new.calls.faults ≡ self.old.calls.faults) }
        ensures cause { OnErr result (Rose self.old.calls.faults self.new.calls.faults) }

        ensures fails { IsErr result ↔ IsNextToFail self.old.calls }
        ensures failed { OnErr result (self.new ≡ record self.old { calls = after_failure self.old.calls }) }
        ensures counted { OnOk result (self.new.calls ≡ after_success self.old.calls) }
        ensures most { self.new.most ≡ self.old.most }
    {
        if self.calls.is_next_to_fail() {
            self.calls.fail();
            return Err(Failed);
        }
        self.calls.succeed();
        if self.links.is_empty() {
            return Ok(None);
        }
        self.given += 1;
        Ok(Some(self.links.remove(0)))
    }
}

//! The replica as a state with a journal.
ghost use Rattle.std.specs.Prelude.{◌≡◌, None, length};

use crate::replica::Replica;
use std::marker::Model;
use wk_core::JournalEvent;
use wk_turn::Storied;

/// How a replica began, as contracts see it. No value of it is made.
#[derive(Drop)]
pub struct ReplicaStart {
    _none: (),
}

impl Model for ReplicaStart {
    ghost use Rattle.std.specs.Prelude.{false, None};
    ghost use Rattle.wk_page_rules.specs.Verdict.{full_limits};
    ghost use Rattle.wk_wiki_rules.specs.States.{no_state};
    ghost use Rattle.wk_wiki_rules.specs.Starts.{Start};
    ghost use Rattle.wk_replica.specs.Replicas.{ReplicaBegun};

    ghost Value = { ReplicaBegun };

    ghost view = { λ _. record {
      wiki = record { state = no_state; limits = full_limits; whole = false; tells = false; failed = None; sealed = None };
      line = None;
    } };
}

impl Storied for Replica {
    type Start = ReplicaStart;

    type Entry = JournalEvent;

    ghost start = { λ r. r.start };

    ghost journal = { λ r. r.journal };

    ghost closes = { λ _. None };

    /// How many events were taken. No memory.
    fn length(&self) -> u64 {
        self.taken()
    }
}

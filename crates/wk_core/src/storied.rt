//! The wiki as a state with a journal.
ghost use Rattle.std.specs.Prelude.{◌≡◌, length};
ghost use Rattle.wk_wiki_rules.specs.Entries.{closes};

use crate::wiki::Wiki;
use std::marker::Model;
use wk_keeper::Keeper;
use wk_turn::Storied;

/// How a wiki began, as contracts see it. No value of it is made.
#[derive(Drop)]
pub struct WikiStart {
    _none: (),
}

impl Model for WikiStart {
    ghost use Rattle.std.specs.Prelude.{false, None};
    ghost use Rattle.wk_page_rules.specs.Verdict.{full_limits};
    ghost use Rattle.wk_wiki_rules.specs.States.{no_state};
    ghost use Rattle.wk_wiki_rules.specs.Starts.{Start};

    ghost Value = { Start };

    ghost view = { λ _. record { state = no_state; limits = full_limits; whole = false; tells = false; failed = None; sealed = None } };
}

/// What has happened to a wiki, as contracts see it. No value of it is made.
#[derive(Drop)]
pub struct JournalEvent {
    _none: (),
}

impl Model for JournalEvent {
    ghost use Rattle.wk_wiki_rules.specs.Events.{Event, Claim};

    ghost Value = { Event };

    ghost view = { λ _. Claim };
}

impl<K: Keeper> Storied for Wiki<K> {
    type Start = WikiStart;

    type Entry = JournalEvent;

    ghost start = { λ w. w.start };

    ghost journal = { λ w. w.journal };

    ghost closes = { closes };

    /// How many events there are since the store was opened. No memory.
    fn length(&self) -> u64 {
        self.point()
    }
}

//! Refreshes, in two halves: what needs memory, and what doesn't.
ghost use Rattle.std.specs.Prelude.{◌≡◌, IsSome, OnErr, OnOk};
ghost use Rattle.wk_wiki_rules.specs.Names.{AreAmong, admitted, with_rows_at};
ghost use Rattle.wk_index.specs.Held.{rows_of};
ghost use Rattle.wk_index.specs.Named.{rows_at};

use crate::live::Live;
use wk_index::SharedRows;
use wk_memory::Memory;
use wk_table_rows::PageRows;

impl Live {
    /// Adds the rows to those that are stored of the page, which is there. `Memory` leaves the state as it was. What
    /// follows is `set_rows`, with these rows or with those that were stored.
    pub fn admit(&mut self, page: u32, rows: &PageRows) -> Result<(), Memory>
        requires { IsSome (rows_at self.old.state.stored page) }
        ensures state { OnOk result (self.new.state ≡ record self.old.state {
          stored = with_rows_at self.old.state.stored page (admitted (rows_of self.old.state.stored page) rows.now);
        }) }
        ensures refused { OnErr result (self.new.state ≡ self.old.state) }
        ensures room { self.new.room ≡ self.old.room }
    {
        self.index.admit(page, rows)
    }

    /// Makes these all rows that are stored of the page, which is there, and has each of them. Takes no memory.
    pub fn set_rows(&mut self, page: u32, rows: SharedRows)
        requires there { IsSome (rows_at self.old.state.stored page) }
        requires among { AreAmong rows (rows_of self.old.state.stored page) }
        ensures state { self.new.state ≡ record self.old.state { stored = with_rows_at self.old.state.stored page rows } }
        ensures room { self.new.room ≡ self.old.room }
    {
        self.index.shed(page, rows);
    }
}

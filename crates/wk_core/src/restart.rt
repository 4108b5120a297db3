//! What a wiki leaves behind, restarts, and seals.
ghost use Rattle.std.specs.Prelude.{◌≡◌, None, Some, [], length, is_some, unwrap_or, IfOk, OnErr, OnOk};
ghost use Rattle.wk_wiki_rules.specs.Lives.{reopened};
ghost use Rattle.wk_wiki_rules.specs.Tables.{tables_of};
ghost use Rattle.wk_life_laws.specs.Lives.{journal_of};
ghost use Rattle.wk_life_laws.specs.Next.{Begins, new_start, with_seal};
ghost use Rattle.wk_core.specs.Seen.{IsTold};

use crate::kept::none_kept;
use crate::life::Life;
use crate::wiki::Wiki;
use wk_changes::tables;
use wk_keeper::Keeper;
use wk_memory::Memory;
use wk_tables::Tables;

impl Life {
    /// The tables of the state.
    fn tables(&self) -> Result<Tables, Memory>
        ensures { IfOk result (λ tables. tables.tables ≡ tables_of self.now.life.state) }
    {
        let alloc = *self.entries.allocator();
        let (revs, jobs, index) = (self.live.revs(), self.live.jobs(), self.live.index());
        tables(alloc, revs, jobs, index)
    }

    /// Begins anew, as behind a restart.
    fn renew(&mut self) -> Result<(), Memory>
        ensures renewed { OnOk result (Begins self.new.life (new_start (reopened self.old.life.state) self.old.life.limits self.old.life.whole)) }
        ensures state { OnOk result (self.new.life.state ≡ reopened self.old.life.state) }
        ensures refused { OnErr result (self.new ≡ self.old) }
        ensures tables { tables_of self.new.life.state ≡ tables_of self.old.life.state }
    {
        let kept = self.live.kept()?;
        self.live.reopen();
        self.entries.clear();
        self.kept = kept;
        self.sealed = None;
        self.spare = 0;
        Ok(())
    }

    /// Seals the journal at its present point, where it isn't sealed yet. Takes no memory.
    fn seal(&mut self)
        ensures { self.new ≡ record self.old { life = with_seal self.old.life (unwrap_or self.old.life.sealed (length (journal_of self.old.life))) } }
    {
        match self.sealed {
            Some(_) => {}
            None => self.sealed = Some(self.point()),
        }
    }

    /// Whether the journal is sealed. Takes no memory.
    fn is_sealed(&self) -> bool
        ensures { result ≡ is_some self.now.life.sealed }
    {
        self.sealed.is_some()
    }
}

impl<K: Keeper> Wiki<K> {
    /// The tables of the state, made for the asking in one walk over all that the wiki holds. No text is copied.
    pub fn tables(&self) -> Result<Tables, Memory>
        ensures { IfOk result (λ tables. tables.tables ≡ tables_of self.now.state) }
    {
        self.life.tables()
    }

    /// Gives the keeper up. Where it tells its tables they are those of the state. Takes no memory.
    pub fn release(self) -> K
        ensures keeper { result ≡ self.keeper }
        ensures told { IsTold K.told self.state result }
    {
        let Wiki {
            keeper,
            life: _,
            cache: _,
        } = self;
        keeper
    }

    /// Restarts the wiki without reading the store: each refresh job waits, in the order of their numbers, no ticket is out
    /// any more, and the journal is empty and begins here. The wiki isn't sealed then, and keeps no drafts. `Memory` leaves
    /// all as it was.
    pub fn renew(&mut self) -> Result<(), Memory>
        ensures renewed { OnOk result (self.new ≡ record self.old {
          start = record self.old.start { state = reopened self.old.state; sealed = None };
          journal = [];
          state = reopened self.old.state;
        }) }
        ensures refused { OnErr result (self.new ≡ self.old) }
        ensures keeper { self.new.keeper ≡ self.old.keeper }
    {
        let cache = none_kept(self.life.allocator())?;
        self.life.renew()?;
        self.cache = cache;
        Ok(())
    }

    /// Seals the wiki: from now on nothing is saved. Its point is a part of the start that the wiki tells; a wiki that was
    /// sealed keeps the point of that seal. It is no event. Takes no memory.
    pub fn seal(&mut self)
        ensures { self.new ≡ record self.old {
          start = record self.old.start { sealed = Some (unwrap_or self.old.start.sealed (length self.old.journal)) };
        } }
    {
        self.life.seal();
    }

    /// Whether the wiki is sealed. Takes no memory.
    pub fn is_sealed(&self) -> bool
        ensures { result ≡ is_some self.now.start.sealed }
    {
        self.life.is_sealed()
    }
}

//! Refreshes that come in.
ghost use Rattle.std.specs.Prelude.{◌≡◌, ◌≢◌, ◌≤◌, ◌↔◌, ℕ, IfNone, IsTrue, None, Some, IsSome, length, true, IfOk, IfSome, OnErr, OnOk};
ghost use Rattle.std.specs.Option.{option_map};
ghost use Rattle.wk_base.specs.Faults.{Rose};
ghost use Rattle.wk_table_rules.specs.Changes.{applied, fits};
ghost use Rattle.wk_view_rules.specs.Rows.{rows};
ghost use Rattle.wk_page_rules.specs.History.{text_of_revision};
ghost use Rattle.wk_view_rules.specs.Worlds.{Agrees, IsHonest, of_world};
ghost use Rattle.wk_wiki_rules.specs.Jobs.{page_held_by};
ghost use Rattle.wk_wiki_rules.specs.States.{stored_at, title_at, world_of};
ghost use Rattle.wk_wiki_rules.specs.Events.{Done};
ghost use Rattle.wk_wiki_rules.specs.Staleness.{first_stale};
ghost use Rattle.wk_wiki_rules.specs.Names.{with_rows_at};
ghost use Rattle.wk_index.specs.Named.{rows_at};
ghost use Rattle.wk_live.specs.Stale.{first_stale_mark};
ghost use Rattle.wk_life_laws.specs.Next.{IsNext};
ghost use Rattle.wk_core.specs.Answers.{event_of_answer, refused_answer, told_stale};
ghost use Rattle.wk_core.specs.Seen.{IsTold, seen};
ghost use Rattle.wk_core.specs.Steps.{GoesOn, KeeperGoesOn, HasMade};
ghost use Rattle.wk_core.specs.Tickets.{IsDraftFor, IsOut};

use crate::life::Life;
use crate::outcomes::Finished;
use crate::ticket::Ticket;
use crate::wiki::Wiki;
use wk_changes::{refresh_change, refresh_change_without_rows};
use wk_expand::{Draft, Read};
use wk_index::{SharedRows, is_same};
use wk_keeper::{Keeper, KeeperRefusal};
use wk_live::Live;
use wk_memory::Memory;
use wk_rows::rows;
use wk_table_rows::PageRows;
use wk_tables::Change;
use wk_wiki_rules::Entry;

/// What is answered where a read isn't current any more; `None` exactly where each is current. Want of memory for the
/// answer is an answer too.
fn stale_answer(live: &Live, reads: &[Read]) -> Option<Finished>
    ensures none { IfNone result (first_stale_mark (world_of live.now.state) reads.now ≡ None) }
    ensures some { IfSome result (λ answer. IsSome (first_stale_mark (world_of live.now.state) reads.now) × (answer ≢ Finished.Done) × (answer ≢ Finished.StoreFault)) }
    ensures stale { IfSome result (λ answer. answer ≢ Finished.Memory → told_stale answer ≡ first_stale_mark (world_of live.now.state) reads.now) }
{
    let (read, now) = live.first_stale(reads)?;
    match read.title.share() {
        Ok(title) => Some(Finished::Stale {
            title,
            kind: read.kind,
            read: read.mark,
            now,
        }),
        Err(_) => Some(Finished::Memory),
    }
}

/// Whether the page is there and has these link rows already. Takes no memory.
fn is_stored(live: &Live, page: u32, rows: &PageRows) -> bool
    ensures { IsTrue result ↔ (rows_at live.now.state.stored page ≡ Some rows.now) }
{
    match live.index().rows(page) {
        Some(stored) => is_same(stored.rows(), rows),
        None => false,
    }
}

/// Gives a page other link rows, in the store and then here, where the change of the store is this one. All memory is
/// taken before; where the store refuses, the page has its old rows again.
fn write_rows<K: Keeper>(
    keeper: &mut K,
    live: &mut Live,
    page: u32,
    old: SharedRows,
    new: SharedRows,
    change: &Change,
) -> Result<(), KeeperRefusal>
    requires there { rows_at live.old.state.stored page ≡ Some old }
    requires fits { IfSome (K.told keeper.old) (λ kept. fits kept change.now ≡ true) }
    ensures written { OnOk result (live.new.state ≡ record live.old.state { stored = with_rows_at live.old.state.stored page new }) }
    ensures refused { OnErr result (live.new.state ≡ live.old.state) }
    ensures applied { OnOk result (IfSome (K.told keeper.old) (λ kept. K.told keeper.new ≡ Some (applied kept change.now))) }
    ensures kept { OnErr result (K.told keeper.new ≡ K.told keeper.old) }
    ensures keeper { KeeperGoesOn K.told K.faults K.is_whole keeper.old keeper.new }
    ensures no_fault { result ≢ Err KeeperRefusal.Failed → K.faults keeper.new ≡ K.faults keeper.old }
    ensures fault { result ≡ Err KeeperRefusal.Failed → Rose (K.faults keeper.old) (K.faults keeper.new) }
{
    live.admit(page, new.rows())?;
    match keeper.apply(change) {
        Ok(()) => {
            live.set_rows(page, new);
            Ok(())
        }
        Err(refusal) => {
            live.set_rows(page, old);
            Err(refusal)
        }
    }
}

impl Life {
    /// Brings a refresh in whose page has its rows already: its job goes. Takes no memory.
    fn drop_job(&mut self, ticket: u64, page: u32)
        requires held { page_held_by self.old.life.state.jobs ticket ≡ Some page }
        requires stored { stored_at self.old.life.state page ≡ rows (world_of self.old.life.state) (title_at self.old.life.state.history page) }
        ensures { IsNext self.old.life (Done ticket) self.new.life }
    {
        self.live.drop_refresh(page);
        self.entries.push_reserved(Entry::Done(ticket));
    }

    /// Brings a refresh in whose page gets these rows, which it has in the present world.
    fn replace_rows<K: Keeper>(
        &mut self,
        keeper: &mut K,
        ticket: u64,
        page: u32,
        new: SharedRows,
    ) -> Result<(), KeeperRefusal>
        requires held { page_held_by self.old.life.state.jobs ticket ≡ Some page }
        requires rows { new ≡ rows (world_of self.old.life.state) (title_at self.old.life.state.history page) }
        requires told { IsTold K.told self.old.life.state keeper.old }
        ensures done { OnOk result (IsNext self.old.life (Done ticket) self.new.life) }
        ensures refused { OnErr result (self.new.life ≡ self.old.life) }
        ensures told { OnOk result (IsTold K.told self.new.life.state keeper.new) }
        ensures kept { OnErr result (K.told keeper.new ≡ K.told keeper.old) }
        ensures keeper { KeeperGoesOn K.told K.faults K.is_whole keeper.old keeper.new }
        ensures no_fault { result ≢ Err KeeperRefusal.Failed → K.faults keeper.new ≡ K.faults keeper.old }
        ensures fault { result ≡ Err KeeperRefusal.Failed → Rose (K.faults keeper.old) (K.faults keeper.new) }
    {
        let alloc = *self.entries.allocator();
        let change = refresh_change(alloc, self.live.jobs(), page, new.rows())?;
        let old = stored_rows(&self.live, page)?;
        write_rows(keeper, &mut self.live, page, old, new, &change)?;
        self.live.drop_refresh(page);
        self.entries.push_reserved(Entry::Done(ticket));
        Ok(())
    }
}

/// The link rows of a page that is there, for a further owner.
fn stored_rows(live: &Live, page: u32) -> Result<SharedRows, Memory>
    requires { IsSome (rows_at live.now.state.stored page) }
    ensures { IfOk result (λ rows. rows_at live.now.state.stored page ≡ Some rows) }
{
    let Some(rows) = live.index().rows(page) else {
        unreachable!()
    };
    rows.share()
}

/// Brings a refresh in each of whose reads is current: the page's rows are those of its draft from now on, and its job
/// goes, in the store and then here. Where they are stored already, the job alone goes.
fn store_rows<K: Keeper>(
    keeper: &mut K,
    life: &mut Life,
    ticket: u64,
    page: u32,
    draft: &Draft,
) -> Result<(), KeeperRefusal>
    requires held { page_held_by life.old.life.state.jobs ticket ≡ Some page }
    requires page { draft.now.page ≡ title_at life.old.life.state.history page }
    requires own_text { draft.now.given ≡ None }
    requires current { Agrees (of_world (world_of life.old.life.state)) draft.now.reads }
    requires told { IsTold K.told life.old.life.state keeper.old }
    ensures done { OnOk result (IsNext life.old.life (Done ticket) life.new.life) }
    ensures refused { OnErr result (life.new.life ≡ life.old.life) }
    ensures told { OnOk result (IsTold K.told life.new.life.state keeper.new) }
    ensures kept { OnErr result (K.told keeper.new ≡ K.told keeper.old) }
    ensures keeper { KeeperGoesOn K.told K.faults K.is_whole keeper.old keeper.new }
    ensures no_fault { result ≢ Err KeeperRefusal.Failed → K.faults keeper.new ≡ K.faults keeper.old }
    ensures fault { result ≡ Err KeeperRefusal.Failed → Rose (K.faults keeper.old) (K.faults keeper.new) }
{
    life.facts();
    let alloc = life.allocator();
    let new = SharedRows::new(rows(alloc, draft)?)?;
    if is_stored(life.live(), page, new.rows()) {
        let change = refresh_change_without_rows(alloc, life.live().jobs(), page)?;
        keeper.apply(&change)?;
        life.drop_job(ticket, page);
        return Ok(());
    }
    life.replace_rows(keeper, ticket, page, new)
}

/// Finishes a refresh each of whose reads is current. Where the store refuses, or memory runs out, its job is queued
/// again.
fn finish_current<K: Keeper>(
    keeper: &mut K,
    life: &mut Life,
    ticket: u64,
    draft: &Draft,
) -> Finished
    requires held { (page : ℕ) × (page_held_by life.old.life.state.jobs ticket ≡ Some page) × (title_at life.old.life.state.history page ≡ draft.now.page) }
    requires own_text { draft.now.given ≡ None }
    requires current { Agrees (of_world (world_of life.old.life.state)) draft.now.reads }
    requires told { IsTold K.told life.old.life.state keeper.old }
    ensures next { IsNext life.old.life (event_of_answer ticket result) life.new.life }
    ensures told { IsTold K.told life.new.life.state keeper.new }
    ensures kept { result ≢ Finished.Done → K.told keeper.new ≡ K.told keeper.old }
    ensures keeper { KeeperGoesOn K.told K.faults K.is_whole keeper.old keeper.new }
    ensures fault { result ≡ Finished.StoreFault → Rose (K.faults keeper.old) (K.faults keeper.new) }
    ensures no_fault { result ≢ Finished.StoreFault → K.faults keeper.new ≡ K.faults keeper.old }
    ensures not_stale { told_stale result ≡ None }
{
    life.facts();
    let Some(page) = life.live().jobs().page_held(ticket) else {
        unreachable!()
    };
    match store_rows(keeper, life, ticket, page, draft) {
        Ok(()) => Finished::Done,
        Err(refusal) => {
            life.give_back(ticket);
            refused_answer(refusal)
        }
    }
}

/// What is answered where a refresh wasn't written.
fn refused_answer(refusal: KeeperRefusal) -> Finished
    ensures { result ≡ refused_answer refusal }
{
    match refusal {
        KeeperRefusal::Failed => Finished::StoreFault,
        KeeperRefusal::Memory => Finished::Memory,
    }
}

/// Finishes a refresh: sets its page's rows where each read is current, and else queues its job again.
fn finish_by<K: Keeper>(keeper: &mut K, life: &mut Life, ticket: u64, draft: &Draft) -> Finished
    requires held { (page : ℕ) × (page_held_by life.old.life.state.jobs ticket ≡ Some page) × (title_at life.old.life.state.history page ≡ draft.now.page) }
    requires own_text { draft.now.given ≡ None }
    requires honest { IsHonest (text_of_revision life.old.life.state.history) draft.now.reads }
    requires told { IsTold K.told life.old.life.state keeper.old }
    ensures next { IsNext life.old.life (event_of_answer ticket result) life.new.life }
    ensures told { IsTold K.told life.new.life.state keeper.new }
    ensures stale { result ≢ Finished.Memory → told_stale result ≡ first_stale (world_of life.old.life.state) draft.now.reads }
    ensures kept { result ≢ Finished.Done → K.told keeper.new ≡ K.told keeper.old }
    ensures keeper { KeeperGoesOn K.told K.faults K.is_whole keeper.old keeper.new }
    ensures fault { result ≡ Finished.StoreFault → Rose (K.faults keeper.old) (K.faults keeper.new) }
    ensures no_fault { result ≢ Finished.StoreFault → K.faults keeper.new ≡ K.faults keeper.old }
{
    life.facts();
    let Some(answer) = stale_answer(life.live(), draft.reads()) else {
        return finish_current(keeper, life, ticket, draft);
    };
    life.give_back(ticket);
    answer
}

impl<K: Keeper> Wiki<K> {
    /// Finishes the refresh of a ticket that is out, with a draft of its page's own text whose texts are those of their
    /// revisions: where each title that was read is current, the page's link rows are those of the draft, which are those
    /// that it has in the present world, and its job goes.
    ///
    /// `Stale` exactly where a read's mark isn't the present one, of text another revision, of existence another answer:
    /// the first such read. Else `StoreFault` only where the keeper's count of faults rose, `Memory`, which may come at any
    /// place, or `Done`. At each answer but `Done` the job is queued again, behind all others, and the tables are as
    /// before; at each but `StoreFault` the count of faults is as it was. The claim has made the room for it, so the journal is never full here.
    ///
    /// It takes a time that grows with the draft's reads and with the page's old and new rows, and not with the wiki.
    pub fn finish(&mut self, ticket: Ticket, draft: Draft) -> Finished
        requires out { IsOut self.old.state ticket }
        requires draft { IsDraftFor self.old.state ticket draft }
        ensures event { HasMade self.old self.new (event_of_answer ticket.ticket result) }
        ensures stale { result ≢ Finished.Memory → told_stale result ≡ first_stale (world_of self.old.state) draft.reads }
        ensures tables { result ≢ Finished.Done → K.told self.new.keeper ≡ K.told self.old.keeper }
        ensures keeper { GoesOn K.told K.faults self.old self.new }
        ensures fault { result ≡ Finished.StoreFault → Rose (K.faults self.old.keeper) (K.faults self.new.keeper) }
        ensures no_fault { result ≢ Finished.StoreFault → K.faults self.new.keeper ≡ K.faults self.old.keeper }
    {
        finish_by(&mut self.keeper, &mut self.life, ticket.let_go(), &draft)
    }
}

//! Fans.
ghost use Rattle.std.specs.Prelude.{◌≡◌, ◌≢◌, ◌≤◌, ◌<◌, ◌^◌, not, count_by, None, Some, IsSome, length, true, false, IfOk, IfSome, IfNone, OnErr, OnOk};
ghost use Rattle.std.specs.Option.{option_map};
ghost use Rattle.wk_base.specs.Faults.{Rose};
ghost use Rattle.wk_wiki_rules.specs.Jobs.{FanEntry, first_fan, has_refresh};
ghost use Rattle.wk_wiki_rules.specs.Steps.{fan_pages};
ghost use Rattle.wk_wiki_rules.specs.Events.{Fan};
ghost use Rattle.wk_wiki_rules.specs.Fans.{next_fan_outcome};
ghost use Rattle.wk_wiki_rules.specs.Room.{is_fan_refused};
ghost use Rattle.wk_wiki_rules.specs.TableChanges.{fan_change};
ghost use Rattle.wk_live.specs.Fanned.{IsNextServed};
ghost use Rattle.wk_life_laws.specs.Lives.{journal_of};
ghost use Rattle.wk_life_laws.specs.Next.{IsNext};
ghost use Rattle.wk_core.specs.Answers.{fanned_outcome};
ghost use Rattle.wk_core.specs.Seen.{IsTold, is_fan_refused_now, seen};
ghost use Rattle.wk_core.specs.Steps.{GoesOn, KeeperGoesOn, HasMade, HasMadeNothing};

use crate::life::Life;
use crate::outcomes::{FanRefusal, Fanned};
use crate::wiki::Wiki;
use wk_changes::fan_change;
use wk_jobs::Jobs;
use wk_keeper::{Keeper, KeeperRefusal};
use wk_memory::Memory;
use wk_tables::Change;
use wk_wiki_rules::Entry;

/// What a fan wants memory for: the pages that it serves, whether no page behind them names its title, its change of the
/// tables, and what is told of it.
#[derive(Drop)]
struct Prepared {
    served: Vec<u32>,
    is_last: bool,
    change: Change,
    told: Fanned,
}

/// How many of the pages have no refresh job.
fn count_new(jobs: &Jobs, pages: &[u32]) -> u32
    requires { length pages.now < 2 ^ 32 }
    ensures { result ≡ count_by (λ page. not (has_refresh jobs.now.lists page)) pages.now }
{
    let mut count = 0;
    for page in pages {
        if jobs.refresh_job(*page).is_none() {
            count += 1;
        }
    }
    count
}

impl Life {
    /// Takes the memory that a fan wants.
    fn prepare_fan(&mut self) -> Result<Prepared, Memory>
        requires there { IsSome (first_fan self.old.life.state.jobs) }
        requires free { is_fan_refused self.old.life.limits self.old.life.state (length (journal_of self.old.life)) ≡ false }
        ensures served { IfOk result (λ p. IsNextServed self.old.life.state fan_pages p.served.items p.is_last) }
        ensures change { IfOk result (λ p. (fan : FanEntry) → first_fan self.old.life.state.jobs ≡ Some fan → p.change ≡ fan_change fan_pages self.old.life.state fan) }
        ensures told { IfOk result (λ p. Some (fanned_outcome p.told) ≡ next_fan_outcome fan_pages self.old.life.state) }
        ensures room { IfOk result (λ p. length p.served.items ≤ self.new.room.refreshes) }
        ensures spare { OnOk result (1 ≤ self.new.spare) }
        ensures life { self.new.life ≡ self.old.life }
    {
        let alloc = *self.entries.allocator();
        let Some(fan) = self.live.jobs().first_fan() else {
            unreachable!()
        };
        let title = fan.title.share()?;
        let (served, is_last) = self.live.next_served(FAN_PAGES)?;
        let (revs, jobs, index) = (self.live.revs(), self.live.jobs(), self.live.index());
        let change = fan_change(alloc, revs, jobs, index, &served, is_last)?;
        let told = Fanned {
            title,
            served: served.len() as u32,
            queued: count_new(jobs, &served),
        };
        self.live.make_room(served.len())?;
        self.make_room(1)?;
        Ok(Prepared {
            served,
            is_last,
            change,
            told,
        })
    }

    /// Serves the first fan job. Takes no memory.
    fn serve(&mut self, served: &[u32], is_last: bool)
        requires served { IsNextServed self.old.life.state fan_pages served.now is_last }
        requires there { IsSome (first_fan self.old.life.state.jobs) }
        requires free { is_fan_refused self.old.life.limits self.old.life.state (length (journal_of self.old.life)) ≡ false }
        requires room { length served.now ≤ self.old.room.refreshes }
        requires spare { 1 ≤ self.old.spare }
        ensures { IsNext self.old.life Fan self.new.life }
    {
        self.live.serve_fan(served, is_last);
        self.entries.push_reserved(Entry::Fan);
        self.spare -= 1;
    }
}

/// Serves the first fan job, which there is, and for which the journal has room: in the store, and then here. All memory
/// is taken before.
fn serve_first<K: Keeper>(keeper: &mut K, life: &mut Life) -> Result<Fanned, FanRefusal>
    requires there { IsSome (first_fan life.old.life.state.jobs) }
    requires free { is_fan_refused life.old.life.limits life.old.life.state (length (journal_of life.old.life)) ≡ false }
    requires told { IsTold K.told life.old.life.state keeper.old }
    ensures told { IsTold K.told life.new.life.state keeper.new }
    ensures fanned { IfOk result (λ fanned. Some (fanned_outcome fanned) ≡ next_fan_outcome fan_pages life.old.life.state) }
    ensures next { OnOk result (IsNext life.old.life Fan life.new.life) }
    ensures refused { OnErr result (life.new.life ≡ life.old.life) }
    ensures kept { OnErr result (K.told keeper.new ≡ K.told keeper.old) }
    ensures not_full { result ≢ Err FanRefusal.JournalFull }
    ensures keeper { KeeperGoesOn K.told K.faults K.is_whole keeper.old keeper.new }
    ensures fault { result ≡ Err FanRefusal.StoreFault → Rose (K.faults keeper.old) (K.faults keeper.new) }
    ensures no_fault { result ≢ Err FanRefusal.StoreFault → K.faults keeper.new ≡ K.faults keeper.old }
{
    life.facts();
    let Ok(prepared) = life.prepare_fan() else {
        return Err(FanRefusal::Memory);
    };
    match keeper.apply(&prepared.change) {
        Ok(()) => {
            life.serve(&prepared.served, prepared.is_last);
            Ok(prepared.told)
        }
        Err(KeeperRefusal::Failed) => Err(FanRefusal::StoreFault),
        Err(KeeperRefusal::Memory) => Err(FanRefusal::Memory),
    }
}

/// The most pages that one fan serves.
const FAN_PAGES: usize = 300;

impl<K: Keeper> Wiki<K> {
    /// Serves the first fan job: the next of the pages whose stored rows name its title, at most 300, in the order of their
    /// numbers. Each that has no refresh job gets one. The job goes where no page behind them names its title.
    ///
    /// `None` exactly where no fan job stands. `JournalFull` exactly where one does, and the journal's length and the
    /// tickets that are out are at the limit, or the numbers of jobs have come to their end. `Memory` may come, and
    /// `StoreFault` only where a fan job stands for which the journal has room, and the keeper's count of faults rose; at each
    /// other answer that count is as it was. Where nothing was served the wiki is as before.
    pub fn fan(&mut self) -> Result<Option<Fanned>, FanRefusal>
        ensures fanned { IfOk result (λ fanned. option_map fanned_outcome fanned ≡ next_fan_outcome fan_pages self.old.state) }
        ensures event { IfOk result (λ fanned. IfSome fanned (λ _. HasMade self.old self.new Fan)) }
        ensures none { IfOk result (λ fanned. IfNone fanned (HasMadeNothing K.told self.old self.new)) }
        ensures room { IfOk result (λ fanned. IfSome fanned (λ _. is_fan_refused_now self.old ≡ false)) }
        ensures full { result ≡ Err FanRefusal.JournalFull → IsSome (first_fan self.old.state.jobs) × (is_fan_refused_now self.old ≡ true) }
        ensures refused { OnErr result (HasMadeNothing K.told self.old self.new) }
        ensures keeper { GoesOn K.told K.faults self.old self.new }
        ensures failed { result ≡ Err FanRefusal.StoreFault → IsSome (first_fan self.old.state.jobs) × (is_fan_refused_now self.old ≡ false) }
        ensures fault { result ≡ Err FanRefusal.StoreFault → Rose (K.faults self.old.keeper) (K.faults self.new.keeper) }
        ensures no_fault { result ≢ Err FanRefusal.StoreFault → K.faults self.new.keeper ≡ K.faults self.old.keeper }
    {
        if self.life.live().jobs().first_fan().is_none() {
            return Ok(None);
        }
        if self.life.is_full() {
            return Err(FanRefusal::JournalFull);
        }
        match serve_first(&mut self.keeper, &mut self.life) {
            Ok(fanned) => Ok(Some(fanned)),
            Err(refusal) => Err(refusal),
        }
    }
}

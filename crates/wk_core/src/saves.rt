//! Saves.
ghost use Rattle.std.specs.Prelude.{◌≡◌, ◌≢◌, ◌≤◌, None, Some, IfOk, IfErr, IfSome, IsSome, OnErr, OnOk};
ghost use Rattle.wk_base.specs.Faults.{Rose};
ghost use Rattle.wk_page_rules.specs.Verdict.{accept, refuse};
ghost use Rattle.wk_wiki_rules.specs.Events.{Save};
ghost use Rattle.wk_wiki_rules.specs.Verdicts.{event_of};
ghost use Rattle.wk_wiki_rules.specs.SaveOutcomes.{deletion, save_outcome};
ghost use Rattle.wk_wiki_rules.specs.TableChanges.{save_change};
ghost use Rattle.wk_revs.specs.Edit.{edit_asked};
ghost use Rattle.wk_revs.specs.Standing.{standing as standing_of};
ghost use Rattle.wk_revs.specs.Verdict.{refusal_of};
ghost use Rattle.wk_live.specs.HeldState.{HasRoomFor};
ghost use Rattle.wk_live.specs.Wanted.{fan_of_save};
ghost use Rattle.wk_life_laws.specs.Next.{IsNext};
ghost use Rattle.wk_core.specs.Accepted.{IsAccepted};
ghost use Rattle.wk_core.specs.Answers.{saved_outcome, told_of_save};
ghost use Rattle.wk_core.specs.Plans.{HasPlanned};
ghost use Rattle.wk_core.specs.Seen.{IsTold, seen, verdict_now};
ghost use Rattle.wk_core.specs.Steps.{GoesOn, HasMade, HasMadeAtMost, HasMadeNothing};

use crate::life::Life;
use crate::outcomes::Saved;
use crate::plans::{Plan, Planned};
use crate::wiki::Wiki;
use wk_changes::save_change;
use wk_keeper::{Keeper, KeeperRefusal};
use wk_memory::Memory;
use wk_revs::{Edit, SaveRefusal, Standing};
use wk_tables::Change;
use wk_title::Title;
use wk_wiki_rules::Entry;

/// What a save wants memory for: its change of the tables, the title that is told of it, and the title of its fan job.
#[derive(Drop)]
struct Prepared {
    change: Change,
    told: Title,
    fan: Option<Title>,
}

impl Life {
    /// The title for the fan job that the save sets or adds, where it does.
    fn fan_of_save(&self, plan: &Plan) -> Result<Option<Title>, Memory>
        requires { plan.now.standing ≡ standing_of self.now.life.state.history plan.now.title }
        ensures { IfOk result (λ fan. fan ≡ fan_of_save self.now.life.state plan.now.title plan.now.text) }
    {
        if self.live.wants_fan(plan.title(), plan.reach())? {
            return Ok(Some(plan.title().share()?));
        }
        Ok(None)
    }

    /// Takes the memory that a save wants.
    fn prepare_save(&mut self, plan: &Plan, moment: u64) -> Result<Prepared, Memory>
        requires accepted { IsAccepted self.old.life plan.now.title plan.now.text }
        requires standing { plan.now.standing ≡ standing_of self.old.life.state.history plan.now.title }
        ensures change { IfOk result (λ p. p.change ≡ save_change self.old.life.state plan.now.title plan.now.text moment) }
        ensures told { IfOk result (λ p. p.told ≡ plan.now.title) }
        ensures fan { IfOk result (λ p. p.fan ≡ fan_of_save self.old.life.state plan.now.title plan.now.text) }
        ensures room { OnOk result (HasRoomFor 1 self.new.room) }
        ensures spare { OnOk result (1 ≤ self.new.spare) }
        ensures life { self.new.life ≡ self.old.life }
    {
        self.live.make_room(1)?;
        self.make_room(1)?;
        let alloc = *self.entries.allocator();
        let fan = self.fan_of_save(plan)?;
        let wants_fan = fan.is_some();
        let (revs, jobs, index) = (self.live.revs(), self.live.jobs(), self.live.index());
        let standing = plan.standing();
        let (title, text) = (plan.title(), plan.text());
        let change = save_change(
            alloc, revs, jobs, index, standing, title, text, moment, wants_fan,
        )?;
        let told = title.share()?;
        Ok(Prepared { change, told, fan })
    }

    /// Saves what is planned. Takes no memory.
    fn save(&mut self, plan: Plan, moment: u64, fan: Option<Title>)
        requires accepted { IsAccepted self.old.life plan.title plan.text }
        requires standing { plan.standing ≡ standing_of self.old.life.state.history plan.title }
        requires unsealed { self.old.life.sealed ≡ None }
        requires fan { fan ≡ fan_of_save self.old.life.state plan.title plan.text }
        requires room { HasRoomFor 1 self.old.room }
        requires spare { 1 ≤ self.old.spare }
        ensures { IsNext self.old.life (Save plan.title plan.text moment) self.new.life }
    {
        let Plan {
            title,
            text,
            standing,
        } = plan;
        let revision = self.live.save(standing, title, text, moment, fan);
        self.entries.push_reserved(Entry::Save { revision });
        self.spare -= 1;
    }
}

/// Saves what is planned: writes it to the store, and then changes the wiki. All memory is taken before.
fn save_accepted<K: Keeper>(
    keeper: &mut K,
    life: &mut Life,
    plan: Plan,
    moment: u64,
) -> Result<Saved, SaveRefusal>
    requires accepted { IsAccepted life.old.life plan.title plan.text }
    requires standing { plan.standing ≡ standing_of life.old.life.state.history plan.title }
    requires unsealed { life.old.life.sealed ≡ None }
    requires told { IsTold K.told life.old.life.state keeper.old }
    ensures told { IsTold K.told life.new.life.state keeper.new }
    ensures saved { IfOk result (λ saved. Some (saved_outcome saved) ≡ save_outcome life.old.life.state.history (accept plan.title plan.text)) }
    ensures event { OnOk result (HasMade (seen K.is_whole K.told K.faults life.old.life keeper.old) (seen K.is_whole K.told K.faults life.new.life keeper.new) (Save plan.title plan.text moment)) }
    ensures refused { OnErr result (HasMadeNothing K.told (seen K.is_whole K.told K.faults life.old.life keeper.old) (seen K.is_whole K.told K.faults life.new.life keeper.new)) }
    ensures refusal { IfErr result (λ refusal. refusal_of refusal ≡ None) }
    ensures keeper { GoesOn K.told K.faults (seen K.is_whole K.told K.faults life.old.life keeper.old) (seen K.is_whole K.told K.faults life.new.life keeper.new) }
    ensures fault { result ≡ Err SaveRefusal.StoreFault → Rose (K.faults keeper.old) (K.faults keeper.new) }
    ensures no_fault { result ≢ Err SaveRefusal.StoreFault → K.faults keeper.new ≡ K.faults keeper.old }
{
    life.facts();
    let Ok(prepared) = life.prepare_save(&plan, moment) else {
        return Err(SaveRefusal::Memory);
    };
    match keeper.apply(&prepared.change) {
        Ok(()) => {
            let standing = plan.standing();
            life.save(plan, moment, prepared.fan);
            Ok(saved(prepared.told, standing))
        }
        Err(KeeperRefusal::Failed) => Err(SaveRefusal::StoreFault),
        Err(KeeperRefusal::Memory) => Err(SaveRefusal::Memory),
    }
}

/// What is told of a save, by what stood of its title. Takes no memory.
fn saved(title: Title, standing: Standing) -> Saved
    ensures { saved_outcome result ≡ told_of_save title (record { page = standing.to_save; old = standing.current; new = standing.next }) }
{
    if standing.current == 0 {
        Saved::New {
            title,
            page: standing.to_save,
            old: standing.current,
            new: standing.next,
        }
    } else {
        Saved::Changed {
            title,
            page: standing.to_save,
            old: standing.current,
            new: standing.next,
        }
    }
}

impl<K: Keeper> Wiki<K> {
    /// Saves an edit at this many seconds since 1970 (MediaWiki's API:Edit; the limits and the order are own), where the
    /// wiki isn't sealed.
    ///
    /// The refusals, in their order; the first that applies is told. `InvalidTitle`: the title names none, or one in a
    /// namespace in which no page can be. `ContentTooBig`: the text as it would be kept has more than 2,097,152 bytes.
    /// `ArticleExists`: only a missing page was to be saved, and it exists. `MissingTitle`: only a page that exists was to
    /// be saved or deleted, and it is missing. `EditConflict`: the edit names a base that isn't the current revision, 0
    /// where the page is missing. Then comes `NoChange`, which is no refusal: the page has this text already. `WikiFull`:
    /// a limit would be passed. `JournalFull`: the journal's length and the tickets that are out are at the limit, or the
    /// numbers of jobs have come to their end. `Memory` may come at any place of this order, and `StoreFault` only where
    /// the edit is accepted and the keeper's count of faults rose. At each other answer that count is as it was.
    ///
    /// What is accepted is the event of a save; after a refusal and after `NoChange` the wiki is as before.
    pub fn save(&mut self, edit: &Edit, now: u64) -> Result<Saved, SaveRefusal>
        requires unsealed { self.old.start.sealed ≡ None }
        ensures saved { IfOk result (λ saved. Some (saved_outcome saved)
            ≡ save_outcome self.old.state.history (verdict_now self.old (edit_asked edit.now))) }
        ensures event { OnOk result (HasMadeAtMost K.told self.old self.new (event_of (verdict_now self.old (edit_asked edit.now)) now)) }
        ensures refusal { IfErr result (λ refusal. IfSome (refusal_of refusal)
            (λ cause. verdict_now self.old (edit_asked edit.now) ≡ refuse cause)) }
        ensures refused { OnErr result (HasMadeNothing K.told self.old self.new) }
        ensures keeper { GoesOn K.told K.faults self.old self.new }
        ensures fault { result ≡ Err SaveRefusal.StoreFault → Rose (K.faults self.old.keeper) (K.faults self.new.keeper) }
        ensures fault_at_event { result ≡ Err SaveRefusal.StoreFault → IsSome (event_of (verdict_now self.old (edit_asked edit.now)) now) }
        ensures no_fault { result ≢ Err SaveRefusal.StoreFault → K.faults self.new.keeper ≡ K.faults self.old.keeper }
    {
        let Ok(planned) = self.plan(edit) else {
            return Err(SaveRefusal::Memory);
        };
        match planned {
            Planned::Refused(refusal) => Err(refusal),
            Planned::NoChange { title, page } => Ok(Saved::NoChange { title, page }),
            Planned::Save(plan) => self.save_planned(plan, now),
        }
    }

    /// Saves what `plan` has planned, at this many seconds since 1970, where the wiki isn't sealed and nothing has happened
    /// since. It is the event of a save.
    ///
    /// `Memory` may come, and `StoreFault` only where the keeper's count of faults rose; no other refusal does. At each other
    /// answer that count is as it was. After a refusal the wiki is as before.
    pub fn save_planned(&mut self, plan: Plan, now: u64) -> Result<Saved, SaveRefusal>
        requires unsealed { self.old.start.sealed ≡ None }
        requires planned { HasPlanned self.old plan }
        ensures saved { IfOk result (λ saved. Some (saved_outcome saved) ≡ save_outcome self.old.state.history (accept plan.title plan.text)) }
        ensures event { OnOk result (HasMade self.old self.new (Save plan.title plan.text now)) }
        ensures refusal { IfErr result (λ refusal. refusal_of refusal ≡ None) }
        ensures refused { OnErr result (HasMadeNothing K.told self.old self.new) }
        ensures keeper { GoesOn K.told K.faults self.old self.new }
        ensures fault { result ≡ Err SaveRefusal.StoreFault → Rose (K.faults self.old.keeper) (K.faults self.new.keeper) }
        ensures no_fault { result ≢ Err SaveRefusal.StoreFault → K.faults self.new.keeper ≡ K.faults self.old.keeper }
    {
        save_accepted(&mut self.keeper, &mut self.life, plan, now)
    }

    /// Deletes a page that exists: a save of nothing (MediaWiki's API:Delete). With a base it is refused as a conflict
    /// where that isn't the current revision. Answers, refusals and what they leave are those of `save`.
    pub fn remove(&mut self, title: &str, base: Option<u64>, now: u64) -> Result<Saved, SaveRefusal>
        requires unsealed { self.old.start.sealed ≡ None }
        ensures saved { IfOk result (λ saved. Some (saved_outcome saved)
            ≡ save_outcome self.old.state.history (verdict_now self.old (deletion title.now base))) }
        ensures event { OnOk result (HasMadeAtMost K.told self.old self.new (event_of (verdict_now self.old (deletion title.now base)) now)) }
        ensures refusal { IfErr result (λ refusal. IfSome (refusal_of refusal)
            (λ cause. verdict_now self.old (deletion title.now base) ≡ refuse cause)) }
        ensures refused { OnErr result (HasMadeNothing K.told self.old self.new) }
        ensures keeper { GoesOn K.told K.faults self.old self.new }
        ensures fault { result ≡ Err SaveRefusal.StoreFault → Rose (K.faults self.old.keeper) (K.faults self.new.keeper) }
        ensures fault_at_event { result ≡ Err SaveRefusal.StoreFault → IsSome (event_of (verdict_now self.old (deletion title.now base)) now) }
        ensures no_fault { result ≢ Err SaveRefusal.StoreFault → K.faults self.new.keeper ≡ K.faults self.old.keeper }
    {
        let alloc = self.life.allocator();
        let Ok(title) = String::from_str(alloc, title) else {
            return Err(SaveRefusal::Memory);
        };
        let edit = Edit {
            title,
            body: None,
            base,
            create_only: false,
            no_create: true,
        };
        self.save(&edit, now)
    }
}

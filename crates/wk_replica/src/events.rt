//! The events of lines, made in the wiki within a replica.
ghost use Rattle.std.specs.Prelude.{◌≡◌, ◌&&◌, None, IfOk, IsOk, bytes_eq, option_map, string_bytes};
ghost use Rattle.std.specs.Option.{option_copied};
ghost use Rattle.wk_text_rules.specs.Titles.{shown};
ghost use Rattle.wk_page_rules.specs.Verdict.{full_limits};
ghost use Rattle.wk_feed_rules.specs.Lines.{back, claim, fan, save};
ghost use Rattle.wk_feed_rules.specs.Taking.{is_same, plain_save};
ghost use Rattle.wk_revs.specs.Edit.{edit_asked};
ghost use Rattle.wk_core.specs.Plans.{HasPlanned};
ghost use Rattle.wk_replica.specs.Followed.{IsFollowed};
ghost use Rattle.wk_replica.specs.Saves.{IsPlainPlan};

use std::alloc::Global;
use wk_bytes::Text;
use wk_core::{ClaimRefusal, Edit, FanRefusal, Plan, Planned, SaveRefusal, Wiki};
use wk_keeper::MemKeeper;
use wk_memory::Memory;
use wk_title::shown;

/// Why the event of a line isn't made.
#[derive(Clone, Copy)]
pub enum EventRefusal {
    /// It can't be made in this state. The wiki is as before.
    Bad,
    /// Memory ran out. The wiki is as before.
    Memory,
    /// Memory ran out, and another event was made.
    Lost,
}

/// Whether the two are the same text, or both are none.
fn is_same(kept: Option<&Text>, text: &Option<String>) -> bool
    ensures { result ≡ is_same (option_copied kept.entry) (option_map (λ s. string_bytes s) text.now) }
{
    match (kept, text) {
        (Some(kept), Some(text)) => kept.as_str() == text.as_str(),
        (None, None) => true,
        _ => false,
    }
}

/// Whether the plan is that of a save of the very title that the edit has, as it is shown, and of its very text.
fn is_that_save(alloc: Global, plan: &Plan, edit: &Edit) -> Result<bool, Memory>
    ensures { IfOk result (λ very. very ≡ (bytes_eq (shown plan.now.title) (edit_asked edit.now).title && is_same plan.now.text (edit_asked edit.now).body)) }
{
    let mut name = String::new(alloc);
    shown(plan.title(), &mut name)?;
    Ok(name.as_str() == edit.title.as_str() && is_same(plan.text(), &edit.body))
}

/// Makes the save that is planned of a plain edit, where it is one of its very title and text.
fn follow_plan(
    wiki: &mut Wiki<MemKeeper>,
    edit: &Edit,
    plan: Plan,
    moment: u64,
) -> Result<(), EventRefusal>
    requires limits { wiki.old.start.limits ≡ full_limits }
    requires unsealed { wiki.old.start.sealed ≡ None }
    requires planned { IsPlainPlan wiki.old edit.now plan }
    ensures { IsFollowed wiki.old (save (edit_asked edit.now).title (edit_asked edit.now).body moment) wiki.new result }
{
    let Ok(very) = is_that_save(wiki.allocator(), &plan, edit) else {
        return Err(EventRefusal::Memory);
    };
    if !very {
        return Err(EventRefusal::Bad);
    }
    match wiki.save_planned(plan, moment) {
        Ok(_) => Ok(()),
        Err(SaveRefusal::StoreFault) => unreachable!(),
        Err(_) => Err(EventRefusal::Memory),
    }
}

/// Makes a save: it has to be what becomes of a plain edit.
pub fn follow_save(
    wiki: &mut Wiki<MemKeeper>,
    title: String,
    text: Option<String>,
    moment: u64,
) -> Result<(), EventRefusal>
    requires limits { wiki.old.start.limits ≡ full_limits }
    requires unsealed { wiki.old.start.sealed ≡ None }
    ensures { IsFollowed wiki.old (save (string_bytes title) (option_map (λ s. string_bytes s) text) moment) wiki.new result }
{
    let edit = Edit {
        title,
        body: text,
        base: None,
        create_only: false,
        no_create: false,
    };
    match wiki.plan(&edit) {
        Ok(Planned::Save(plan)) => follow_plan(wiki, &edit, plan, moment),
        Ok(Planned::NoChange { .. }) => Err(EventRefusal::Bad),
        Ok(Planned::Refused(_)) => Err(EventRefusal::Bad),
        Err(_) => Err(EventRefusal::Memory),
    }
}

/// Makes a claim. Its ticket is let go, and stays out until it comes in.
pub fn follow_claim(wiki: &mut Wiki<MemKeeper>) -> Result<(), EventRefusal>
    requires limits { wiki.old.start.limits ≡ full_limits }
    ensures { IsFollowed wiki.old claim wiki.new result }
{
    match wiki.claim() {
        Ok(Some(ticket)) => {
            let _number = ticket.let_go();
            Ok(())
        }
        Ok(None) => Err(EventRefusal::Bad),
        Err(ClaimRefusal::JournalFull) => Err(EventRefusal::Bad),
        Err(ClaimRefusal::Memory) => Err(EventRefusal::Memory),
    }
}

/// Gives back the ticket with this number.
pub fn follow_back(wiki: &mut Wiki<MemKeeper>, number: u64) -> Result<(), EventRefusal>
    ensures { IsFollowed wiki.old (back number) wiki.new result }
{
    match wiki.ticket(number) {
        Ok(Some(ticket)) => {
            wiki.give_back(ticket);
            Ok(())
        }
        Ok(None) => Err(EventRefusal::Bad),
        Err(_) => Err(EventRefusal::Memory),
    }
}

/// Makes a step of the first fan job.
pub fn follow_fan(wiki: &mut Wiki<MemKeeper>) -> Result<(), EventRefusal>
    requires limits { wiki.old.start.limits ≡ full_limits }
    ensures { IsFollowed wiki.old fan wiki.new result }
{
    match wiki.fan() {
        Ok(Some(_)) => Ok(()),
        Ok(None) => Err(EventRefusal::Bad),
        Err(FanRefusal::JournalFull) => Err(EventRefusal::Bad),
        Err(FanRefusal::StoreFault) => unreachable!(),
        Err(FanRefusal::Memory) => Err(EventRefusal::Memory),
    }
}

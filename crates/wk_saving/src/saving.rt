//! Requests that save.
ghost use Rattle.std.specs.Prelude.{◌≡◌, None, Some, length, IfOk, OnErr};
ghost use Rattle.serde_json.specs.View.{view};
ghost use Rattle.wk_wiki_rules.specs.Events.{Save};
ghost use Rattle.wk_request.specs.Asked.{save_of};
ghost use Rattle.wk_revs.specs.Edit.{edit_asked};
ghost use Rattle.wk_core.specs.Plans.{HasPlanned};
ghost use Rattle.wk_core.specs.Seen.{verdict_now};
ghost use Rattle.wk_core.specs.Steps.{GoesOn, HasMadeNothing};
ghost use Rattle.wk_answer_rules.specs.Answers.{answer_to_ask};
ghost use Rattle.wk_answer_rules.specs.Saves.{delete_answer, save_answer};
ghost use Rattle.wk_answer_rules.specs.Values.{ApiReply};
ghost use Rattle.wk_saving.specs.Saved.{IsActed, told_by};

use crate::saved_replies::{SaveKind, ready, refused, store_fault};
use serde_json::Value;
use wk_core::{Edit, Keeper, Plan, Planned, SaveRefusal, Wiki};
use wk_memory::Memory;
use wk_replies::unchanged;
use wk_request::SaveAsked;

/// Makes a save that is planned, and tells what came of it: what is ready to be told, or that the store failed, which is made
/// ready before the save too.
fn save_ready<K: Keeper>(
    wiki: &mut Wiki<K>,
    plan: Plan,
    ready: Value,
    now: u64,
) -> Result<Value, Memory>
    requires unsealed { wiki.old.start.sealed ≡ None }
    requires planned { HasPlanned wiki.old plan }
    ensures acted { (reply : ApiReply) → view ready ≡ reply.value → IfOk result (λ v. IsActed K.told K.faults wiki.old wiki.new
        (record { reply = reply; event = Some (Save plan.title plan.text now) }) (view v)) }
    ensures memory { OnErr result (HasMadeNothing K.told wiki.old wiki.new) }
    ensures no_fault { OnErr result (K.faults wiki.new.keeper ≡ K.faults wiki.old.keeper) }
    ensures keeper { GoesOn K.told K.faults wiki.old wiki.new }
{
    let failed = store_fault(wiki.allocator(), wiki.point())?;
    match wiki.save_planned(plan, now) {
        Ok(_) => Ok(ready),
        Err(SaveRefusal::StoreFault) => Ok(failed),
        Err(_) => Err(Memory),
    }
}

/// Makes a save, and tells what came of it. A refusal, and that nothing changes, are told by what is planned. The replies to a
/// save that changes something, and to a fault of the store, are made before it.
pub fn save_told<K: Keeper>(
    wiki: &mut Wiki<K>,
    edit: &Edit,
    kind: SaveKind,
    now: u64,
) -> Result<Value, Memory>
    requires unsealed { wiki.old.start.sealed ≡ None }
    requires body { kind ≡ SaveKind.Deletion → (edit_asked edit.now).body ≡ None }
    ensures acted { IfOk result (λ v. IsActed K.told K.faults wiki.old wiki.new
        (save_answer (told_by kind) wiki.old.state (length wiki.old.journal) now (verdict_now wiki.old (edit_asked edit.now))) (view v)) }
    ensures memory { OnErr result (HasMadeNothing K.told wiki.old wiki.new) }
    ensures no_fault { OnErr result (K.faults wiki.new.keeper ≡ K.faults wiki.old.keeper) }
    ensures keeper { GoesOn K.told K.faults wiki.old wiki.new }
{
    let alloc = wiki.allocator();
    let point = wiki.point();
    match wiki.plan(edit)? {
        Planned::Refused(refusal) => refused(alloc, refusal, point),
        Planned::NoChange { title, page } => unchanged(alloc, &title, page, point),
        Planned::Save(plan) => {
            let ready = ready(alloc, kind, &plan, point)?;
            save_ready(wiki, plan, ready, now)
        }
    }
}

/// Deletes a page, and tells what came of it. The replies to a deletion, and to a fault of the store, are made before it.
pub fn delete_page<K: Keeper>(
    wiki: &mut Wiki<K>,
    title: &str,
    base: Option<u64>,
    now: u64,
) -> Result<Value, Memory>
    requires unsealed { wiki.old.start.sealed ≡ None }
    ensures acted { IfOk result (λ v. IsActed K.told K.faults wiki.old wiki.new
        (delete_answer wiki.old.start.limits wiki.old.state (length wiki.old.journal) now title.now base) (view v)) }
    ensures memory { OnErr result (HasMadeNothing K.told wiki.old wiki.new) }
    ensures no_fault { OnErr result (K.faults wiki.new.keeper ≡ K.faults wiki.old.keeper) }
    ensures keeper { GoesOn K.told K.faults wiki.old wiki.new }
{
    let title = String::from_str(wiki.allocator(), title)?;
    let edit = Edit {
        title,
        body: None,
        base,
        create_only: false,
        no_create: true,
    };
    save_told(wiki, &edit, SaveKind::Deletion, now)
}

/// Makes the save that is asked for, an edit or a deletion, at this many seconds since 1970, and tells what came of it
/// (MediaWiki's API:Edit and API:Delete). The event of the save has happened, where it isn't refused and changes something.
/// Where the store fails at such an event its count of faults rose, nothing happened, and the answer is that error. The wiki
/// isn't sealed.
///
/// All memory is taken before the save: after `Memory` the wiki is as before, and the store hasn't failed.
pub fn save_asked<K: Keeper>(
    wiki: &mut Wiki<K>,
    asked: &SaveAsked,
    now: u64,
) -> Result<Value, Memory>
    requires unsealed { wiki.old.start.sealed ≡ None }
    ensures acted { IfOk result (λ v. IsActed K.told K.faults wiki.old wiki.new
        (answer_to_ask wiki.old.start.limits wiki.old.state (length wiki.old.journal) now (save_of asked.now)) (view v)) }
    ensures memory { OnErr result (HasMadeNothing K.told wiki.old wiki.new) }
    ensures no_fault { OnErr result (K.faults wiki.new.keeper ≡ K.faults wiki.old.keeper) }
    ensures keeper { GoesOn K.told K.faults wiki.old wiki.new }
{
    match *asked {
        SaveAsked::Edit(edit) => save_told(wiki, edit, SaveKind::Edit, now),
        SaveAsked::Delete { title, base } => delete_page(wiki, title, base, now),
    }
}

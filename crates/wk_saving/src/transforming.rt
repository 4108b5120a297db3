//! Edits whose text is transformed before they are judged (MediaWiki's Help:Substitution).
ghost use Rattle.std.specs.Prelude.{◌≡◌, Some, None, IfOk, IfSome, IsSome, IsTrue, OnErr, length, nat_lt, option_map, false};
ghost use Rattle.serde_json.specs.View.{view};
ghost use Rattle.wk_page_rules.specs.History.{text_of_revision};
ghost use Rattle.wk_page_rules.specs.Verdict.{body_bytes, max_text};
ghost use Rattle.wk_view_rules.specs.Plans.{done};
ghost use Rattle.wk_view_rules.specs.Worlds.{IsHonest, of_world};
ghost use Rattle.wk_wiki_rules.specs.States.{world_of};
ghost use Rattle.wk_wiki_rules.specs.Staleness.{first_stale};
ghost use Rattle.wk_subst_rules.specs.Substitution.{substituted};
ghost use Rattle.wk_revs.specs.Edit.{edit_asked};
ghost use Rattle.wk_request.specs.Asked.{save_of};
ghost use Rattle.wk_core.specs.Steps.{GoesOn, HasMadeNothing};
ghost use Rattle.wk_answer_rules.specs.ApiErrors.{api_error};
ghost use Rattle.wk_answer_rules.specs.Answers.{answer_with_subst};
ghost use Rattle.wk_answer_rules.specs.Saves.{edit_answer, subst_answer};
ghost use Rattle.wk_answer_rules.specs.Transforms.{transformed_edit};
ghost use Rattle.wk_saving.specs.Saved.{IsActed};
ghost use Rattle.wk_saving.specs.Transforming.{error_before};

use crate::errors::content_too_big;
use crate::saved_replies::SaveKind;
use crate::saving::{delete_page, save_told};
use crate::substituting::substituted_now;
use serde_json::Value;
use std::alloc::Global;
use wk_bytes::Text;
use wk_core::{Edit, Keeper, Wiki};
use wk_good_rows::MAX_TEXT;
use wk_listings::invalid_title;
use wk_live::{Live, stale_reads_are_those_of_the_rules};
use wk_memory::Memory;
use wk_request::SaveAsked;
use wk_revs::real_title;
use wk_subst::Substituted;

/// Whether the text, as it is given, is longer than any that is kept.
fn is_too_big(edit: &Edit) -> bool
    ensures { result ≡ nat_lt max_text (body_bytes (edit_asked edit.now).body) }
{
    match &edit.body {
        Some(body) => MAX_TEXT < body.as_str().len(),
        None => false,
    }
}

/// The error that comes before the text is transformed, if one does, at a point of the journal.
fn refused_before(alloc: Global, edit: &Edit, point: u64) -> Result<Option<Value>, Memory>
    ensures { IfOk result (λ refused. option_map view refused
        ≡ option_map (λ error. (api_error error point).value) (error_before (edit_asked edit.now))) }
{
    match real_title(alloc, &edit.title)? {
        Some(_title) => {
            if is_too_big(edit) {
                return Ok(Some(content_too_big(alloc, point)?));
            }
            Ok(None)
        }
        None => Ok(Some(invalid_title(alloc, point)?)),
    }
}

/// The same edit, of another text.
fn with_text(alloc: Global, edit: &Edit, text: &str) -> Result<Edit, Memory>
    ensures { IfOk result (λ other. edit_asked other ≡ record (edit_asked edit.now) { body = Some text.now }) }
{
    let title = String::from_str(alloc, edit.title.as_str())?;
    let body = String::from_str(alloc, text)?;
    Ok(Edit {
        title,
        body: Some(body),
        base: edit.base,
        create_only: edit.create_only,
        no_create: edit.no_create,
    })
}

/// Makes an edit of what its text becomes in the present state, and tells what came of it.
fn edit_made<K: Keeper>(
    wiki: &mut Wiki<K>,
    edit: &Edit,
    made: &Substituted,
    now: u64,
) -> Result<Value, Memory>
    requires unsealed { wiki.old.start.sealed ≡ None }
    requires body { (edit_asked edit.now).body ≡ Some made.now.saved }
    requires present { substituted (of_world (world_of wiki.old.state)) made.now.saved ≡ done made.now.text made.now.reads }
    ensures acted { IfOk result (λ v. IsActed K.told K.faults wiki.old wiki.new
        (edit_answer wiki.old.start.limits wiki.old.state (length wiki.old.journal) now (transformed_edit wiki.old.state (edit_asked edit.now))) (view v)) }
    ensures memory { OnErr result (HasMadeNothing K.told wiki.old wiki.new) }
    ensures no_fault { OnErr result (K.faults wiki.new.keeper ≡ K.faults wiki.old.keeper) }
    ensures keeper { GoesOn K.told K.faults wiki.old wiki.new }
{
    let edit = with_text(wiki.allocator(), edit, made.text())?;
    save_told(wiki, &edit, SaveKind::Edit, now)
}

/// Makes an edit whose text is transformed in the present state, and tells what came of it: the text that is judged, and saved,
/// is what the text becomes there. A title that names no page comes first, and then the size of the text as it is given.
fn edit_substituted<K: Keeper>(wiki: &mut Wiki<K>, edit: &Edit, now: u64) -> Result<Value, Memory>
    requires unsealed { wiki.old.start.sealed ≡ None }
    ensures acted { IfOk result (λ v. IsActed K.told K.faults wiki.old wiki.new
        (subst_answer wiki.old.start.limits wiki.old.state (length wiki.old.journal) now (edit_asked edit.now)) (view v)) }
    ensures memory { OnErr result (HasMadeNothing K.told wiki.old wiki.new) }
    ensures no_fault { OnErr result (K.faults wiki.new.keeper ≡ K.faults wiki.old.keeper) }
    ensures keeper { GoesOn K.told K.faults wiki.old wiki.new }
{
    let alloc = wiki.allocator();
    let point = wiki.point();
    if let Some(refused) = refused_before(alloc, edit, point)? {
        return Ok(refused);
    }
    let Some(body) = &edit.body else {
        return save_told(wiki, edit, SaveKind::Edit, now);
    };
    let text = Text::new(alloc, body.as_str())?;
    let made = substituted_now(alloc, wiki.live(), &text)?;
    edit_made(wiki, edit, &made, now)
}

/// Whether each read of a text that was transformed is current. Takes no memory.
fn is_current(live: &Live, made: &Substituted) -> bool
    ensures current { IsTrue result → first_stale (world_of live.now.state) made.now.reads ≡ None }
    ensures stale { result ≡ false → IsSome (first_stale (world_of live.now.state) made.now.reads) }
{
    stale_reads_are_those_of_the_rules();
    live.first_stale(made.reads()).is_none()
}

/// The same of honest reads: what the text became by them is then what it becomes in the present state. Takes no memory.
fn is_present(live: &Live, made: &Substituted) -> bool
    requires { IsHonest (text_of_revision live.now.state.history) made.now.reads }
    ensures present { IsTrue result → substituted (of_world (world_of live.now.state)) made.now.saved ≡ done made.now.text made.now.reads }
    ensures stale { result ≡ false → IsSome (first_stale (world_of live.now.state) made.now.reads) }
{
    let _text = made.text();
    let _reads = made.reads();
    is_current(live, made)
}

/// Makes an edit whose text was transformed before, by texts of revisions that the wiki has, and tells what came of it. None
/// where a read of the transform isn't current, and then nothing has happened; a bad title and the size of the text as it was given
/// come before that.
pub fn edit_with<K: Keeper>(
    wiki: &mut Wiki<K>,
    edit: &Edit,
    made: &Substituted,
    now: u64,
) -> Result<Option<Value>, Memory>
    requires unsealed { wiki.old.start.sealed ≡ None }
    requires body { (edit_asked edit.now).body ≡ Some made.now.saved }
    requires honest { IsHonest (text_of_revision wiki.old.state.history) made.now.reads }
    ensures acted { IfOk result (λ answer. IfSome answer (λ v. IsActed K.told K.faults wiki.old wiki.new
        (subst_answer wiki.old.start.limits wiki.old.state (length wiki.old.journal) now (edit_asked edit.now)) (view v))) }
    ensures stale { IfOk result (λ answer. answer ≡ None
        → HasMadeNothing K.told wiki.old wiki.new × IsSome (first_stale (world_of wiki.old.state) made.now.reads)) }
    ensures memory { OnErr result (HasMadeNothing K.told wiki.old wiki.new) }
    ensures no_fault { OnErr result (K.faults wiki.new.keeper ≡ K.faults wiki.old.keeper) }
    ensures keeper { GoesOn K.told K.faults wiki.old wiki.new }
{
    let alloc = wiki.allocator();
    let point = wiki.point();
    if let Some(refused) = refused_before(alloc, edit, point)? {
        return Ok(Some(refused));
    }
    if !is_present(wiki.live(), made) {
        return Ok(None);
    }
    match edit_made(wiki, edit, made, now) {
        Ok(value) => Ok(Some(value)),
        Err(memory) => Err(memory),
    }
}

/// Makes the save that is asked for, as `save_asked` does, with the text of an edit transformed in the present state before it is
/// judged (MediaWiki's Help:Substitution). A title that names no page, and a text that is too long as it is given, are told before
/// it is transformed.
pub fn save_substituted<K: Keeper>(
    wiki: &mut Wiki<K>,
    asked: &SaveAsked,
    now: u64,
) -> Result<Value, Memory>
    requires unsealed { wiki.old.start.sealed ≡ None }
    ensures acted { IfOk result (λ v. IsActed K.told K.faults wiki.old wiki.new
        (answer_with_subst wiki.old.start.limits wiki.old.state (length wiki.old.journal) now (save_of asked.now)) (view v)) }
    ensures memory { OnErr result (HasMadeNothing K.told wiki.old wiki.new) }
    ensures no_fault { OnErr result (K.faults wiki.new.keeper ≡ K.faults wiki.old.keeper) }
    ensures keeper { GoesOn K.told K.faults wiki.old wiki.new }
{
    match *asked {
        SaveAsked::Edit(edit) => edit_substituted(wiki, edit, now),
        SaveAsked::Delete { title, base } => delete_page(wiki, title, base, now),
    }
}

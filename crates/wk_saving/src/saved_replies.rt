//! What is told of a save, or of its refusal (MediaWiki's API:Edit and API:Delete).
ghost use Rattle.std.specs.Prelude.{◌≡◌, ◌+◌, IfOk, IfSome, IsSome};
ghost use Rattle.serde_json.specs.View.{view};
ghost use Rattle.wk_page_rules.specs.History.{History};
ghost use Rattle.wk_page_rules.specs.Verdict.{accept};
ghost use Rattle.wk_wiki_rules.specs.SaveOutcomes.{save_outcome};
ghost use Rattle.wk_revs.specs.Standing.{standing};
ghost use Rattle.wk_revs.specs.Verdict.{refusal_of};
ghost use Rattle.wk_core.specs.Answers.{told_of_save};
ghost use Rattle.wk_replies.specs.Shown.{numbers_of};
ghost use Rattle.wk_answer_rules.specs.ApiErrors.{api_error, save_error, storefault};
ghost use Rattle.wk_answer_rules.specs.Saves.{edit_entries, outcome_entries};
ghost use Rattle.wk_answer_rules.specs.Values.{reply_beside};
ghost use Rattle.wk_saving.specs.Saved.{told_by};

use crate::errors::content_too_big;
use serde_json::Value;
use std::alloc::Global;
use wk_core::{Plan, SaveRefusal};
use wk_listings::invalid_title;
use wk_memory::Memory;
use wk_replies::{SavedNumbers, changed, created, deleted, edit_conflict, error_reply, wiki_full};
use wk_title::Title;

/// What a save is told as.
#[derive(Clone, Copy)]
pub enum SaveKind {
    /// An edit.
    Edit,
    /// A deletion, which always changes something.
    Deletion,
}

/// What is told of an edit that changed something.
fn edited(alloc: Global, title: &Title, numbers: SavedNumbers, point: u64) -> Result<Value, Memory>
    ensures { IfOk result (λ v. view v ≡ (reply_beside (edit_entries (told_of_save title.now (numbers_of numbers))) point).value) }
{
    if numbers.old == 0 {
        created(alloc, title, numbers, point)
    } else {
        changed(alloc, title, numbers, point)
    }
}

/// What will be told of the save that is planned, behind a journal that has this length before. No journal comes to the end
/// of `u64`.
pub fn ready(alloc: Global, kind: SaveKind, plan: &Plan, before: u64) -> Result<Value, Memory>
    ensures { (h : History) → plan.now.standing ≡ standing h plan.now.title → IfOk result (λ v. view v
        ≡ (reply_beside (outcome_entries (told_by kind) (save_outcome h (accept plan.now.title plan.now.text))) (before + 1)).value) }
{
    let Some(point) = before.checked_add(1) else {
        return Err(Memory);
    };
    let standing = plan.standing();
    let numbers = SavedNumbers {
        page: standing.to_save,
        old: standing.current,
        new: standing.next,
    };
    match kind {
        SaveKind::Edit => edited(alloc, plan.title(), numbers, point),
        SaveKind::Deletion => deleted(alloc, plan.title(), numbers, point),
    }
}

/// What will be told where the store fails at a save, behind a journal of this length.
pub fn store_fault(alloc: Global, point: u64) -> Result<Value, Memory>
    ensures { IfOk result (λ v. view v ≡ (api_error storefault point).value) }
{
    error_reply(alloc, "storefault", "The store failed.", point)
}

/// The error of an edit that the rules refuse.
pub fn refused(alloc: Global, refusal: SaveRefusal, point: u64) -> Result<Value, Memory>
    requires { IsSome (refusal_of refusal) }
    ensures { IfOk result (λ v. IfSome (refusal_of refusal) (λ cause. view v ≡ (api_error (save_error cause) point).value)) }
{
    match refusal {
        SaveRefusal::InvalidTitle => invalid_title(alloc, point),
        SaveRefusal::ContentTooBig => content_too_big(alloc, point),
        SaveRefusal::ArticleExists => {
            error_reply(alloc, "articleexists", "The page exists already.", point)
        }
        SaveRefusal::MissingTitle => {
            error_reply(alloc, "missingtitle", "The page does not exist.", point)
        }
        SaveRefusal::EditConflict { current } => edit_conflict(alloc, current, point),
        SaveRefusal::WikiFull(limit) => wiki_full(alloc, limit, point),
        SaveRefusal::JournalFull => {
            error_reply(alloc, "journalfull", "The journal is full.", point)
        }
        SaveRefusal::Memory => unreachable!(),
        SaveRefusal::StoreFault => unreachable!(),
    }
}

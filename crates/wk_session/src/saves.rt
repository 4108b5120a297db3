//! Saves whose text is transformed before, without the turn.
ghost use Rattle.std.specs.Prelude.{◌≡◌, ◌∷◌, [], IfOk, IfSome, None, Some, true};
ghost use Rattle.wk_request.specs.Asked.{ask_of, request_asked};
ghost use Rattle.wk_request_rules.specs.Requests.{text_to_transform, valid};
ghost use Rattle.wk_answer_rules.specs.Answers.{asks_to_save};
ghost use Rattle.wk_shared.specs.Calls.{IsFree, MayFail};
ghost use Rattle.wk_session.specs.Telling.{AnswersOn, IsTried};

use crate::acts::{act_made, act_now, starve};
use crate::telling::Told;
use std::alloc::Global;
use std::sync::Wait;
use wk_answer::real_title;
use wk_base::Gate;
use wk_bytes::Text;
use wk_core::Keeper;
use wk_expand::Trees;
use wk_good_rows::MAX_TEXT;
use wk_memory::Memory;
use wk_readers::Worker;
use wk_request::{Request, SaveAsked};
use wk_shared::Shared;

/// How often a text is transformed without the turn (own).
const MOST_TRIES: u64 = 3;

/// Whether the title of a save names a page that can be saved.
fn names_page(alloc: Global, save: &SaveAsked<'_>) -> Result<bool, Memory> {
    let title = match save {
        SaveAsked::Edit(edit) => real_title(alloc, &edit.title)?,
        SaveAsked::Delete { title, .. } => real_title(alloc, title)?,
    };
    Ok(title.is_some())
}

/// The text that is transformed before a save, if one is: none where none is to be, and where the edit is refused whatever its
/// text becomes, since that is too long or the title names no page that can be saved.
fn text_before(
    alloc: Global,
    request: &Request,
    save: &SaveAsked<'_>,
) -> Result<Option<Text>, Memory>
    ensures { IfOk result (λ text. IfSome text (λ t. text_to_transform (request_asked request.now) ≡ Some t)) }
{
    let Some(text) = request.text_to_transform() else {
        return Ok(None);
    };
    if MAX_TEXT < text.len() {
        return Ok(None);
    }
    if !names_page(alloc, save)? {
        return Ok(None);
    }
    Ok(Some(Text::new(alloc, text)?))
}

/// Transforms the text of an edit without the turn, and makes the save under one; none where a read of it isn't current then,
/// and nothing has happened. It waits.
fn try_save<K: Keeper, R: Wait, G: Gate>(
    shared: &Shared<K>,
    rt: &R,
    worker: &mut Worker<K, G>,
    request: &Request,
    text: &Text,
    moment: u64,
) -> Option<Told>
    requires free { IsFree shared.now worker.old.reader.pass }
    requires unsealed { shared.now.start.sealed ≡ None }
    requires asks { asks_to_save (ask_of request.now.ask) ≡ true }
    requires given { text_to_transform (request_asked request.now) ≡ Some text.now }
    ensures { IsTried shared.now (MayFail shared.now.start) worker.old.reader.pass worker.new.reader.pass
        (valid (request_asked request.now)) moment result }
{
    match worker.reader.transform(shared, rt, text, &mut worker.gate) {
        Ok(made) => act_made(shared, rt, &mut worker.reader, request, &made, moment),
        Err(_) => Some(starve(shared, rt, &mut worker.reader)),
    }
}

/// Makes the save of an edit whose text is transformed before: three times without the turn, each time for a save under one
/// where all that was read is current still; and then with the turn held. It waits.
fn subst_now<K: Keeper, R: Wait, G: Gate>(
    shared: &Shared<K>,
    rt: &R,
    worker: &mut Worker<K, G>,
    request: &Request,
    text: &Text,
    moment: u64,
    trees: &mut Trees,
) -> Told
    requires free { IsFree shared.now worker.old.reader.pass }
    requires unsealed { shared.now.start.sealed ≡ None }
    requires asks { asks_to_save (ask_of request.now.ask) ≡ true }
    requires given { text_to_transform (request_asked request.now) ≡ Some text.now }
    ensures { AnswersOn shared.now (MayFail shared.now.start) worker.old.reader.pass worker.new.reader.pass
        (valid (request_asked request.now)) (moment ∷ []) result }
{
    'tries: for _try in 0..MOST_TRIES {
        if let Some(told) = try_save(shared, rt, worker, request, text, moment) {
            return told;
        }
    }
    act_now(shared, rt, &mut worker.reader, request, moment, trees)
}

/// Makes the save that a request asks for at this moment. It waits.
pub fn save_now<K: Keeper, R: Wait, G: Gate>(
    shared: &Shared<K>,
    rt: &R,
    alloc: Global,
    worker: &mut Worker<K, G>,
    request: &Request,
    save: &SaveAsked<'_>,
    moment: u64,
    trees: &mut Trees,
) -> Told
    requires free { IsFree shared.now worker.old.reader.pass }
    requires unsealed { shared.now.start.sealed ≡ None }
    requires asks { asks_to_save (ask_of request.now.ask) ≡ true }
    ensures { AnswersOn shared.now (MayFail shared.now.start) worker.old.reader.pass worker.new.reader.pass
        (valid (request_asked request.now)) (moment ∷ []) result }
{
    match text_before(alloc, request, save) {
        Ok(Some(text)) => subst_now(shared, rt, worker, request, &text, moment, trees),
        Ok(None) => act_now(shared, rt, &mut worker.reader, request, moment, trees),
        Err(_) => starve(shared, rt, &mut worker.reader),
    }
}

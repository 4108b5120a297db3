//! The answers that a request gives.
ghost use Rattle.std.specs.Prelude.{IfOk, IsTrue};
ghost use Rattle.wk_expand.specs.Answers.{answer_of};
ghost use Rattle.wk_view_rules.specs.Worlds.{fits_kind};

use crate::members::shared_text;
use crate::refusal::Refusal;
use crate::titles::title_of;
use serde_json::Value;
use std::alloc::Global;
use wk_bytes::Text;
use wk_expand::{Answer, Kind, Seen};
use wk_memory::Memory;
use wk_title::Title;

/// The word of a kind.
pub fn kind_word(kind: Kind) -> &'static str {
    match kind {
        Kind::View => "view",
        Kind::Include => "include",
        Kind::Exists => "exists",
    }
}

/// The kind with this word, if there is one.
fn kind_named(word: &str) -> Option<Kind> {
    match word {
        "view" => Some(Kind::View),
        "include" => Some(Kind::Include),
        "exists" => Some(Kind::Exists),
        _ => None,
    }
}

/// The title, the kind and the answer of an entry, as they are written.
fn entry_of(entry: &Value) -> Option<(&str, Kind, &Value)> {
    let parts = entry.as_array()?;
    if parts.len() != 3 {
        return None;
    }
    let title = parts[0].as_str()?;
    let kind = kind_named(parts[1].as_str()?)?;
    Some((title, kind, &parts[2]))
}

/// The revision and the text of an answer, as they are written.
fn revision_of(answer: &Value) -> Option<(u64, &str)> {
    let parts = answer.as_array()?;
    if parts.len() != 2 {
        return None;
    }
    let revision = parts[0].as_u64()?;
    let text = parts[1].as_str()?;
    Some((revision, text))
}

/// The revision and the text of an answer; `null` is that of a missing page.
fn page_answer(alloc: Global, answer: &Value) -> Result<Option<(u64, Text)>, Refusal> {
    if answer.is_null() {
        return Ok(None);
    }
    let Some((revision, text)) = revision_of(answer) else {
        return Err(Refusal::NoSeen);
    };
    let text = shared_text(alloc, text)?;
    Ok(Some((revision, text)))
}

/// The answer that is written, in the form of its kind.
fn answer_for(alloc: Global, kind: Kind, answer: &Value) -> Result<Answer, Refusal>
    ensures { IfOk result (λ given. IsTrue (fits_kind kind (answer_of given))) }
{
    match kind {
        Kind::Exists => match answer.as_bool() {
            Some(there) => Ok(Answer::Exists(there)),
            None => Err(Refusal::NoSeen),
        },
        Kind::View | Kind::Include => Ok(Answer::Page(page_answer(alloc, answer)?)),
    }
}

/// Keeps an answer, unless there is one for its title and its kind. Whether there was none.
pub fn keep(seen: &mut Seen, title: Title, kind: Kind, answer: Answer) -> Result<bool, Memory>
    requires { IsTrue (fits_kind kind (answer_of answer)) }
{
    if seen.get(&title, kind)?.is_some() {
        return Ok(false);
    }
    seen.add(title, kind, answer)?;
    Ok(true)
}

/// Adds an entry's answer to those that were seen.
fn add_entry(alloc: Global, seen: &mut Seen, entry: &Value) -> Result<(), Refusal> {
    let Some((title, kind, answer)) = entry_of(entry) else {
        return Err(Refusal::NoSeen);
    };
    let Some(title) = title_of(alloc, title)? else {
        return Err(Refusal::SeenWithoutTitle);
    };
    let answer = answer_for(alloc, kind, answer)?;
    if keep(seen, title, kind, answer)? {
        Ok(())
    } else {
        Err(Refusal::SeenTwice)
    }
}

/// The answers of the entries.
pub fn seen_of(alloc: Global, entries: &[Value]) -> Result<Seen, Refusal> {
    let mut seen = Seen::new(alloc);
    for entry in entries {
        add_entry(alloc, &mut seen, entry)?;
    }
    Ok(seen)
}

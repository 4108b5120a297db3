//! Titles in replies, and lists of values.
ghost use Rattle.std.specs.Prelude.{◌≡◌, IfOk, string_bytes, map};
ghost use Rattle.serde_json.specs.View.{view};
ghost use Rattle.wk_text_rules.specs.Titles.{shown};
ghost use Rattle.wk_answer_rules.specs.Values.{object_of, title_entries, titles_value, array_of};
ghost use Rattle.wk_replies.specs.Members.{titled};

use crate::members::{Plain, put, put_rows};
use serde_json::{Map, Value};
use std::alloc::Global;
use wk_memory::Memory;
use wk_title::Title;

/// The shown form of a title.
pub fn shown_text(alloc: Global, title: &Title) -> Result<String, Memory>
    ensures { IfOk result (λ text. string_bytes text ≡ shown title.now) }
{
    let mut text = String::new(alloc);
    wk_title::shown(title, &mut text)?;
    Ok(text)
}

/// The object of a table and of the shown form of a title, under `title`. The text is moved there. Rows cost least in the
/// order of their names: then nothing that stands is moved.
pub fn titled(alloc: Global, title: &Title, table: &[(&str, Plain<'_>)]) -> Result<Value, Memory>
    ensures { IfOk result (λ v. view v ≡ titled title.now table.now) }
{
    let text = shown_text(alloc, title)?;
    let mut members = Map::new(alloc);
    put_rows(alloc, &mut members, table)?;
    put(alloc, &mut members, "title", Value::from(text))?;
    Ok(Value::Object(members))
}

/// A title: its namespace and its shown form.
pub fn title_value(alloc: Global, title: &Title) -> Result<Value, Memory>
    ensures { IfOk result (λ v. view v ≡ object_of (title_entries title.now)) }
{
    titled(alloc, title, &[("ns", Plain::Namespace(title.ns()))])
}

/// The array of these values.
#[tactic(auto, using(crate::proofs::Arrays::array_view))]
pub fn array_value(values: Vec<Value>) -> Value
    ensures { view result ≡ array_of (map view values.items) }
{
    Value::Array(values)
}

/// A list of titles.
pub fn titles_value(alloc: Global, titles: &[Title]) -> Result<Value, Memory>
    ensures { IfOk result (λ v. view v ≡ titles_value titles.now) }
{
    let mut values = Vec::new(alloc);
    for title in titles {
        values.push(title_value(alloc, title)?)?;
    }
    Ok(array_value(values))
}

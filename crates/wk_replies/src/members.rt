//! Objects and their members, by tables of names and plain values. The members of an object come in the order of their keys.
ghost use Rattle.std.specs.Prelude.{◌≡◌, ◌∷◌, [], IfOk, OnOk};
ghost use Rattle.serde_json.specs.Data.{no_members, object, put as with_member};
ghost use Rattle.serde_json.specs.View.{members_view, view};
ghost use Rattle.wk_answer_rules.specs.Values.{object_of, reply_beside};
ghost use Rattle.wk_replies.specs.Members.{plain_data, with_rows};

use serde_json::{Map, Value};
use std::alloc::Global;
use std::collections::btree_map::Entry;
use wk_memory::Memory;

/// A value that has no further ones within it.
#[derive(Clone, Copy)]
pub enum Plain<'a> {
    /// That something is so.
    Flag(bool),
    /// A whole number.
    Number(u64),
    /// The number of a namespace.
    Namespace(i8),
    /// A text.
    Text(&'a str),
}

/// The value of a reply.
fn value_of(alloc: Global, plain: Plain<'_>) -> Result<Value, Memory>
    ensures { IfOk result (λ v. view v ≡ plain_data plain.entry) }
{
    match plain {
        Plain::Flag(flag) => Ok(Value::Bool(flag)),
        Plain::Number(number) => Ok(Value::from(number)),
        Plain::Namespace(number) => Ok(Value::from(number)),
        Plain::Text(text) => Ok(Value::try_from_str(alloc, text)?),
    }
}

/// Puts the value under the name.
pub fn put(
    alloc: Global,
    members: &mut Map<String, Value>,
    name: &str,
    value: Value,
) -> Result<(), Memory>
    ensures { OnOk result (members_view members.new.entries ≡ with_member name.now (view value) (members_view members.old.entries)) }
{
    // Replies are made of these calls; `insert` has a second caller in what reads JSON, so LLVM doesn't write it here.
    let key = String::from_str(alloc, name)?;
    match members.entry(key)? {
        Entry::Vacant(place) => {
            place.insert(value);
        }
        Entry::Occupied(mut place) => drop(place.insert(value)),
    }
    Ok(())
}

/// Puts the values of a table under their names.
pub fn put_rows(
    alloc: Global,
    members: &mut Map<String, Value>,
    table: &[(&str, Plain<'_>)],
) -> Result<(), Memory>
    ensures { OnOk result (members_view members.new.entries ≡ with_rows (members_view members.old.entries) table.now) }
{
    for row in table {
        put(alloc, members, row.0, value_of(alloc, row.1)?)?;
    }
    Ok(())
}

/// The object of a table.
pub fn object(alloc: Global, table: &[(&str, Plain<'_>)]) -> Result<Value, Memory>
    ensures { IfOk result (λ v. view v ≡ object (with_rows no_members table.now)) }
{
    let mut members = Map::new(alloc);
    put_rows(alloc, &mut members, table)?;
    Ok(Value::Object(members))
}

/// The object of one member.
pub fn object_with(alloc: Global, name: &str, value: Value) -> Result<Value, Memory>
    ensures { IfOk result (λ v. view v ≡ object_of ((name.now, view value) ∷ [])) }
{
    let mut members = Map::new(alloc);
    put(alloc, &mut members, name, value)?;
    Ok(Value::Object(members))
}

/// A reply: a value under its name, beside the point.
pub fn reply(alloc: Global, name: &str, value: Value, point: u64) -> Result<Value, Memory>
    ensures { IfOk result (λ v. view v ≡ (reply_beside ((name.now, view value) ∷ []) point).value) }
{
    let mut members = Map::new(alloc);
    put(alloc, &mut members, "point", Value::from(point))?;
    put(alloc, &mut members, name, value)?;
    Ok(Value::Object(members))
}

/// A reply: the object of a table under its name, beside the point.
pub fn reply_of(
    alloc: Global,
    name: &str,
    table: &[(&str, Plain<'_>)],
    point: u64,
) -> Result<Value, Memory>
    ensures { IfOk result (λ v. view v ≡ (reply_beside ((name.now, object (with_rows no_members table.now)) ∷ []) point).value) }
{
    let value = object(alloc, table)?;
    reply(alloc, name, value, point)
}

// What a call gives for fields, as it stands in the JSON of its member `set`.
ghost use Rattle.std.specs.Prelude.{◌≡◌, ◌∷◌, ◌++◌, [], codes, string_bytes, IfOk, OnOk};
ghost use Rattle.serde_json.specs.View.{view, members_view, items_view};
ghost use Rattle.call_lines.specs.Given.{given_of, fields_of, texts_of};
ghost use Rattle.call_lines.specs.Given.{without_twins, given_set, set_at, set_if_there};
ghost use Rattle.call_lines.specs.Taken.{object_of, without};

use crate::taken::{take, text_of};
use field_values::{Memory, Names, Text};
use serde_json::{Map, Value};
use std::alloc::Global;
use tracker_calls::{Given, GivenField, GivenFields, ToldText, has_twins};

/// Takes the member `set` out, and what it gives; `None` where it isn't there, is no object, or has two names that differ
/// in case alone.
pub(crate) fn take_set(
    alloc: Global,
    members: &mut Map<String, Value>,
) -> Result<Option<GivenFields>, Memory>
    ensures set { IfOk result (λ set. set ≡ set_at (object_of members.old)) }
    ensures left { members_view members.new.entries
        ≡ without (codes "set") (members_view members.old.entries) }
{
    match take(members, "set") {
        Some(set) => given_set(alloc, set),
        None => Ok(None),
    }
}

/// The same of a member that may be absent, and then gives nothing.
pub(crate) fn take_set_if_there(
    alloc: Global,
    members: &mut Map<String, Value>,
) -> Result<Option<GivenFields>, Memory>
    ensures set { IfOk result (λ set. set ≡ set_if_there (object_of members.old)) }
    ensures left { members_view members.new.entries
        ≡ without (codes "set") (members_view members.old.entries) }
{
    match take(members, "set") {
        Some(set) => given_set(alloc, set),
        None => Ok(Some(GivenFields::new(alloc))),
    }
}

fn given_set(alloc: Global, value: Value) -> Result<Option<GivenFields>, Memory>
    ensures { IfOk result (λ set. set ≡ given_set (view value)) }
{
    match value {
        Value::Object(members) => without_twins(alloc, fields_of(alloc, members)?),
        _ => Ok(None),
    }
}

pub(crate) fn without_twins(
    alloc: Global,
    fields: GivenFields,
) -> Result<Option<GivenFields>, Memory>
    ensures { IfOk result (λ set. set ≡ without_twins fields) }
{
    if has_twins(alloc, fields.as_slice())? {
        return Ok(None);
    }
    Ok(Some(fields))
}

fn fields_of(alloc: Global, members: Map<String, Value>) -> Result<GivenFields, Memory>
    ensures { IfOk result (λ fields. fields ≡ fields_of (members_view members.entries)) }
{
    let mut fields = GivenFields::with_room(alloc, members.len())?;
    for (name, value) in members {
        put_given(alloc, &mut fields, name, value)?;
    }
    Ok(fields)
}

fn put_given(
    alloc: Global,
    fields: &mut GivenFields,
    name: String,
    value: Value,
) -> Result<(), Memory>
    ensures { OnOk result (fields.new
        ≡ fields.old ++ (record { name = string_bytes name; given = given_of (view value) }) ∷ []) }
{
    let given = given_of(alloc, value)?;
    let name = ToldText::of(Text::of(name));
    fields.push(GivenField { name, given })
}

fn given_of(alloc: Global, value: Value) -> Result<Given, Memory>
    ensures { IfOk result (λ given. given ≡ given_of (view value)) }
{
    match value {
        Value::Null => Ok(Given::Null),
        Value::String(text) => Ok(Given::Text(ToldText::of(Text::of(text)))),
        Value::Number(number) => Ok(match number.as_u64() {
            Some(n) => Given::Number(n),
            None => Given::Other,
        }),
        Value::Array(items) => Ok(match texts_of(alloc, items)? {
            Some(names) => Given::List(names),
            None => Given::Other,
        }),
        _ => Ok(Given::Other),
    }
}

/// The texts of an array, or `None` where it has anything else.
pub(crate) fn texts_of(alloc: Global, items: Vec<Value>) -> Result<Option<Names>, Memory>
    ensures { IfOk result (λ names. names ≡ texts_of (items_view items.items)) }
{
    let mut names = Names::new(alloc);
    for item in items {
        let Some(text) = text_of(item) else {
            return Ok(None);
        };
        names.push(text)?;
    }
    Ok(Some(names))
}

// The values of fields that a body tells.
ghost use Rattle.std.specs.Prelude.{◌≡◌, IfOk};
ghost use Rattle.field_forms.specs.TextLists.{texts_of};
ghost use Rattle.fields.specs.SetupParts.{names};
ghost use Rattle.serde_json.specs.View.{view};
ghost use Rattle.tracker_keeper.specs.Forms.{is_filled};
ghost use Rattle.tracker_keeper.specs.LookingAtValues.{is_sprint, unless_sprint, text_value};
ghost use Rattle.tracker_keeper.specs.LookingAtValues.{sprint_value, list_value, value_like};
ghost use Rattle.tracker_keeper.specs.LookingAtValues.{unless_empty, filled_like};

use field_forms::text_list::texts_of;
use field_values::{FieldNo, Memory, SprintNo, Value};
use fields::Setup;
use serde_json::Value as Json;
use std::alloc::Global;

fn is_sprint(value: &Value) -> bool
    ensures { result ≡ is_sprint value.now }
{
    match value {
        Value::Sprint(_) => true,
        _ => false,
    }
}

// A sprint is told by its number, and by nothing else.
fn unless_sprint(value: Value) -> Option<Value>
    ensures { result ≡ unless_sprint value }
{
    if is_sprint(&value) { None } else { Some(value) }
}

fn text_value(
    alloc: Global,
    setup: &Setup,
    field: FieldNo,
    text: &str,
) -> Result<Option<Value>, Memory>
    ensures { IfOk result (λ value. value ≡ text_value (names setup.now) field.0 text.now) }
{
    match setup.value_of(alloc, field, text)? {
        Some(value) => Ok(unless_sprint(value)),
        None => Ok(None),
    }
}

fn sprint_value(setup: &Setup, field: FieldNo, sprint: u64) -> Option<Value>
    ensures { result ≡ sprint_value (names setup.now) field.0 sprint }
{
    if 4_294_967_296 <= sprint {
        return None;
    }
    let value = Value::Sprint(SprintNo(sprint as u32));
    if setup.fits(field, &value) {
        Some(value)
    } else {
        None
    }
}

fn list_value(
    alloc: Global,
    setup: &Setup,
    field: FieldNo,
    value: &Json,
) -> Result<Option<Value>, Memory>
    ensures { IfOk result (λ found. found
        ≡ list_value (names setup.now) field.0 (texts_of (view value.now))) }
{
    let Some(texts) = texts_of(alloc, value)? else {
        return Ok(None);
    };
    match setup.listed_value_of(alloc, field, texts.as_slice())? {
        Some(value) => Ok(unless_sprint(value)),
        None => Ok(None),
    }
}

// The value that stands there, where null tells what is empty.
pub(crate) fn value_like(
    alloc: Global,
    setup: &Setup,
    field: FieldNo,
    value: &Json,
) -> Result<Option<Value>, Memory>
    ensures { IfOk result (λ found. found ≡ value_like (names setup.now) field.0 (view value.now)) }
{
    if value.is_null() {
        return Ok(Some(Value::Empty));
    }
    match value.as_str() {
        Some(text) => text_value(alloc, setup, field, text),
        None => match value.as_u64() {
            Some(sprint) => Ok(sprint_value(setup, field, sprint)),
            None => list_value(alloc, setup, field, value),
        },
    }
}

fn is_filled(value: &Value) -> bool
    ensures { result ≡ is_filled value.now }
{
    match value {
        Value::Empty => false,
        _ => true,
    }
}

fn unless_empty(value: Value) -> Option<Value>
    ensures { result ≡ unless_empty value }
{
    if is_filled(&value) { Some(value) } else { None }
}

pub(crate) fn filled_like(
    alloc: Global,
    setup: &Setup,
    field: FieldNo,
    value: &Json,
) -> Result<Option<Value>, Memory>
    ensures { IfOk result (λ found. found
        ≡ filled_like (names setup.now) field.0 (view value.now)) }
{
    match value_like(alloc, setup, field, value)? {
        Some(value) => Ok(unless_empty(value)),
        None => Ok(None),
    }
}

// Values of fields as bodies tell them.
ghost use Rattle.std.specs.Prelude.{◌≡◌, true, OnOk};
ghost use Rattle.field_forms.specs.TextLists.{texts_data};
ghost use Rattle.json_texts.specs.JsonTokens.{after};
ghost use Rattle.field_forms.specs.Known.{choices_of};
ghost use Rattle.field_forms.specs.ValueTexts.{chosen_names};
ghost use Rattle.fields.specs.SetupParts.{names};
ghost use Rattle.tracker_keeper.specs.Forms.{may_hold};
ghost use Rattle.tracker_keeper.specs.ValueData.{value_data};

use crate::spelled::{choice_at, choice_name};
use field_values::{ChoiceNo, FieldNo, Memory, Value};
use fields::Setup;
use json_texts::JsonText;

/// The bytes that most names, numbers and labels have at most.
const NAME_ROOM: usize = 64;

/// Writes a value, or null where it is empty.
#[tactic(auto, using(crate::proofs::Values::day_inside))]
pub(crate) fn put_value(
    out: &mut JsonText,
    setup: &Setup,
    field: FieldNo,
    value: &Value,
) -> Result<(), Memory>
    requires { may_hold (names setup.now) field.0 value.now ≡ true }
    ensures { OnOk result (out.new
        ≡ after (value_data (names setup.now) field.0 value.now) out.old) }
{
    match value {
        Value::Empty => out.null(),
        Value::Text(text) => out.text(text.as_str()),
        Value::Number(number) => out.number_text(*number),
        Value::Choice(choice) => out.text(choice_name(setup, field, choice.0)),
        Value::User(user) => out.text(choice_name(setup, field, user.0)),
        Value::Date(day) => out.day_text(day.0),
        Value::Set(choices) => put_chosen(out, setup, field, choices.as_slice()),
        Value::Labels(labels) => out.texts(labels.as_slice()),
        Value::Sprint(sprint) => out.number(u64::from(sprint.0)),
    }
}

// Writes the names of those choices that have one as an array.
fn put_chosen(
    out: &mut JsonText,
    setup: &Setup,
    field: FieldNo,
    choices: &[ChoiceNo],
) -> Result<(), Memory>
    ensures { OnOk result (out.new ≡ after
        (texts_data (chosen_names (choices_of (names setup.now) field.0) choices.now)) out.old) }
{
    out.begin_array()?;
    for choice in choices {
        if let Some(name) = choice_at(setup, field, choice.0) {
            out.text(name)?;
        }
    }
    out.end_array()
}

/// How many bytes a value's text has at most in a body, in general: each byte of a text may be escaped by one more.
pub(crate) fn value_room(value: &Value) -> usize {
    match value {
        Value::Text(text) => text.as_str().len().saturating_mul(2),
        Value::Set(choices) => choices.as_slice().len().saturating_mul(NAME_ROOM),
        Value::Labels(labels) => labels.as_slice().len().saturating_mul(NAME_ROOM),
        _ => NAME_ROOM,
    }
}

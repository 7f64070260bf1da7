// Values of an issue's fields, written as answers tell them.
ghost use Rattle.std.specs.Prelude.{◌≡◌, OnOk, option_map, slice_get};
ghost use Rattle.change_history.specs.History.{present};
ghost use Rattle.field_forms.specs.TextLists.{texts_data};
ghost use Rattle.json_texts.specs.JsonTokens.{after};
ghost use Rattle.field_forms.specs.ValueTexts.{chosen_names};
ghost use Rattle.fields.specs.SetupParts.{parts, names_in};
ghost use Rattle.reply_texts.specs.Reply.{shown_or_null};
ghost use Rattle.tracker_machine.specs.Show.{shown_value};
ghost use Rattle.tracker_machine.specs.Tracker.{Holds};

use change_history::Issue;
use fields::{ChoiceNo, FieldNo, Memory, Setup, Text, Value};
use issue_calls::spelled::{choice_name, name_at};
use json_texts::JsonText;

/// Writes the field's present value, or null where it is empty. One that takes no memory is looked for in the issue alone.
pub fn write_present(
    out: &mut JsonText,
    setup: &Setup,
    issue: &Issue,
    field: FieldNo,
) -> Result<(), Memory>
    requires { Holds (names_in (parts setup.now)) field (present issue.now.history field) }
    ensures { OnOk result (out.new ≡ after (shown_or_null (shown_value
        (names_in (parts setup.now)) field.0 (present issue.now.history field))) out.old) }
{
    match issue.small(field).value() {
        Some(value) => write_value(out, setup, field, &value),
        None => write_value(out, setup, field, issue.value(field)),
    }
}

// Writes a value, or null where it is empty.
#[tactic(auto, using(issue_calls::proofs::Holding::day_held))]
fn write_value(
    out: &mut JsonText,
    setup: &Setup,
    field: FieldNo,
    value: &Value,
) -> Result<(), Memory>
    requires { Holds (names_in (parts setup.now)) field value.now }
    ensures { OnOk result (out.new ≡ after
        (shown_or_null (shown_value (names_in (parts setup.now)) field.0 value.now)) out.old) }
{
    match value {
        Value::Empty => out.null(),
        Value::Text(text) => out.text(text.as_str()),
        Value::Number(number) => out.number_text(*number),
        Value::Choice(choice) => out.text(choice_name(setup, field, *choice)),
        Value::User(user) => out.text(name_at(setup.users.as_slice(), user.0)),
        Value::Date(day) => out.day_text(day.0),
        Value::Set(choices) => write_chosen(out, setup.versions.as_slice(), choices.as_slice()),
        Value::Labels(labels) => out.texts(labels.as_slice()),
        Value::Sprint(sprint) => out.number(u64::from(sprint.0)),
    }
}

// Writes the names of those choices that have one as an array.
fn write_chosen(out: &mut JsonText, names: &[Text], choices: &[ChoiceNo]) -> Result<(), Memory>
    ensures { OnOk result (out.new
        ≡ after (texts_data (chosen_names names.now choices.now)) out.old) }
{
    out.begin_array()?;
    for choice in choices {
        if let Some(name) = chosen_name(names, *choice) {
            out.text(name)?;
        }
    }
    out.end_array()
}

fn chosen_name(names: &[Text], choice: ChoiceNo) -> Option<&str>
    ensures { option_map (λ name. name.now) result ≡ slice_get names.now choice.0 }
{
    match names.get(usize::from(choice.0)) {
        Some(name) => Some(name.as_str()),
        None => None,
    }
}

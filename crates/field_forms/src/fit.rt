// Whether a value may stand in a field.
ghost use Rattle.std.specs.Prelude.{◌≡◌};
ghost use Rattle.field_forms.specs.Known.{names_of, AreFew, may_be_empty, fits};
ghost use Rattle.field_forms.specs.Numbers.{is_number};
ghost use Rattle.field_forms.specs.Values.{is_set, is_label_list, is_of_form};

use crate::form::{Form, is_before, is_label, is_line, is_prose};
use crate::known::{Known, choices_of, form_of};
use civil_dates::is_day;
use field_values::numbers::{ChoiceNo, FieldNo};
use field_values::text::Text;
use field_values::value::Value;

/// Whether each choice is one of so many, and they rise.
fn is_set(count: usize, choices: &[ChoiceNo]) -> bool
    ensures { result ≡ is_set count choices.now }
{
    for (place, choice) in choices.iter().enumerate() {
        if place + 1 == choices.len() {
            return usize::from(choice.0) < count;
        }
        if choices[place + 1].0 <= choice.0 {
            return false;
        }
    }
    true
}

/// Whether each is a label that stands before the next by its bytes.
fn is_label_list(labels: &[Text]) -> bool
    ensures { result ≡ is_label_list labels.now }
{
    for (place, label) in labels.iter().enumerate() {
        if !is_label(label.as_str()) {
            return false;
        }
        if place + 1 == labels.len() {
            return true;
        }
        if !is_before(label.as_str(), labels[place + 1].as_str()) {
            return false;
        }
    }
    true
}

fn is_number(number: i64) -> bool
    ensures { result ≡ is_number number }
{
    number.unsigned_abs() <= 999_999_999_999
}

/// Whether a value that isn't empty may stand in a field of this form.
fn is_of_form(form: Form, names: &[Text], value: &Value) -> bool
    ensures { result ≡ is_of_form form names.now value.now }
{
    match (form, value) {
        (Form::Line(most), Value::Text(text)) => is_line(most, text.as_str()),
        (Form::Prose(most), Value::Text(text)) => is_prose(most, text.as_str()),
        (Form::Number, Value::Number(number)) => is_number(*number),
        (Form::Points, Value::Number(number)) => 0 <= *number && is_number(*number),
        (Form::Choice, Value::Choice(choice)) => usize::from(choice.0) < names.len(),
        (Form::User, Value::User(user)) => usize::from(user.0) < names.len(),
        (Form::Set, Value::Set(choices)) => {
            !choices.as_slice().is_empty() && is_set(names.len(), choices.as_slice())
        }
        (Form::Labels, Value::Labels(labels)) => {
            1 <= labels.as_slice().len()
                && labels.as_slice().len() <= 16
                && is_label_list(labels.as_slice())
        }
        (Form::Date, Value::Date(day)) => is_day(day.0),
        (Form::Sprint, Value::Sprint(_)) => true,
        _ => false,
    }
}

/// Type, summary and status are never empty.
fn may_be_empty(field: FieldNo) -> bool
    ensures { result ≡ may_be_empty field.0 }
{
    !(field == FieldNo::TYPE || field == FieldNo::SUMMARY || field == FieldNo::STATUS)
}

/// Whether the field may hold the value.
#[tactic(auto, unfolding(crate::specs::Known::fits))]
pub fn fits(known: &Known<'_>, field: FieldNo, value: &Value) -> bool
    requires { AreFew (names_of known.now) }
    ensures { result ≡ fits (names_of known.now) field.0 value.now }
{
    match form_of(known.fields, field) {
        None => false,
        Some(form) => match value {
            Value::Empty => may_be_empty(field),
            _ => is_of_form(form, choices_of(known, field), value),
        },
    }
}

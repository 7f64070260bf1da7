// The names that a text of the setup, or a value, may name.
ghost use Rattle.std.specs.Prelude.{◌≡◌, ◌≢◌, ◌≤◌, ◌==◌, true, length, IfOk, IfSome, option_map};
ghost use Rattle.std.specs.Prelude.{Some};
ghost use Rattle.std.specs.List.{find, list_all};
ghost use Rattle.field_forms.specs.Known.{has_few_options};
ghost use Rattle.field_forms.specs.Known.{names_of, AreFew, own_field, own_field_named};
ghost use Rattle.field_forms.specs.Known.{field_named, form_of, form_by, own_choices, choices_of};
ghost use Rattle.field_forms.specs.Known.{value_of, fits, listed_value_of};
ghost use Rattle.field_forms.specs.Names.{AreDistinct};
ghost use Rattle.field_forms.specs.ValueTexts.{IsTextOf, IsReadBack};

use crate::built_in::built_in_no;
use crate::form::{Form, listed_in, value_in};
use crate::name_form::is_same_name;
use crate::value_text::value_text;
use field_values::field::Field;
use field_values::memory::Memory;
use field_values::numbers::FieldNo;
use field_values::text::Text;
use field_values::value::Value;
use field_values::words::FieldKind;
use std::alloc::Global;

/// The lists of names of the setup, lent.
#[derive(Clone, Copy)]
pub struct Known<'a> {
    pub users: &'a [Text],
    pub types: &'a [Text],
    pub statuses: &'a [Text],
    pub priorities: &'a [Text],
    pub resolutions: &'a [Text],
    pub versions: &'a [Text],
    pub groups: &'a [Text],
    pub fields: &'a [Field],
}

fn field_numbered(fields: &[Field], no: u16) -> Option<&Field>
    ensures { option_map (λ f. f.now) result ≡ own_field fields.now no }
{
    fields.iter().find(|field| field.number.0 == no)
}

/// The setup's own field of that number.
fn own_field(fields: &[Field], no: u16) -> Option<&Field>
    requires { list_all has_few_options fields.now ≡ true }
    ensures found { option_map (λ f. f.now) result ≡ own_field fields.now no }
    ensures few { IfSome result (λ f. length f.now.options ≤ 200) }
{
    field_numbered(fields, no)
}

fn own_field_named<'a>(fields: &'a [Field], name: &str) -> Option<&'a Field>
    ensures { option_map (λ f. f.now) result ≡ own_field_named fields.now name.now }
{
    fields
        .iter()
        .find(|field| is_same_name(field.name.as_str(), name))
}

/// The number of the field of that name, ASCII case ignored.
#[tactic(auto, unfolding(crate::specs::Known::field_named))]
pub fn field_named(fields: &[Field], name: &str) -> Option<FieldNo>
    ensures { option_map (λ no. no.0) result ≡ field_named fields.now name.now }
{
    if let Some(no) = built_in_no(name) {
        return Some(FieldNo(no));
    }
    match own_field_named(fields, name) {
        Some(field) => Some(field.number),
        None => None,
    }
}

fn form_by(kind: FieldKind) -> Form
    ensures { result ≡ form_by kind }
{
    match kind {
        FieldKind::Text => Form::Prose(1024),
        FieldKind::Number => Form::Number,
        FieldKind::Choice => Form::Choice,
        FieldKind::User => Form::User,
        FieldKind::Date => Form::Date,
    }
}

/// The form of what the field holds, if there is such a field.
#[tactic(auto, unfolding(crate::specs::Known::form_of))]
pub fn form_of(fields: &[Field], field: FieldNo) -> Option<Form>
    requires { list_all has_few_options fields.now ≡ true }
    ensures { result ≡ form_of fields.now field.0 }
{
    match field {
        FieldNo::TYPE | FieldNo::STATUS | FieldNo::PRIORITY | FieldNo::RESOLUTION => {
            Some(Form::Choice)
        }
        FieldNo::SUMMARY => Some(Form::Line(255)),
        FieldNo::DESCRIPTION => Some(Form::Prose(4096)),
        FieldNo::ASSIGNEE | FieldNo::REPORTER => Some(Form::User),
        FieldNo::FIX_VERSION => Some(Form::Set),
        FieldNo::LABELS => Some(Form::Labels),
        FieldNo::DUE => Some(Form::Date),
        FieldNo::POINTS => Some(Form::Points),
        FieldNo::SPRINT => Some(Form::Sprint),
        _ => match own_field(fields, field.0) {
            Some(field) => Some(form_by(field.kind)),
            None => None,
        },
    }
}

/// The names that a value of a field of the setup's own may name.
fn own_choices<'a>(known: &Known<'a>, field: &'a Field) -> &'a [Text]
    requires few { AreFew (names_of known.now) }
    requires options { length field.now.options ≤ 200 }
    ensures names { result.now ≡ own_choices (names_of known.now) field.now }
    ensures few { length result.now ≤ 500 }
{
    match field.kind {
        FieldKind::User => known.users,
        FieldKind::Text | FieldKind::Number | FieldKind::Choice | FieldKind::Date => {
            field.options.as_slice()
        }
    }
}

/// The names that a value of the field may name.
#[tactic(auto, unfolding(crate::specs::Known::choices_of))]
pub fn choices_of<'a>(known: &Known<'a>, field: FieldNo) -> &'a [Text]
    requires { AreFew (names_of known.now) }
    ensures names { result.now ≡ choices_of (names_of known.now) field.0 }
    ensures few { length result.now ≤ 500 }
{
    match field {
        FieldNo::TYPE => known.types,
        FieldNo::STATUS => known.statuses,
        FieldNo::ASSIGNEE | FieldNo::REPORTER => known.users,
        FieldNo::PRIORITY => known.priorities,
        FieldNo::RESOLUTION => known.resolutions,
        FieldNo::FIX_VERSION => known.versions,
        _ => match own_field(known.fields, field.0) {
            Some(field) => own_choices(known, field),
            None => &[],
        },
    }
}

#[tactic(auto, unfolding(crate::specs::Known::value_of))]
fn read_value(
    alloc: Global,
    known: &Known<'_>,
    field: FieldNo,
    text: &str,
) -> Result<Option<Value>, Memory>
    requires { AreFew (names_of known.now) }
    ensures { IfOk result (λ value. value ≡ value_of (names_of known.now) field.0 text.now) }
{
    match form_of(known.fields, field) {
        Some(form) => value_in(alloc, form, choices_of(known, field), text),
        None => Ok(None),
    }
}

/// The value that a text stands for in the field; `None` where it is none of the field's.
pub fn value_of(
    alloc: Global,
    known: &Known<'_>,
    field: FieldNo,
    text: &str,
) -> Result<Option<Value>, Memory>
    requires { AreFew (names_of known.now) }
    ensures value { IfOk result (λ value. value ≡ value_of (names_of known.now) field.0 text.now) }
    ensures fits { IfOk result (λ value. IfSome value (λ v.
        fits (names_of known.now) field.0 v ≡ true)) }
{
    read_value(alloc, known, field, text)
}

/// The text of a value that the field may hold and that isn't empty. Where no two of the names that a value there may name
/// are the same, a text, a number, a choice, a user or a date is read back from it.
#[tactic(auto, using(crate::proofs::Fitting::fits_says))]
pub fn text_of(
    alloc: Global,
    known: &Known<'_>,
    field: FieldNo,
    value: &Value,
) -> Result<Text, Memory>
    requires few { AreFew (names_of known.now) }
    requires fits { fits (names_of known.now) field.0 value.now ≡ true }
    requires some { value.now ≢ Value.Empty }
    ensures text { IfOk result (IsTextOf (choices_of (names_of known.now) field.0) value.now) }
    ensures read { AreDistinct (choices_of (names_of known.now) field.0) → IsReadBack value.now
        → IfOk result (λ text. value_of (names_of known.now) field.0 text ≡ Some value.now) }
{
    value_text(alloc, choices_of(known, field), value)
}

#[tactic(auto, unfolding(crate::specs::Known::listed_value_of))]
fn read_list(
    alloc: Global,
    known: &Known<'_>,
    field: FieldNo,
    texts: &[Text],
) -> Result<Option<Value>, Memory>
    requires { AreFew (names_of known.now) }
    ensures { IfOk result (λ value. value
        ≡ listed_value_of (names_of known.now) field.0 texts.now) }
{
    match form_of(known.fields, field) {
        Some(form) => listed_in(alloc, form, choices_of(known, field), texts),
        None => Ok(None),
    }
}

/// The value that a list of texts stands for in the field; `None` where it is none of the field's.
pub fn listed_value_of(
    alloc: Global,
    known: &Known<'_>,
    field: FieldNo,
    texts: &[Text],
) -> Result<Option<Value>, Memory>
    requires { AreFew (names_of known.now) }
    ensures value { IfOk result (λ value. value
        ≡ listed_value_of (names_of known.now) field.0 texts.now) }
    ensures fits { IfOk result (λ value. IfSome value (λ v.
        fits (names_of known.now) field.0 v ≡ true)) }
{
    read_list(alloc, known, field, texts)
}

// What values name, as the setup spells it, lent.
ghost use Rattle.std.specs.Prelude.{◌≡◌, [], map, option_map};
ghost use Rattle.std.specs.Option.{option_map_or};
ghost use Rattle.field_forms.specs.Known.{own_field, own_choices, choices_of};
ghost use Rattle.fields.specs.Naming.{name_at};
ghost use Rattle.fields.specs.SetupParts.{parts, names_in};

use fields::{ChoiceNo, Field, FieldKind, FieldNo, Setup, Status, Text};

/// The name at a place; an empty text where there is none.
pub fn name_at(names: &[Text], place: u16) -> &str
    ensures { result.now ≡ name_at names.now place }
{
    match names.get(usize::from(place)) {
        Some(name) => name.as_str(),
        None => "",
    }
}

// The same of statuses.
fn status_name(statuses: &[Status], place: u16) -> &str
    ensures { result.now ≡ name_at (map (λ s. s.name) statuses.now) place }
{
    match statuses.get(usize::from(place)) {
        Some(status) => status.name.as_str(),
        None => "",
    }
}

fn own_field(fields: &[Field], no: u16) -> Option<&Field>
    ensures { option_map (λ f. f.now) result ≡ own_field fields.now no }
{
    fields.iter().find(|field| field.number.0 == no)
}

// The name at a place among those that a value of a field of the setup's own may name.
fn own_name<'a>(setup: &'a Setup, own: &'a Field, place: u16) -> &'a str
    ensures { result.now ≡ name_at (own_choices (names_in (parts setup.now)) own.now) place }
{
    match own.kind {
        FieldKind::User => name_at(setup.users.as_slice(), place),
        FieldKind::Text | FieldKind::Number | FieldKind::Choice | FieldKind::Date => {
            name_at(own.options.as_slice(), place)
        }
    }
}

// The same of the setup's own field of that number, if there is one.
fn own_choice(setup: &Setup, no: u16, place: u16) -> &str
    ensures { result.now ≡ name_at (option_map_or (own_choices (names_in (parts setup.now)))
        (own_field setup.now.field no) []) place }
{
    match own_field(setup.field.as_slice(), no) {
        Some(own) => own_name(setup, own, place),
        None => "",
    }
}

/// The name of a choice among those of the field; an empty text where there is none.
#[tactic(auto, unfolding(field_forms::specs::Known::choices_of))]
pub fn choice_name(setup: &Setup, field: FieldNo, choice: ChoiceNo) -> &str
    ensures { result.now ≡ name_at (choices_of (names_in (parts setup.now)) field.0) choice.0 }
{
    let place = choice.0;
    match field {
        FieldNo::TYPE => name_at(setup.types.as_slice(), place),
        FieldNo::STATUS => status_name(setup.status.as_slice(), place),
        FieldNo::ASSIGNEE | FieldNo::REPORTER => name_at(setup.users.as_slice(), place),
        FieldNo::PRIORITY => name_at(setup.priorities.as_slice(), place),
        FieldNo::RESOLUTION => name_at(setup.resolutions.as_slice(), place),
        FieldNo::FIX_VERSION => name_at(setup.versions.as_slice(), place),
        FieldNo(no) => own_choice(setup, no, place),
    }
}

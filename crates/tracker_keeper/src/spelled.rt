// What the setup names, as it spells it, lent.
ghost use Rattle.std.specs.Prelude.{◌≡◌, [], map, option_map, slice_get};
ghost use Rattle.std.specs.Option.{option_map_or};
ghost use Rattle.field_forms.specs.Known.{own_field, own_choices, choices_of};
ghost use Rattle.fields.specs.Naming.{name_at};
ghost use Rattle.fields.specs.SetupParts.{names};

use field_values::{Field, FieldKind, FieldNo, Project, Status, Text};
use fields::Setup;

/// The name at a place; an empty text where there is none.
pub(crate) fn name_at(names: &[Text], place: u16) -> &str
    ensures { result.now ≡ name_at names.now place }
{
    match names.get(usize::from(place)) {
        Some(name) => name.as_str(),
        None => "",
    }
}

/// The key of the project at a place.
pub(crate) fn project_key(projects: &[Project], place: u16) -> &str
    ensures { result.now ≡ name_at (map (λ p. p.key) projects.now) place }
{
    match projects.get(usize::from(place)) {
        Some(project) => project.key.as_str(),
        None => "",
    }
}

fn text_at(names: &[Text], place: u16) -> Option<&str>
    ensures { option_map (λ text. text.now) result ≡ slice_get names.now place }
{
    match names.get(usize::from(place)) {
        Some(name) => Some(name.as_str()),
        None => None,
    }
}

fn status_at(statuses: &[Status], place: u16) -> Option<&str>
    ensures { option_map (λ text. text.now) result
        ≡ slice_get (map (λ s. s.name) statuses.now) place }
{
    match statuses.get(usize::from(place)) {
        Some(status) => Some(status.name.as_str()),
        None => None,
    }
}

fn own_field(fields: &[Field], no: u16) -> Option<&Field>
    ensures { option_map (λ f. f.now) result ≡ own_field fields.now no }
{
    fields.iter().find(|field| field.number.0 == no)
}

fn own_choice_at<'a>(setup: &'a Setup, field: &'a Field, place: u16) -> Option<&'a str>
    ensures { option_map (λ text. text.now) result
        ≡ slice_get (own_choices (names setup.now) field.now) place }
{
    match field.kind {
        FieldKind::User => text_at(setup.users.as_slice(), place),
        FieldKind::Text | FieldKind::Number | FieldKind::Choice | FieldKind::Date => {
            text_at(field.options.as_slice(), place)
        }
    }
}

fn own_choice(setup: &Setup, no: u16, place: u16) -> Option<&str>
    ensures { option_map (λ text. text.now) result
        ≡ slice_get (option_map_or (own_choices (names setup.now))
        (own_field setup.now.field no) []) place }
{
    match own_field(setup.field.as_slice(), no) {
        Some(own) => own_choice_at(setup, own, place),
        None => None,
    }
}

/// The name at a place among those that a value of the field may name.
#[tactic(auto, unfolding(field_forms::specs::Known::choices_of))]
pub(crate) fn choice_at(setup: &Setup, field: FieldNo, place: u16) -> Option<&str>
    ensures { option_map (λ text. text.now) result
        ≡ slice_get (choices_of (names setup.now) field.0) place }
{
    match field {
        FieldNo::TYPE => text_at(setup.types.as_slice(), place),
        FieldNo::STATUS => status_at(setup.status.as_slice(), place),
        FieldNo::ASSIGNEE | FieldNo::REPORTER => text_at(setup.users.as_slice(), place),
        FieldNo::PRIORITY => text_at(setup.priorities.as_slice(), place),
        FieldNo::RESOLUTION => text_at(setup.resolutions.as_slice(), place),
        FieldNo::FIX_VERSION => text_at(setup.versions.as_slice(), place),
        FieldNo(no) => own_choice(setup, no, place),
    }
}

/// The same, an empty text where there is none.
pub(crate) fn choice_name(setup: &Setup, field: FieldNo, place: u16) -> &str
    ensures { result.now ≡ name_at (choices_of (names setup.now) field.0) place }
{
    match choice_at(setup, field, place) {
        Some(name) => name,
        None => "",
    }
}

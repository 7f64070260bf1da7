// A field, what it holds, and the names that a value of it may have.
ghost use Rattle.std.specs.Prelude.{◌≡◌, IfOk, map, option_map};
ghost use Rattle.field_forms.specs.Known.{form_by, choices_of, own_choices, own_field};
ghost use Rattle.fields.specs.SetupParts.{names};
ghost use Rattle.told_setups.specs.Told.{kind_by, kind_of, options_by, told_field};

use fields::{Field, FieldKind, FieldNo, Memory, Names, Setup, Status, Text};
use std::alloc::Global;
use tracker_calls::{ToldField, ToldKind, ToldText};

/// The field of a number.
pub fn told_field(alloc: Global, setup: &Setup, field: FieldNo) -> Result<ToldField, Memory>
    ensures { IfOk result (λ told. told ≡ told_field (names setup.now) field.0) }
{
    let kind = kind_of(setup, field);
    let options = options_of(alloc, setup, field, kind)?;
    let name = ToldText::copy_of(alloc, setup.field_name(field))?;
    Ok(ToldField {
        kind,
        name,
        number: field,
        options,
    })
}

fn own_field(fields: &[Field], no: u16) -> Option<&Field>
    ensures { option_map (λ f. f.now) result ≡ own_field fields.now no }
{
    fields.iter().find(|field| field.number.0 == no)
}

fn own_kind(kind: FieldKind) -> ToldKind
    ensures { result ≡ kind_by (form_by kind) }
{
    match kind {
        FieldKind::Text => ToldKind::Text,
        FieldKind::Number => ToldKind::Number,
        FieldKind::Choice => ToldKind::Choice,
        FieldKind::User => ToldKind::User,
        FieldKind::Date => ToldKind::Date,
    }
}

#[tactic(auto, unfolding(field_forms::specs::Known::form_of))]
fn kind_of(setup: &Setup, field: FieldNo) -> ToldKind
    ensures { result ≡ kind_of (names setup.now) field.0 }
{
    match field {
        FieldNo::TYPE | FieldNo::STATUS | FieldNo::PRIORITY | FieldNo::RESOLUTION => {
            ToldKind::Choice
        }
        FieldNo::SUMMARY | FieldNo::DESCRIPTION => ToldKind::Text,
        FieldNo::ASSIGNEE | FieldNo::REPORTER => ToldKind::User,
        FieldNo::FIX_VERSION => ToldKind::Set,
        FieldNo::LABELS => ToldKind::Labels,
        FieldNo::DUE => ToldKind::Date,
        FieldNo::POINTS => ToldKind::Number,
        FieldNo::SPRINT => ToldKind::Sprint,
        _ => match own_field(setup.field.as_slice(), field.0) {
            Some(own) => own_kind(own.kind),
            None => ToldKind::Text,
        },
    }
}

// The names that a value may have, where what the field holds has any.
fn options_of(
    alloc: Global,
    setup: &Setup,
    field: FieldNo,
    kind: ToldKind,
) -> Result<Option<Names>, Memory>
    ensures { IfOk result
        (λ options. options ≡ options_by kind (choices_of (names setup.now) field.0)) }
{
    match kind {
        ToldKind::Choice | ToldKind::Set => {
            let options = choices_of(alloc, setup, field)?;
            Ok(Some(options))
        }
        ToldKind::Date
        | ToldKind::Labels
        | ToldKind::Number
        | ToldKind::Sprint
        | ToldKind::Text
        | ToldKind::User => Ok(None),
    }
}

#[tactic(auto, unfolding(field_forms::specs::Known::choices_of))]
fn choices_of(alloc: Global, setup: &Setup, field: FieldNo) -> Result<Names, Memory>
    ensures { IfOk result (λ choices. choices ≡ choices_of (names setup.now) field.0) }
{
    match field {
        FieldNo::TYPE => copy_names(alloc, setup.types.as_slice()),
        FieldNo::STATUS => status_names(alloc, setup.status.as_slice()),
        FieldNo::ASSIGNEE | FieldNo::REPORTER => copy_names(alloc, setup.users.as_slice()),
        FieldNo::PRIORITY => copy_names(alloc, setup.priorities.as_slice()),
        FieldNo::RESOLUTION => copy_names(alloc, setup.resolutions.as_slice()),
        FieldNo::FIX_VERSION => copy_names(alloc, setup.versions.as_slice()),
        _ => match own_field(setup.field.as_slice(), field.0) {
            Some(own) => own_choices(alloc, setup, own),
            None => Ok(Names::new(alloc)),
        },
    }
}

fn own_choices(alloc: Global, setup: &Setup, own: &Field) -> Result<Names, Memory>
    ensures { IfOk result (λ choices. choices ≡ own_choices (names setup.now) own.now) }
{
    match own.kind {
        FieldKind::User => copy_names(alloc, setup.users.as_slice()),
        FieldKind::Text | FieldKind::Number | FieldKind::Choice | FieldKind::Date => {
            own.options.copy(alloc)
        }
    }
}

fn status_names(alloc: Global, statuses: &[Status]) -> Result<Names, Memory>
    ensures { IfOk result (λ told. told ≡ map (λ s. s.name) statuses.now) }
{
    let mut told = Names::new(alloc);
    for status in statuses {
        told.push(status.name.copy(alloc)?)?;
    }
    Ok(told)
}

/// A list of the same texts.
pub fn copy_names(alloc: Global, texts: &[Text]) -> Result<Names, Memory>
    ensures { IfOk result (λ copy. copy ≡ texts.now) }
{
    let mut copy = Names::with_capacity(alloc, texts.len())?;
    for text in texts {
        copy.push(text.copy(alloc)?)?;
    }
    Ok(copy)
}

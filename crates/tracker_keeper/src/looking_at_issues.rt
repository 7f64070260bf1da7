// The issue that a body tells.
ghost use Rattle.std.specs.Prelude.{◌≡◌, ◌++◌, List, Option, None, map, option_map, IfOk};
ghost use Rattle.std.specs.Prelude.{if◌then◌else◌};
ghost use Rattle.field_forms.specs.Cuts.{cut_at};
ghost use Rattle.field_forms.specs.Names.{place_named};
ghost use Rattle.field_forms.specs.Numbers.{is_numeral};
ghost use Rattle.fields.specs.Naming.{field_name};
ghost use Rattle.fields.specs.SetupParts.{names, parts};
ghost use Rattle.change_history.specs.declared.change.Change.{Change};
ghost use Rattle.serde_json.specs.Find.{get};
ghost use Rattle.serde_json.specs.View.{view};
ghost use Rattle.tracker_keeper.specs.Kept.{part_keys};
ghost use Rattle.tracker_keeper.specs.LookingAtValues.{key_number, key_like, key_at, change_in};
ghost use Rattle.tracker_keeper.specs.LookingAtValues.{change_at, with_value, values_like};
ghost use Rattle.tracker_keeper.specs.LookingAtValues.{values_at, issue_like};

use crate::looking::{moment_at, number_in, text_at, user_at};
use crate::looking_at_values::filled_like;
use crate::part::Part;
use crate::spelled::project_key;
use change_history::{Change, Changes, Key};
use field_values::digits::{are_digits, value_of_digits};
use field_values::{FieldNo, IssueNo, Memory};
use fields::Setup;
use serde_json::Value as Json;
use std::alloc::Global;

fn is_numeral(digits: &[u8]) -> bool
    ensures { result ≡ is_numeral 10 digits.now }
{
    1 <= digits.len() && digits.len() <= 10 && are_digits(digits)
}

fn key_number(digits: &str) -> Option<u32>
    ensures { result ≡ key_number digits.now }
{
    let digits = digits.as_bytes();
    if is_numeral(digits) {
        number_in(value_of_digits(digits))
    } else {
        None
    }
}

// The parts of a key before and after its first hyphen.
fn cut(key: &str) -> Option<(&str, &str)>
    ensures { option_map (λ parts. (parts.0.now, parts.1.now)) result ≡ cut_at 45 key.now }
{
    key.split_once('-')
}

// The project of a key.
fn project_place(setup: &Setup, name: &str) -> Option<u16>
    ensures { result ≡ place_named name.now (part_keys (parts setup.now)) }
{
    match setup.project_named(name) {
        Some(project) => Some(project.0),
        None => None,
    }
}

fn key_like(alloc: Global, setup: &Setup, text: &str) -> Result<Option<Key>, Memory>
    ensures { IfOk result (λ key. key ≡ key_like (part_keys (parts setup.now)) text.now) }
{
    let Some((project, digits)) = cut(text) else {
        return Ok(None);
    };
    let Some(place) = project_place(setup, project) else {
        return Ok(None);
    };
    let Some(number) = key_number(digits) else {
        return Ok(None);
    };
    let project = project_key(setup.project.as_slice(), place);
    Ok(Some(Key::of(alloc, project, number)?))
}

fn key_at(alloc: Global, setup: &Setup, value: &Json) -> Result<Option<Key>, Memory>
    ensures { IfOk result (λ key. key ≡ key_at (part_keys (parts setup.now)) (view value.now)) }
{
    match text_at(value, "key") {
        Some(text) => key_like(alloc, setup, text),
        None => Ok(None),
    }
}

pub(crate) fn change_in(no: u64) -> Option<u64>
    ensures { result ≡ change_in no }
{
    if 1 <= no { Some(no) } else { None }
}

fn change_at(value: &Json, name: &str) -> Option<u64>
    ensures { result ≡ change_at name.now (view value.now) }
{
    let number = value.get(name)?.as_u64()?;
    change_in(number)
}

fn member<'v>(value: &'v Json, name: &str) -> Option<&'v Json>
    ensures { option_map (λ v. view v.now) result ≡ get name.now (view value.now) }
{
    value.get(name)
}

// Puts the value of a field behind the others, where it stands there. Says whether it is one of the field's.
fn put_value_of(
    alloc: Global,
    setup: &Setup,
    fields: &Json,
    field: FieldNo,
    values: &mut Changes,
) -> Result<bool, Memory>
    ensures { IfOk result (λ is. (rest : Option (List Change)) →
        option_map (λ more. values.old ++ more) (with_value (names setup.now) field.0
        (get (field_name setup.now.field field.0) (view fields.now)) rest)
        ≡ (if is then option_map (λ more. values.new ++ more) rest else None)) }
{
    let Some(value) = member(fields, setup.field_name(field)) else {
        return Ok(true);
    };
    let Some(to) = filled_like(alloc, setup, field, value)? else {
        return Ok(false);
    };
    values.push(Change { field, to })?;
    Ok(true)
}

// The values of these fields, by name; a field that isn't there is passed over.
fn values_like(
    alloc: Global,
    setup: &Setup,
    fields: &Json,
    numbers: &[FieldNo],
) -> Result<Option<Changes>, Memory>
    ensures { IfOk result (λ values. values
        ≡ values_like (names setup.now) (view fields.now) (map (λ f. f.0) numbers.now)) }
{
    let mut values = Changes::new(alloc);
    for field in numbers {
        if !put_value_of(alloc, setup, fields, *field, &mut values)? {
            return Ok(None);
        }
    }
    Ok(Some(values))
}

fn values_at(alloc: Global, setup: &Setup, value: &Json) -> Result<Option<Changes>, Memory>
    ensures { IfOk result (λ values. values ≡ values_at (names setup.now) (view value.now)) }
{
    let Some(fields) = member(value, "fields") else {
        return Ok(None);
    };
    let numbers = setup.field_numbers(alloc)?;
    values_like(alloc, setup, fields, numbers.as_slice())
}

#[tactic(auto, unfolding(crate::specs::LookingAtValues::issue_like))]
pub(crate) fn issue_like(
    alloc: Global,
    setup: &Setup,
    no: u64,
    value: &Json,
) -> Result<Option<Part>, Memory>
    ensures { IfOk result (λ part. part
        ≡ issue_like (names setup.now) (part_keys (parts setup.now)) no (view value.now)) }
{
    let Some(no) = number_in(no) else {
        return Ok(None);
    };
    let Some(change) = change_at(value, "change") else {
        return Ok(None);
    };
    let Some(at) = moment_at(value, "at") else {
        return Ok(None);
    };
    let Some(author) = user_at(setup, value, "author") else {
        return Ok(None);
    };
    let Some(key) = key_at(alloc, setup, value)? else {
        return Ok(None);
    };
    let Some(values) = values_at(alloc, setup, value)? else {
        return Ok(None);
    };
    Ok(Some(Part::Issue {
        no: IssueNo(no),
        key,
        change,
        at,
        author,
        values,
    }))
}

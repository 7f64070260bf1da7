// The fields that a list is asked for.
ghost use Rattle.std.specs.Prelude.{◌≡◌, ◌++◌, ◌∷◌, [], Some, map, filter, IfOk, OnOk};
ghost use Rattle.fields.specs.Naming.{field_numbers};
ghost use Rattle.tracker_machine.specs.IssueList.{fields_refusal, names_are_fields, named_fields};
ghost use Rattle.tracker_machine.specs.IssueList.{wanted_fields, is_one_of};
ghost use Rattle.tracker_state.specs.Check.{Checks};

use fields::{FieldNo, Memory, Names, Setup, Text};
use std::alloc::Global;
use tracker_calls::{Refusal, Thing};
use tracker_state::unknown;

/// Those of the tracker's fields that are named, or all where none are, each once.
pub fn wanted_fields(
    alloc: Global,
    setup: &Setup,
    names: &Option<Names>,
) -> Result<Vec<FieldNo>, Refusal>
    ensures check { Checks (fields_refusal setup.now.field names.now) result }
    ensures fields { IfOk result (λ numbers. map (λ f. f.0) numbers.items
        ≡ wanted_fields setup.now.field names.now) }
{
    match names {
        None => Ok(setup.field_numbers(alloc)?),
        Some(names) => fields_among(alloc, setup, names.as_slice()),
    }
}

fn fields_among(alloc: Global, setup: &Setup, names: &[Text]) -> Result<Vec<FieldNo>, Refusal>
    ensures check { Checks (names_are_fields setup.now.field names.now) result }
    ensures fields { IfOk result (λ numbers. map (λ f. f.0) numbers.items
        ≡ wanted_fields setup.now.field (Some names.now)) }
{
    let named = named_fields(alloc, setup, names)?;
    Ok(in_tracker(alloc, setup, &named)?)
}

// The fields of these names, or the refusal of the first that is none.
fn named_fields(alloc: Global, setup: &Setup, names: &[Text]) -> Result<Vec<FieldNo>, Refusal>
    ensures check { Checks (names_are_fields setup.now.field names.now) result }
    ensures fields { IfOk result (λ numbers. map (λ f. f.0) numbers.items
        ≡ named_fields setup.now.field names.now) }
{
    let mut numbers = Vec::new(alloc);
    for name in names {
        let Some(number) = setup.field_named(name.as_str()) else {
            return Err(unknown(alloc, Thing::Field, name.as_str()));
        };
        put(&mut numbers, number)?;
    }
    Ok(numbers)
}

fn put(numbers: &mut Vec<FieldNo>, number: FieldNo) -> Result<(), Memory>
    ensures { OnOk result (numbers.new.items ≡ numbers.old.items ++ number ∷ []) }
{
    numbers.push(number)?;
    Ok(())
}

// Those of the tracker's fields that are among these.
fn in_tracker(alloc: Global, setup: &Setup, named: &[FieldNo]) -> Result<Vec<FieldNo>, Memory>
    ensures { IfOk result (λ numbers. map (λ f. f.0) numbers.items
        ≡ filter (is_one_of (map (λ f. f.0) named.now)) (field_numbers setup.now.field)) }
{
    let all = setup.field_numbers(alloc)?;
    those_among(alloc, &all, named)
}

fn those_among(alloc: Global, all: &[FieldNo], named: &[FieldNo]) -> Result<Vec<FieldNo>, Memory>
    ensures { IfOk result (λ numbers. map (λ f. f.0) numbers.items
        ≡ filter (is_one_of (map (λ f. f.0) named.now)) (map (λ f. f.0) all.now)) }
{
    let mut numbers = Vec::new(alloc);
    for number in all {
        if is_one_of(named, *number) {
            numbers.push(*number)?;
        }
    }
    Ok(numbers)
}

fn is_one_of(named: &[FieldNo], number: FieldNo) -> bool
    ensures { result ≡ is_one_of (map (λ f. f.0) named.now) number.0 }
{
    for one in named {
        if one.0 == number.0 {
            return true;
        }
    }
    false
}

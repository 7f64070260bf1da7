// What a call wants of an issue's fields: each value is read and tested, field by field.
ghost use Rattle.std.specs.Prelude.{◌≡◌, ◌∷◌, ◌++◌, [], option_map, IfOk, OnOk, Some, None, true, map, if◌then◌else◌};
ghost use Rattle.std.specs.Option.{is_some};
ghost use Rattle.field_forms.specs.Known.{value_of, listed_value_of};
ghost use Rattle.fields.specs.SetupParts.{parts, names_in};
ghost use Rattle.workflow.specs.Inputs.{least_with};
ghost use Rattle.tracker_machine.specs.Wanted.{given_for, wanted_or, wanted_by, wanted_given, wanted_in, takes_text, sprint_wanted, sprint_number, is_fault, faults_in, field_at_fault, change_to, changes_to, changes_of};
ghost use Rattle.tracker_machine.specs.Create.{member_wanted, status_wanted, reporter_wanted, create_wants};
ghost use Rattle.wanted_values.specs.Wants.{wants_of};

use crate::names::sprint_number;
use crate::resolved::ResolvedSet;
use change_history::Change;
use fields::{Field, FieldNo, Memory, Setup, SprintNo, Text, UserNo, Value, built_in_fields};
use std::alloc::Global;
use tracker_calls::Given;
use tracker_machine::Wanted;

// The fields of which a create says something beside `set`: type, summary, status and reporter.
const BESIDE: usize = 4;

/// What a create says of fields beside `set`.
#[derive(Clone, Copy)]
pub struct Opening<'a> {
    pub caller: UserNo,
    pub issue_type: &'a str,
    pub summary: &'a str,
}

/// What comes of all fields: the changes, and the first field at fault by its number.
#[derive(Drop)]
pub struct Outcome {
    pub changes: Vec<Change>,
    pub fault: Option<FieldNo>,
}

fn is_given(set: &ResolvedSet<'_>, field: FieldNo) -> bool
    ensures { result ≡ is_some (given_for set.now.setup.field field.0 set.now.set) }
{
    set.given_for(field).is_some()
}

fn wanted_or(value: Option<Value>) -> Wanted
    ensures { result ≡ wanted_or value }
{
    match value {
        Some(value) => Wanted::Value(value),
        None => Wanted::NoValue,
    }
}

fn read(alloc: Global, setup: &Setup, field: FieldNo, text: &str) -> Result<Wanted, Memory>
    ensures { IfOk result (λ wanted. wanted
        ≡ wanted_or (value_of (names_in (parts setup.now)) field.0 text.now)) }
{
    let value = setup.value_of(alloc, field, text)?;
    Ok(wanted_or(value))
}

fn read_list(alloc: Global, setup: &Setup, field: FieldNo, texts: &[Text]) -> Result<Wanted, Memory>
    ensures { IfOk result (λ wanted. wanted
        ≡ wanted_or (listed_value_of (names_in (parts setup.now)) field.0 texts.now)) }
{
    let value = setup.listed_value_of(alloc, field, texts)?;
    Ok(wanted_or(value))
}

// The fields fixVersion, labels and sprint take no text.
fn takes_text(field: FieldNo) -> bool
    ensures { result ≡ takes_text field.0 }
{
    !(field == FieldNo::FIX_VERSION || field == FieldNo::LABELS || field == FieldNo::SPRINT)
}

fn sprint_wanted(given: &Given) -> Wanted
    ensures { result ≡ sprint_wanted (sprint_number given.now) }
{
    match sprint_number(given) {
        Some(number) => Wanted::Value(Value::Sprint(SprintNo(number))),
        None => Wanted::NoValue,
    }
}

fn wanted_by(alloc: Global, setup: &Setup, field: FieldNo, given: &Given) -> Result<Wanted, Memory>
    ensures { IfOk result (λ wanted. wanted
        ≡ wanted_by (names_in (parts setup.now)) field.0 given.now) }
{
    match given {
        Given::Null => Ok(Wanted::Value(Value::Empty)),
        Given::Text(text) => {
            if !takes_text(field) {
                return Ok(Wanted::NoValue);
            }
            read(alloc, setup, field, text.as_str())
        }
        Given::List(texts) => read_list(alloc, setup, field, texts.as_slice()),
        Given::Number(_) => {
            if field == FieldNo::SPRINT {
                return Ok(sprint_wanted(given));
            }
            Ok(Wanted::NoValue)
        }
        Given::Other => Ok(Wanted::NoValue),
    }
}

fn wanted_given(
    alloc: Global,
    setup: &Setup,
    field: FieldNo,
    given: &Given,
) -> Result<Wanted, Memory>
    ensures { IfOk result (λ wanted. wanted
        ≡ wanted_given (names_in (parts setup.now)) field.0 given.now) }
{
    if field == FieldNo::STATUS {
        return Ok(Wanted::NoValue);
    }
    wanted_by(alloc, setup, field, given)
}

fn wanted_in(alloc: Global, set: &ResolvedSet<'_>, field: FieldNo) -> Result<Wanted, Memory>
    ensures { IfOk result (λ wanted. wanted
        ≡ wanted_in (names_in set.now.setup) field.0 set.now.set) }
{
    match set.given_for(field) {
        Some(given) => wanted_given(alloc, set.setup(), field, given),
        None => Ok(Wanted::Nothing),
    }
}

// A field that the call has a member of its own for.
fn member_wanted(
    alloc: Global,
    set: &ResolvedSet<'_>,
    field: FieldNo,
    text: &str,
) -> Result<Wanted, Memory>
    ensures { IfOk result (λ wanted. wanted
        ≡ member_wanted (names_in set.now.setup) field.0 set.now.set text.now) }
{
    if is_given(set, field) {
        return Ok(Wanted::NoValue);
    }
    read(alloc, set.setup(), field, text)
}

fn status_wanted(set: &ResolvedSet<'_>) -> Wanted
    ensures { result ≡ status_wanted set.now.setup set.now.set }
{
    if is_given(set, FieldNo::STATUS) {
        return Wanted::NoValue;
    }
    Wanted::Value(Value::Choice(set.setup().first_status))
}

fn reporter_wanted(alloc: Global, set: &ResolvedSet<'_>, caller: UserNo) -> Result<Wanted, Memory>
    ensures { IfOk result (λ wanted. wanted ≡ reporter_wanted set.now.setup caller.0 set.now.set) }
{
    match set.given_for(FieldNo::REPORTER) {
        Some(given) => wanted_given(alloc, set.setup(), FieldNo::REPORTER, given),
        None => Ok(Wanted::Value(Value::User(caller))),
    }
}

fn wanted_at_opening(
    alloc: Global,
    set: &ResolvedSet<'_>,
    opening: Opening<'_>,
    field: FieldNo,
) -> Result<Wanted, Memory>
    ensures { IfOk result (λ wanted. wanted
        ≡ create_wants set.now.setup opening.entry.caller.0 opening.entry.issue_type.now
        opening.entry.summary.now set.now.set field.0) }
{
    match field {
        FieldNo::TYPE => member_wanted(alloc, set, field, opening.issue_type),
        FieldNo::SUMMARY => member_wanted(alloc, set, field, opening.summary),
        FieldNo::STATUS => Ok(status_wanted(set)),
        FieldNo::REPORTER => reporter_wanted(alloc, set, opening.caller),
        _ => wanted_in(alloc, set, field),
    }
}

fn wanted(
    alloc: Global,
    set: &ResolvedSet<'_>,
    opening: Option<Opening<'_>>,
    field: FieldNo,
) -> Result<Wanted, Memory>
    ensures { IfOk result (λ wanted. wanted
        ≡ wants_of set.now.setup set.now.set opening.entry field.0) }
{
    match opening {
        Some(opening) => wanted_at_opening(alloc, set, opening, field),
        None => wanted_in(alloc, set, field),
    }
}

fn is_fault(setup: &Setup, field: FieldNo, wanted: &Wanted) -> bool
    ensures { result ≡ is_fault (names_in (parts setup.now)) field.0 wanted.now }
{
    match wanted {
        Wanted::Nothing => false,
        Wanted::NoValue => true,
        Wanted::Value(value) => !setup.fits(field, value),
    }
}

// The lesser of a field at fault and one that was found before.
fn lesser(fault: Option<FieldNo>, field: FieldNo) -> FieldNo
    ensures { Some result.0 ≡ least_with (option_map (λ f. f.0) fault) (field.0 ∷ []) }
{
    match fault {
        Some(other) => FieldNo(other.0.min(field.0)),
        None => field,
    }
}

// The first field at fault, after one more field.
fn fault_after(
    setup: &Setup,
    fault: Option<FieldNo>,
    field: FieldNo,
    wanted: &Wanted,
) -> Option<FieldNo>
    ensures { option_map (λ f. f.0) result
        ≡ least_with (option_map (λ f. f.0) fault)
        (if is_fault (names_in (parts setup.now)) field.0 wanted.now then field.0 ∷ [] else []) }
{
    if is_fault(setup, field, wanted) {
        return Some(lesser(fault, field));
    }
    fault
}

// Puts the change to what is wanted, if a value is, behind the others.
fn put_change(changes: &mut Vec<Change>, field: FieldNo, wanted: Wanted) -> Result<(), Memory>
    ensures { OnOk result (changes.new.items ≡ changes.old.items ++ change_to field.0 wanted) }
{
    match wanted {
        Wanted::Value(value) => Ok(changes.push(Change { field, to: value })?),
        Wanted::Nothing | Wanted::NoValue => Ok(()),
    }
}

// Whether a create leaves the field alone.
fn is_left_at_opening(set: &ResolvedSet<'_>, opening: Opening<'_>, field: FieldNo) -> bool
    ensures { result ≡ true → create_wants set.now.setup opening.entry.caller.0
        opening.entry.issue_type.now opening.entry.summary.now set.now.set field.0
        ≡ Wanted.Nothing }
{
    match field {
        FieldNo::TYPE | FieldNo::SUMMARY | FieldNo::STATUS | FieldNo::REPORTER => false,
        _ => !is_given(set, field),
    }
}

// Whether the call leaves the field alone, as most calls do most fields.
fn is_left(set: &ResolvedSet<'_>, opening: Option<Opening<'_>>, field: FieldNo) -> bool
    ensures { result ≡ true
        → wants_of set.now.setup set.now.set opening.entry field.0 ≡ Wanted.Nothing }
{
    match opening {
        Some(opening) => is_left_at_opening(set, opening, field),
        None => !is_given(set, field),
    }
}

// Puts what comes of one more field behind what came of others.
fn put_outcome(
    alloc: Global,
    set: &ResolvedSet<'_>,
    opening: Option<Opening<'_>>,
    field: FieldNo,
    outcome: &mut Outcome,
) -> Result<(), Memory>
    ensures fault { OnOk result (option_map (λ f. f.0) outcome.new.fault
        ≡ least_with (option_map (λ f. f.0) outcome.old.fault)
        (faults_in (names_in set.now.setup)
        (wants_of set.now.setup set.now.set opening.entry) (field.0 ∷ []))) }
    ensures changes { OnOk result (outcome.new.changes.items ≡ outcome.old.changes.items
        ++ change_to field.0 (wants_of set.now.setup set.now.set opening.entry field.0)) }
{
    if is_left(set, opening, field) {
        return Ok(());
    }
    put_wanted(alloc, set, opening, field, outcome)
}

// The same of a field that the call may well say something of. Those that are left alone so cost no more than the look.
#[inline(never)]
fn put_wanted(
    alloc: Global,
    set: &ResolvedSet<'_>,
    opening: Option<Opening<'_>>,
    field: FieldNo,
    outcome: &mut Outcome,
) -> Result<(), Memory>
    ensures fault { OnOk result (option_map (λ f. f.0) outcome.new.fault
        ≡ least_with (option_map (λ f. f.0) outcome.old.fault)
        (faults_in (names_in set.now.setup)
        (wants_of set.now.setup set.now.set opening.entry) (field.0 ∷ []))) }
    ensures changes { OnOk result (outcome.new.changes.items ≡ outcome.old.changes.items
        ++ change_to field.0 (wants_of set.now.setup set.now.set opening.entry field.0)) }
{
    let wanted = wanted(alloc, set, opening, field)?;
    outcome.fault = fault_after(set.setup(), outcome.fault, field, &wanted);
    put_change(&mut outcome.changes, field, wanted)
}

// The same of some of the fields that every tracker has.
fn put_outcomes(
    alloc: Global,
    set: &ResolvedSet<'_>,
    opening: Option<Opening<'_>>,
    numbers: &[FieldNo],
    outcome: &mut Outcome,
) -> Result<(), Memory>
    ensures fault { OnOk result (option_map (λ f. f.0) outcome.new.fault
        ≡ least_with (option_map (λ f. f.0) outcome.old.fault)
        (faults_in (names_in set.now.setup)
        (wants_of set.now.setup set.now.set opening.entry) (map (λ f. f.0) numbers.now))) }
    ensures changes { OnOk result (outcome.new.changes.items ≡ outcome.old.changes.items
        ++ changes_to (wants_of set.now.setup set.now.set opening.entry)
        (map (λ f. f.0) numbers.now)) }
{
    for field in numbers {
        put_outcome(alloc, set, opening, *field, outcome)?;
    }
    Ok(())
}

// The same of a setup's own fields.
fn put_own_outcomes(
    alloc: Global,
    set: &ResolvedSet<'_>,
    opening: Option<Opening<'_>>,
    fields: &[Field],
    outcome: &mut Outcome,
) -> Result<(), Memory>
    ensures fault { OnOk result (option_map (λ f. f.0) outcome.new.fault
        ≡ least_with (option_map (λ f. f.0) outcome.old.fault)
        (faults_in (names_in set.now.setup)
        (wants_of set.now.setup set.now.set opening.entry) (map (λ f. f.number.0) fields.now))) }
    ensures changes { OnOk result (outcome.new.changes.items ≡ outcome.old.changes.items
        ++ changes_to (wants_of set.now.setup set.now.set opening.entry)
        (map (λ f. f.number.0) fields.now)) }
{
    for field in fields {
        put_outcome(alloc, set, opening, field.number, outcome)?;
    }
    Ok(())
}

// Nothing has come of any field yet, and there is room for the changes that most calls make.
fn no_outcome(alloc: Global, set: &ResolvedSet<'_>) -> Result<Outcome, Memory>
    ensures fault { IfOk result (λ outcome. outcome.fault ≡ None) }
    ensures changes { IfOk result (λ outcome. outcome.changes.items ≡ []) }
{
    let room = set.names().len().saturating_add(BESIDE);
    Ok(Outcome {
        changes: Vec::with_capacity(alloc, room)?,
        fault: None,
    })
}

/// The changes of all fields of which values are wanted, and the first field at fault, if any is: by what `set` gives, and by
/// what stands beside it in a create.
pub fn outcome_of_all(
    alloc: Global,
    set: &ResolvedSet<'_>,
    opening: Option<Opening<'_>>,
) -> Result<Outcome, Memory>
    ensures fault { IfOk result (λ outcome. option_map (λ f. f.0) outcome.fault
        ≡ field_at_fault (names_in set.now.setup)
        (wants_of set.now.setup set.now.set opening.entry)) }
    ensures changes { IfOk result (λ outcome. outcome.changes.items
        ≡ changes_of (names_in set.now.setup) (wants_of set.now.setup set.now.set opening.entry)) }
{
    let mut outcome = no_outcome(alloc, set)?;
    put_outcomes(alloc, set, opening, built_in_fields(), &mut outcome)?;
    put_own_outcomes(
        alloc,
        set,
        opening,
        set.setup().field.as_slice(),
        &mut outcome,
    )?;
    Ok(outcome)
}

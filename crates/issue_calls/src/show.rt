// The call `show`: an issue's present values.
ghost use Rattle.std.specs.Prelude.{◌≡◌, ◌++◌, [], IfOk, OnOk, Some, map};
ghost use Rattle.fields.specs.SetupParts.{parts, names_in};
ghost use Rattle.change_history.specs.History.{present, updated};
ghost use Rattle.fields.specs.Naming.{field_name};
ghost use Rattle.tracker_machine.specs.Known.{history_named};
ghost use Rattle.tracker_state.specs.Plan.{IsPrepared};
ghost use Rattle.tracker_machine.specs.Show.{show_refusal, show_meaning, shown_issue, shown_fields, shown_value, with_shown};
ghost use Rattle.tracker_state.specs.Check.{Checks};
ghost use Rattle.tracker_machine.specs.Tracker.{Holds, IsSettled};

use crate::told::shown_value;
use change_history::{Issue, Small};
use fields::{Field, FieldNo, Memory, Permission, Setup, UserNo, built_in_fields};
use std::alloc::Global;
use tracker_calls::{Answer, Refusal, Shown, ShownField, ShownFields, ToldText};
use tracker_state::{Prepared, State, check_access, known_issue};

/// Tells the issue's present values.
pub fn show(alloc: Global, state: &State, caller: UserNo, issue: &str) -> Result<Prepared, Refusal>
    ensures { IsPrepared (show_meaning state.now.machine caller.0 issue.now) state.now result }
{
    let issue = check_show(alloc, state, caller, issue)?;
    match issue_answer(alloc, state.setup(), issue) {
        Ok(answer) => Ok(Prepared::Tell(answer)),
        Err(_) => Err(Refusal::Memory),
    }
}

/// The issue of that key, which the caller may browse.
pub fn check_show<'a>(
    alloc: Global,
    state: &'a State,
    caller: UserNo,
    issue: &str,
) -> Result<&'a Issue, Refusal>
    ensures check { Checks (show_refusal state.now.machine caller.0 issue.now) result }
    ensures named { IfOk result (λ i.
        history_named state.now.machine issue.now ≡ Some i.now.history) }
    ensures settled { IfOk result (λ i. IsSettled (names_in state.now.machine.setup)
        state.now.machine.moment state.now.machine.change i.now.history) }
{
    let found = known_issue(alloc, state, issue)?;
    check_access(alloc, state, caller, Permission::Browse, found)?;
    Ok(found.issue)
}

fn issue_answer(alloc: Global, setup: &Setup, issue: &Issue) -> Result<Answer, Memory>
    requires { (f : FieldNo) → Holds (names_in (parts setup.now)) f (present issue.now.history f) }
    ensures { IfOk result (λ answer. answer ≡ Answer.Show issue.now.history.at
        (shown_issue (names_in (parts setup.now)) issue.now.history) issue.now.history.key
        (updated issue.now.history)) }
{
    let fields = shown_issue(alloc, setup, issue)?;
    let key = ToldText::copy_of(alloc, issue.key().as_str())?;
    Ok(Answer::Show {
        created: issue.created(),
        fields,
        issue: key,
        updated: issue.updated(),
    })
}

// All fields that aren't empty.
fn shown_issue(alloc: Global, setup: &Setup, issue: &Issue) -> Result<ShownFields, Memory>
    requires { (f : FieldNo) → Holds (names_in (parts setup.now)) f (present issue.now.history f) }
    ensures { IfOk result (λ fields. fields
        ≡ shown_issue (names_in (parts setup.now)) issue.now.history) }
{
    let mut fields = ShownFields::new(alloc);
    put_fields(alloc, setup, issue, built_in_fields(), &mut fields)?;
    put_own_fields(alloc, setup, issue, setup.field.as_slice(), &mut fields)?;
    Ok(fields)
}

/// Puts those of the fields of these numbers that aren't empty behind others.
pub fn put_fields(
    alloc: Global,
    setup: &Setup,
    issue: &Issue,
    numbers: &[FieldNo],
    fields: &mut ShownFields,
) -> Result<(), Memory>
    requires { (f : FieldNo) → Holds (names_in (parts setup.now)) f (present issue.now.history f) }
    ensures { OnOk result (fields.new ≡ fields.old
        ++ shown_fields (names_in (parts setup.now)) issue.now.history
        (map (λ f. f.0) numbers.now)) }
{
    for field in numbers {
        put_field(alloc, setup, issue, *field, fields)?;
    }
    Ok(())
}

// The same of a setup's own fields.
fn put_own_fields(
    alloc: Global,
    setup: &Setup,
    issue: &Issue,
    own: &[Field],
    fields: &mut ShownFields,
) -> Result<(), Memory>
    requires { (f : FieldNo) → Holds (names_in (parts setup.now)) f (present issue.now.history f) }
    ensures { OnOk result (fields.new ≡ fields.old
        ++ shown_fields (names_in (parts setup.now)) issue.now.history
        (map (λ f. f.number.0) own.now)) }
{
    for field in own {
        put_field(alloc, setup, issue, field.number, fields)?;
    }
    Ok(())
}

// Puts the field, unless it is empty, behind the others.
fn put_field(
    alloc: Global,
    setup: &Setup,
    issue: &Issue,
    field: FieldNo,
    fields: &mut ShownFields,
) -> Result<(), Memory>
    requires { Holds (names_in (parts setup.now)) field (present issue.now.history field) }
    ensures { OnOk result (fields.new ≡ fields.old
        ++ with_shown (field_name setup.now.field field.0)
        (shown_value (names_in (parts setup.now)) field.0 (present issue.now.history field)) []) }
{
    let Some(value) = shown_present(alloc, setup, issue, field)? else {
        return Ok(());
    };
    let name = ToldText::copy_of(alloc, setup.field_name(field))?;
    fields.push(ShownField { name, value })
}

// The field's present value as it is told; nothing where it is empty. One that takes no memory is looked for in the issue alone.
fn shown_present(
    alloc: Global,
    setup: &Setup,
    issue: &Issue,
    field: FieldNo,
) -> Result<Option<Shown>, Memory>
    requires { Holds (names_in (parts setup.now)) field (present issue.now.history field) }
    ensures { IfOk result (λ o. o
        ≡ shown_value (names_in (parts setup.now)) field.0 (present issue.now.history field)) }
{
    let small = issue.small(field);
    if matches!(small, Small::Empty) {
        return Ok(None);
    }
    match small.value() {
        Some(value) => shown_value(alloc, setup, field, &value),
        None => shown_value(alloc, setup, field, issue.value(field)),
    }
}

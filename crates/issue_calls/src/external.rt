// The issue that has the external id of a create already: whether it was created so, and what is told.
ghost use Rattle.std.specs.Prelude.{◌≡◌, IfOk, Some, true};
ghost use Rattle.std.specs.Str.{bytes_eq};
ghost use Rattle.field_values.specs.declared.value.Value.{Value};
ghost use Rattle.field_values.specs.declared.numbers.TheConstants.FieldNo as number;
ghost use Rattle.fields.specs.SetupParts.{parts, names_in};
ghost use Rattle.change_history.specs.History.{opening_value};
ghost use Rattle.change_history.specs.Key.{project_of};
ghost use Rattle.workflow.specs.Same.{same_value};
ghost use Rattle.tracker_machine.specs.Create.{called_before, is_created_as, is_value_of};
ghost use Rattle.tracker_machine.specs.Meaning.Meaning.{Tells};
ghost use Rattle.tracker_state.specs.Check.{IsRefusal};
ghost use Rattle.issue_calls.specs.Create.{IsTold, key_of_project};

use change_history::{Issue, project_of};
use fields::{FieldNo, Memory, ProjectNo, Setup, Text, Value};
use std::alloc::Global;
use tracker_calls::{Answer, Cause, Refusal, ToldText};
use tracker_state::State;
use wanted_values::Opening;
use workflow::is_same;

/// What a create tells where this issue has its external id. It is refused where the issue was created as another one.
pub fn told_before(
    alloc: Global,
    state: &State,
    issue: &Issue,
    project: ProjectNo,
    opening: Opening<'_>,
    external: &str,
) -> Result<Answer, Refusal>
    ensures { IsTold (called_before
        (is_created_as state.now.machine (key_of_project state.now.machine project)
        opening.entry.issue_type.now opening.entry.summary.now issue.now.history)
        external.now issue.now.history) result }
{
    if is_created_as(alloc, state, issue, project, opening)? {
        return told(alloc, issue);
    }
    Err(another(alloc, issue, external))
}

// The issue is told as the one that the call asks for.
fn told(alloc: Global, issue: &Issue) -> Result<Answer, Refusal>
    ensures { IsTold (Tells
        (Answer.Create true issue.now.history.change issue.now.history.key)) result }
{
    let key = ToldText::copy_of(alloc, issue.key().as_str())?;
    Ok(Answer::Create {
        already: true,
        change: issue.change(),
        issue: key,
    })
}

// The refusal of a create whose external id is that of another issue.
fn another(alloc: Global, issue: &Issue, external: &str) -> Refusal
    ensures { IsRefusal (Some (Cause.ExternalIs external.now issue.now.history.key)) result }
{
    let Ok(external) = Text::copy_of(alloc, external) else {
        return Refusal::Memory;
    };
    match Text::copy_of(alloc, issue.key().as_str()) {
        Ok(kept) => Refusal::Cause(Cause::ExternalIs { external, kept }),
        Err(_) => Refusal::Memory,
    }
}

// Whether the issue was created in the project, with the type and the summary of the call.
fn is_created_as(
    alloc: Global,
    state: &State,
    issue: &Issue,
    project: ProjectNo,
    opening: Opening<'_>,
) -> Result<bool, Memory>
    ensures { IfOk result (λ same. same
        ≡ is_created_as state.now.machine (key_of_project state.now.machine project)
        opening.entry.issue_type.now opening.entry.summary.now issue.now.history) }
{
    let has_type = has_type(alloc, state.setup(), issue, opening.issue_type)?;
    let in_project = is_of(issue, state.project_key(project));
    Ok(in_project && (has_type && has_summary(issue, opening.summary)))
}

// Whether the issue is of the project of that key.
fn is_of(issue: &Issue, project: &str) -> bool
    ensures { result ≡ bytes_eq (project_of issue.now.history.key) project.now }
{
    project_of(issue.key().as_str()) == project
}

// Whether the issue was created with the type of that name.
fn has_type(alloc: Global, setup: &Setup, issue: &Issue, issue_type: &str) -> Result<bool, Memory>
    ensures { IfOk result (λ same. same
        ≡ is_value_of (names_in (parts setup.now)) number.TYPE.0 issue_type.now
        (opening_value issue.now.history.opening number.TYPE)) }
{
    match setup.value_of(alloc, FieldNo::TYPE, issue_type)? {
        Some(value) => Ok(is_same(&value, issue.opening(FieldNo::TYPE))),
        None => Ok(false),
    }
}

// Whether the issue was created with that summary.
fn has_summary(issue: &Issue, summary: &str) -> bool
    ensures { result ≡ same_value (Value.Text summary.now)
        (opening_value issue.now.history.opening number.SUMMARY) }
{
    match issue.opening(FieldNo::SUMMARY) {
        Value::Text(text) => text.as_str() == summary,
        _ => false,
    }
}

ghost use Rattle.fields.specs.SetupParts.{parts};
ghost use Rattle.std.specs.Prelude.{◌≡◌, ◌<◌, ◌∷◌, ◌++◌, [], length, slice_get, IfOk, IfSome};
ghost use Rattle.workflow.specs.Plan.{first_fault, all_changes, planned, Answers};

use crate::conditions::failing_condition;
use crate::fault::PlanFault;
use crate::inputs::refused_input;
use crate::net::net_changes;
use crate::post_functions::put_post;
use crate::validators::failing_validator;
use change_history::{Change, Issue};
use fields::{FieldNo, Memory, Moment, Setup, Transition, UserNo, Value};
use std::alloc::Global;

/// All that a transition changes: the inputs, then the status, then what the post functions set.
#[tactic(auto, unfolding(crate::specs::Plan::all_changes))]
fn all_changes(
    alloc: Global,
    setup: &Setup,
    issue: &Issue,
    caller: UserNo,
    transition: &Transition,
    inputs: Vec<Change>,
) -> Result<Vec<Change>, Memory>
    ensures { IfOk result (λ changes. changes.items
        ≡ all_changes (parts setup.now) issue.now.history caller transition.now inputs.items) }
{
    let mut changes = inputs;
    changes.push(Change {
        field: FieldNo::STATUS,
        to: Value::Choice(transition.to),
    })?;
    put_post(
        alloc,
        setup,
        issue,
        caller,
        &mut changes,
        transition.post.as_slice(),
    )?;
    Ok(changes)
}

/// The changes of an issue that a transition makes of its present values, by rising field number and each to another
/// value: the inputs, the new status and what the post functions set, of which later ones overrule earlier ones. The
/// first check that fails is told: of the conditions, of the inputs in the order of their fields' numbers, of the
/// validators, which see the issue after the inputs. `transition` is its place in the setup's list. The inputs are moved.
pub fn plan(
    alloc: Global,
    setup: &Setup,
    issue: &Issue,
    caller: UserNo,
    transition: usize,
    inputs: Vec<Change>,
    at: Moment,
) -> Result<Vec<Change>, PlanFault>
    requires { transition < length setup.now.transition }
    ensures { IfSome (slice_get setup.now.transition transition) (λ t.
        Answers (first_fault (parts setup.now) issue.now.history caller t inputs.items at)
        (planned (parts setup.now) issue.now.history caller t inputs.items) result) }
{
    plan_of(
        alloc,
        setup,
        issue,
        caller,
        &setup.transition.as_slice()[transition],
        inputs,
        at,
    )
}

/// The first check that fails.
#[tactic(auto, unfolding(crate::specs::Plan::first_fault))]
fn first_fault(
    setup: &Setup,
    issue: &Issue,
    caller: UserNo,
    transition: &Transition,
    inputs: &[Change],
    at: Moment,
) -> Option<PlanFault>
    ensures { result
        ≡ first_fault (parts setup.now) issue.now.history caller transition.now inputs.now at }
{
    if let Some(place) = failing_condition(setup, issue, caller, transition) {
        return Some(PlanFault::Condition(place));
    }
    if let Some(field) = refused_input(setup, inputs) {
        return Some(PlanFault::Value(field));
    }
    if let Some(place) = failing_validator(setup, issue, caller, transition, inputs, at) {
        return Some(PlanFault::Validator(place));
    }
    None
}

#[tactic(auto, unfolding(crate::specs::Plan::planned))]
fn plan_of(
    alloc: Global,
    setup: &Setup,
    issue: &Issue,
    caller: UserNo,
    transition: &Transition,
    inputs: Vec<Change>,
    at: Moment,
) -> Result<Vec<Change>, PlanFault>
    ensures { Answers
        (first_fault (parts setup.now) issue.now.history caller transition.now inputs.items at)
        (planned (parts setup.now) issue.now.history caller transition.now inputs.items) result }
{
    if let Some(fault) = first_fault(setup, issue, caller, transition, inputs.as_slice(), at) {
        return Err(fault);
    }
    Ok(planned(alloc, setup, issue, caller, transition, inputs)?)
}

/// The changes that the transition makes of the issue's present values, whatever its checks say: by rising field number,
/// and each to another value. The inputs are moved.
#[tactic(auto, unfolding(crate::specs::Plan::planned))]
pub fn planned(
    alloc: Global,
    setup: &Setup,
    issue: &Issue,
    caller: UserNo,
    transition: &Transition,
    inputs: Vec<Change>,
) -> Result<Vec<Change>, Memory>
    ensures { IfOk result (λ net. net.items
        ≡ planned (parts setup.now) issue.now.history caller transition.now inputs.items) }
{
    let changes = all_changes(alloc, setup, issue, caller, transition, inputs)?;
    Ok(net_changes(issue, changes))
}

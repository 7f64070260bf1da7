// What is asked of the issue after the inputs.
ghost use Rattle.fields.specs.SetupParts.{parts};
ghost use Rattle.std.specs.Prelude.{◌≡◌, ◌<◌, length, not, position, IfSome};
ghost use Rattle.change_history.specs.History.{present};
ghost use Rattle.workflow.specs.Validators.{is_open, validator_holds, failing_validator};

use crate::net::value_after;
use crate::project::project_number;
use crate::same::{is_empty, is_same};
use change_history::{Change, Issue};
use fields::{Day, FieldNo, Moment, Setup, Transition, UserNo, Validator, Value};

/// Whether the value is empty, or a date that isn't before the day.
fn is_open(day: Day, value: &Value) -> bool
    ensures { result ≡ is_open day.0 value.now }
{
    match value {
        Value::Empty => true,
        Value::Date(no) => day.0 <= no.0,
        _ => false,
    }
}

fn validator_holds(
    setup: &Setup,
    issue: &Issue,
    caller: UserNo,
    inputs: &[Change],
    at: Moment,
    validator: Validator,
) -> bool
    ensures { result
        ≡ validator_holds (parts setup.now) issue.now.history caller inputs.now at validator }
{
    match validator {
        Validator::Required(field) => !is_empty(value_after(issue, inputs, field)),
        Validator::Changed(field) => {
            !is_same(value_after(issue, inputs, field), issue.value(field))
        }
        Validator::Due => is_open(setup.day_of(at), value_after(issue, inputs, FieldNo::DUE)),
        Validator::Permission(permission) => {
            setup.may(caller, permission, project_number(setup, issue))
        }
    }
}

fn first_failing(
    setup: &Setup,
    issue: &Issue,
    caller: UserNo,
    inputs: &[Change],
    at: Moment,
    validators: &[Validator],
) -> Option<usize>
    ensures place { result ≡ position (λ validator. not
        (validator_holds (parts setup.now) issue.now.history caller inputs.now at validator))
        validators.now }
    ensures within { IfSome result (λ place. place < length validators.now) }
{
    validators.iter().position(|validator| !validator_holds(
        setup, issue, caller, inputs, at, *validator,
    ))
}

/// The first validator that fails, counted from 1.
#[tactic(auto, unfolding(crate::specs::Validators::failing_validator))]
pub fn failing_validator(
    setup: &Setup,
    issue: &Issue,
    caller: UserNo,
    transition: &Transition,
    inputs: &[Change],
    at: Moment,
) -> Option<usize>
    ensures { result ≡ failing_validator (parts setup.now) issue.now.history caller transition.now
        inputs.now at }
{
    let validators = transition.validators.as_slice();
    match first_failing(setup, issue, caller, inputs, at, validators) {
        Some(place) => Some(place + 1),
        None => None,
    }
}

// The call `make_sprint`: a new sprint, which is future.
ghost use Rattle.std.specs.Prelude.{◌≡◌, true};
ghost use Rattle.field_forms.specs.Names.{is_title};
ghost use Rattle.tracker_machine.specs.Sprints.{next_sprint, sprints_refusal, make_sprint_refusal, make_sprint_meaning};
ghost use Rattle.tracker_state.specs.Check.{Checks};
ghost use Rattle.tracker_state.specs.Plan.{IsPrepared};

use crate::rows::sprint_ops;
use fields::{Permission, SprintNo, Text, UserNo};
use sprints::SprintState;
use std::alloc::Global;
use tracker_calls::{Answer, Cause, Limit, Refusal};
use tracker_limits::MOST_SPRINTS;
use tracker_state::{Plan, Prepared, State, check_permission};

/// Prepares a new sprint of that name, or says why not.
pub fn make_sprint(
    alloc: Global,
    state: &mut State,
    caller: UserNo,
    name: &str,
) -> Result<Prepared, Refusal>
    requires title { is_title name.now ≡ true }
    ensures same { state.new.machine ≡ state.old.machine }
    ensures watched { state.new.watched ≡ state.old.watched }
    ensures prepared { IsPrepared (make_sprint_meaning state.old.machine caller.0 name.now)
        state.new result }
{
    check_make(alloc, state, caller)?;
    let sprint = next_sprint(state);
    let name = Text::copy_of(alloc, name)?;
    let rows = sprint_ops(alloc, sprint, name.as_str(), &SprintState::Future)?;
    state.reserve_sprint()?;
    Ok(Prepared::Make {
        plan: Plan::Sprint(name),
        answer: Answer::MakeSprint { sprint },
        rows,
    })
}

// The caller may make sprints, for which there is room.
fn check_make(alloc: Global, state: &State, caller: UserNo) -> Result<(), Refusal>
    ensures { Checks (make_sprint_refusal state.now.machine caller.0) result }
{
    check_permission(alloc, state, caller, Permission::Plan, None)?;
    check_sprints(state)
}

// There are fewer sprints than there may be.
fn check_sprints(state: &State) -> Result<(), Refusal>
    ensures { Checks (sprints_refusal state.now.machine) result }
{
    if state.work().count() < MOST_SPRINTS {
        return Ok(());
    }
    Err(Refusal::Cause(Cause::Limit {
        limit: Limit::Sprints,
    }))
}

// The number behind those of all sprints.
fn next_sprint(state: &State) -> SprintNo
    ensures { result ≡ next_sprint state.now.machine }
{
    SprintNo(state.work().count() + 1)
}

// The calls `start_sprint` and `close_sprint`: a sprint that comes to its next state.
ghost use Rattle.std.specs.Prelude.{◌≡◌, IfOk, IfSome, Some};
ghost use Rattle.sprints.specs.Sprint.{name_of, state_of};
ghost use Rattle.tracker_machine.specs.Effect.{IsAllowed};
ghost use Rattle.tracker_machine.specs.Effect.Effect.{NewState};
ghost use Rattle.tracker_machine.specs.Kept.{ops_of};
ghost use Rattle.tracker_machine.specs.Sprints.{told_phase, plan_sprint_refusal, start_sprint_meaning, close_sprint_meaning, turned};
ghost use Rattle.tracker_machine.specs.SprintRules.{MayTurn};
ghost use Rattle.tracker_state.specs.Check.{Checks};
ghost use Rattle.tracker_state.specs.Plan.{IsPrepared};

use crate::check::{FoundSprint, known_sprint};
use crate::rows::sprint_ops;
use fields::{Memory, Permission, SprintNo, UserNo};
use sprints::SprintState;
use std::alloc::Global;
use tracker_calls::{Answer, Cause, Refusal, SprintPhase};
use tracker_keeper::RowOp;
use tracker_state::{Plan, Prepared, State, check_permission};

/// Prepares that the sprint starts now, or says why not.
pub fn start_sprint(
    alloc: Global,
    state: &State,
    caller: UserNo,
    sprint: SprintNo,
) -> Result<Prepared, Refusal>
    ensures { IsPrepared (start_sprint_meaning state.now.machine caller.0 sprint) state.now result }
{
    let found = sprint_to_plan(alloc, state, caller, sprint)?;
    let next = found.state.after_start(state.moment(), state.change());
    turn(alloc, state, sprint, found.name, found.state, next)
}

/// Prepares that the sprint is closed now, or says why not.
pub fn close_sprint(
    alloc: Global,
    state: &State,
    caller: UserNo,
    sprint: SprintNo,
) -> Result<Prepared, Refusal>
    ensures { IsPrepared (close_sprint_meaning state.now.machine caller.0 sprint) state.now result }
{
    let found = sprint_to_plan(alloc, state, caller, sprint)?;
    let next = found.state.after_close(state.moment(), state.change());
    turn(alloc, state, sprint, found.name, found.state, next)
}

/// The sprint of that number, where the caller may plan.
pub fn sprint_to_plan<'a>(
    alloc: Global,
    state: &'a State,
    caller: UserNo,
    sprint: SprintNo,
) -> Result<FoundSprint<'a>, Refusal>
    ensures kept { IfOk result (λ found.
        state_of state.now.machine.sprints sprint.0 ≡ Some found.state) }
    ensures name { IfOk result (λ found.
        name_of state.now.machine.sprints sprint.0 ≡ Some found.name.now) }
    ensures check { Checks (plan_sprint_refusal state.now.machine caller.0 sprint) result }
{
    let found = known_sprint(alloc, state, sprint)?;
    check_permission(alloc, state, caller, Permission::Plan, None)?;
    Ok(found)
}

/// How far a sprint of this state is, as an answer tells it.
pub fn phase_of(state: &SprintState) -> SprintPhase
    ensures { result ≡ told_phase state.now }
{
    match state {
        SprintState::Future => SprintPhase::Future,
        SprintState::Active { .. } => SprintPhase::Active,
        SprintState::Closed { .. } => SprintPhase::Closed,
    }
}

// The sprint of this name and state comes to its next state, where it has one.
fn turn(
    alloc: Global,
    state: &State,
    sprint: SprintNo,
    name: &str,
    kept: SprintState,
    next: Option<SprintState>,
) -> Result<Prepared, Refusal>
    requires named { name_of state.now.machine.sprints sprint.0 ≡ Some name.now }
    requires may { IfSome next (MayTurn state.now.machine.moment state.now.machine.change
        state.now.machine.sprints sprint) }
    ensures { IsPrepared (turned sprint kept next) state.now result }
{
    match next {
        Some(next) => turn_to(alloc, state, sprint, name, next),
        None => Err(Refusal::Cause(Cause::SprintIs {
            state: phase_of(&kept),
        })),
    }
}

// The sprint of this name comes to this state.
#[tactic(auto, unfolding(tracker_machine::specs::Effect::IsAllowed))]
fn turn_to(
    alloc: Global,
    state: &State,
    sprint: SprintNo,
    name: &str,
    next: SprintState,
) -> Result<Prepared, Refusal>
    requires named { name_of state.now.machine.sprints sprint.0 ≡ Some name.now }
    requires may { MayTurn state.now.machine.moment state.now.machine.change
        state.now.machine.sprints sprint next }
    ensures { (kept : SprintState) → IsPrepared (turned sprint kept (Some next)) state.now result }
{
    let answer = Answer::SprintPhase {
        sprint,
        state: phase_of(&next),
    };
    let rows = turn_ops(alloc, state, sprint, name, &next)?;
    Ok(Prepared::Make {
        plan: Plan::State {
            sprint,
            state: next,
        },
        answer,
        rows,
    })
}

// The operation that keeps a sprint of this name in its next state.
#[tactic(auto, using(crate::proofs::Ops::state_ops_are))]
fn turn_ops(
    alloc: Global,
    state: &State,
    sprint: SprintNo,
    name: &str,
    next: &SprintState,
) -> Result<Vec<RowOp>, Memory>
    requires { name_of state.now.machine.sprints sprint.0 ≡ Some name.now }
    ensures { IfOk result (λ ops. ops.items ≡ ops_of (NewState sprint next.now) state.now.machine) }
{
    let _ = state;
    sprint_ops(alloc, sprint, name, next)
}

// The checks of sprints and of groups, which may refuse a call.
ghost use Rattle.std.specs.Prelude.{◌≡◌, ◌≤◌, ◌-◌, IfOk, IfSome, Some, length, option_map};
ghost use Rattle.field_forms.specs.Names.{place_named};
ghost use Rattle.tracker_machine.specs.Checks.{unless_known};
ghost use Rattle.tracker_machine.specs.Members.{group_names};
ghost use Rattle.tracker_machine.specs.Sprints.{unless_sprint};
ghost use Rattle.sprints.specs.Sprint.{name_of, state_of};
ghost use Rattle.tracker_state.specs.Check.{Checks};

use fields::{GroupNo, SprintNo};
use sprints::SprintState;
use std::alloc::Global;
use tracker_calls::{Cause, Refusal, Thing};
use tracker_state::{State, unknown, unnumbered};

/// A sprint that was found: its state, and its name, lent.
#[derive(Clone, Copy)]
pub struct FoundSprint<'a> {
    pub state: SprintState,
    pub name: &'a str,
}

/// The sprint of that number.
pub fn known_sprint<'a>(
    alloc: Global,
    state: &'a State,
    no: SprintNo,
) -> Result<FoundSprint<'a>, Refusal>
    ensures kept { IfOk result (λ found.
        state_of state.now.machine.sprints no.0 ≡ Some found.state) }
    ensures name { IfOk result (λ found.
        name_of state.now.machine.sprints no.0 ≡ Some found.name.now) }
    ensures check { Checks (unless_sprint state.now.machine no) result }
{
    match sprint_numbered(state, no) {
        Some(found) => Ok(found),
        None => Err(unnumbered(alloc, Thing::Sprint, no.0)),
    }
}

// The sprint of that number; `None` exactly where there is none.
fn sprint_numbered(state: &State, no: SprintNo) -> Option<FoundSprint<'_>>
    ensures kept { option_map (λ found. found.state) result
        ≡ state_of state.now.machine.sprints no.0 }
    ensures name { IfSome result (λ found.
        name_of state.now.machine.sprints no.0 ≡ Some found.name.now) }
{
    let work = state.work();
    let state = work.state(no)?;
    let name = work.name(no)?;
    Some(FoundSprint {
        state,
        name: name.as_str(),
    })
}

/// The number of the group of that name.
pub fn known_group(alloc: Global, state: &State, name: &str) -> Result<GroupNo, Refusal>
    ensures place { IfOk result (λ no.
        place_named name.now (group_names state.now.machine.setup) ≡ Some (no.0 - 1)) }
    ensures from_one { IfOk result (λ no. 1 ≤ no.0) }
    ensures there { IfOk result (λ no. no.0 ≤ length state.now.machine.setup.group) }
    ensures check { Checks
        (unless_known (place_named name.now (group_names state.now.machine.setup))
        (Cause.Unknown Thing.Group name.now)) result }
{
    match state.group_named(name) {
        Some(group) => Ok(group),
        None => Err(unknown(alloc, Thing::Group, name)),
    }
}

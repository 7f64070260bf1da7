// The checks that calls of every kind make, each of which may refuse a call.
ghost use Rattle.std.specs.Prelude.{◌≡◌, option_map, slice_get, decimal, IfOk, Some};
ghost use Rattle.fields.specs.Naming.{name_at};
ghost use Rattle.fields.specs.SetupParts.{names_in};
ghost use Rattle.tracker_machine.specs.Known.{project_keys, place_of_issue};
ghost use Rattle.tracker_machine.specs.Checks.{unless_known, permission_refusal};
ghost use Rattle.tracker_machine.specs.Access.{access_refusal};
ghost use Rattle.tracker_machine.specs.Tracker.{IsSettled};
ghost use Rattle.tracker_state.specs.Check.{Checks, IsRefusal};

use crate::found::Found;
use crate::state::State;
use fields::{Permission, ProjectNo, Text, UserNo};
use std::alloc::Global;
use tracker_calls::{Cause, Refusal, Thing};

/// The refusal of a member that is not of its form.
pub fn malformed(alloc: Global, member: &str) -> Refusal
    ensures { IsRefusal (Some (Cause.Form member.now)) result }
{
    match Text::copy_of(alloc, member) {
        Ok(member) => Refusal::Cause(Cause::Form { member }),
        Err(_) => Refusal::Memory,
    }
}

/// The refusal of a name that nothing of that kind has.
pub fn unknown(alloc: Global, kind: Thing, name: &str) -> Refusal
    ensures { IsRefusal (Some (Cause.Unknown kind name.now)) result }
{
    match Text::copy_of(alloc, name) {
        Ok(name) => Refusal::Cause(Cause::Unknown { kind, name }),
        Err(_) => Refusal::Memory,
    }
}

/// The issue of that key.
pub fn known_issue<'a>(alloc: Global, state: &'a State, name: &str) -> Result<Found<'a>, Refusal>
    ensures place { IfOk result (λ found.
        place_of_issue name.now state.now.machine.histories ≡ Some found.place) }
    ensures issue { IfOk result (λ found.
        slice_get state.now.machine.histories found.place ≡ Some found.issue.now.history) }
    ensures settled { IfOk result (λ found. IsSettled (names_in state.now.machine.setup)
        state.now.machine.moment state.now.machine.change found.issue.now.history) }
    ensures check { Checks (unless_known
        (place_of_issue name.now state.now.machine.histories)
        (Cause.Unknown Thing.Issue name.now)) result }
{
    match state.issue_named(name) {
        Some(found) => Ok(found),
        None => Err(unknown(alloc, Thing::Issue, name)),
    }
}

/// The refusal of a number that nothing of that kind has.
pub fn unnumbered(alloc: Global, kind: Thing, number: u32) -> Refusal
    ensures { IsRefusal (Some (Cause.Unknown kind (decimal number))) result }
{
    match format!(in alloc; "{number}") {
        Ok(digits) => Refusal::Cause(Cause::Unknown {
            kind,
            name: Text::of(digits),
        }),
        Err(_) => Refusal::Memory,
    }
}

// The refusal of a caller who hasn't a permission.
fn forbidden(
    alloc: Global,
    state: &State,
    permission: Permission,
    project: Option<ProjectNo>,
) -> Refusal
    ensures { IsRefusal (Some (Cause.Forbidden permission
        (option_map (name_at (project_keys state.now.machine.setup))
        (option_map (λ no. no.0) project)))) result }
{
    let Some(project) = project else {
        return Refusal::Cause(Cause::Forbidden {
            permission,
            project: None,
        });
    };
    match Text::copy_of(alloc, state.project_key(project)) {
        Ok(key) => Refusal::Cause(Cause::Forbidden {
            permission,
            project: Some(key),
        }),
        Err(_) => Refusal::Memory,
    }
}

/// The caller has a permission, in the project where it is one of a project.
pub fn check_permission(
    alloc: Global,
    state: &State,
    caller: UserNo,
    permission: Permission,
    project: Option<ProjectNo>,
) -> Result<(), Refusal>
    ensures { Checks (permission_refusal state.now.machine caller.0 permission
        (option_map (λ no. no.0) project)) result }
{
    if state.may(caller, permission, project) {
        return Ok(());
    }
    Err(forbidden(alloc, state, permission, project))
}

/// The caller has a permission in the project of the issue.
pub fn check_access(
    alloc: Global,
    state: &State,
    caller: UserNo,
    permission: Permission,
    found: Found<'_>,
) -> Result<(), Refusal>
    requires { slice_get state.now.machine.histories found.place ≡ Some found.issue.now.history }
    ensures { Checks (access_refusal state.now.machine caller.0 permission
        (Some found.entry.issue.now.history)) result }
{
    check_permission(
        alloc,
        state,
        caller,
        permission,
        state.project_at(found.place),
    )
}

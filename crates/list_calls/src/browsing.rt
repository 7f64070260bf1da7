// Who may browse which issue.
ghost use Rattle.std.specs.Prelude.{◌≡◌, Some, slice_get, IfOk, IfSome};
ghost use Rattle.field_values.specs.declared.rules.Permission.TheVariants.{Browse};
ghost use Rattle.fields.specs.SetupParts.{parts, may};
ghost use Rattle.workflow.specs.Conditions.{project_number};
ghost use Rattle.list_calls.specs.Browsing.{allows, browsable};

use fields::{Memory, Permission, ProjectNo, Setup, UserNo};
use std::alloc::Global;
use tracker_state::State;

/// Whether the user may browse the issue at a place.
pub fn may_browse(state: &State, user: UserNo, place: usize) -> bool
    ensures { IfSome (slice_get state.now.machine.histories place) (λ h.
        result ≡ may state.now.machine.setup user.0 Browse
        (project_number state.now.machine.setup h)) }
{
    state.may(user, Permission::Browse, state.project_at(place))
}

/// Of each project, by its place, whether the user may browse it.
pub fn browsable(alloc: Global, setup: &Setup, user: UserNo) -> Result<Vec<bool>, Memory>
    ensures { IfOk result (λ table. table.items ≡ browsable (parts setup.now) user.0) }
{
    let mut table = Vec::new(alloc);
    for place in 0..setup.project.as_slice().len() {
        table.push(setup.may(user, Permission::Browse, Some(ProjectNo(place as u16))))?;
    }
    Ok(table)
}

/// Whether the table of the projects that a user may browse has that of the issue at a place.
pub fn is_browsable(state: &State, table: &[bool], place: usize) -> bool
    ensures { IfSome (slice_get state.now.machine.histories place) (λ h.
        result ≡ allows table.now (project_number state.now.machine.setup h)) }
{
    match state.project_at(place) {
        Some(project) => allows(table, project),
        None => false,
    }
}

fn allows(table: &[bool], project: ProjectNo) -> bool
    ensures { result ≡ allows table.now (Some project.0) }
{
    match table.get(usize::from(project.0)) {
        Some(may) => *may,
        None => false,
    }
}

// The projects that a user may browse, and what he may do in each.
ghost use Rattle.std.specs.Prelude.{◌≡◌, ◌≤◌, IfOk, Some, length, filter};
ghost use Rattle.fields.specs.SetupParts.{parts, may};
ghost use Rattle.told_setups.specs.Told.{told_project, told_projects};

use crate::groups_told::user_name;
use fields::{Memory, Permission, Project, ProjectNo, Setup, UserNo};
use std::alloc::Global;
use tracker_calls::{ToldPermissions, ToldProject, ToldProjects, ToldText};

// The permissions that there are in a project.
const OF_PROJECTS: [Permission; 5] = [
    Permission::Browse,
    Permission::Create,
    Permission::Edit,
    Permission::Transition,
    Permission::Rank,
];

/// The projects that the user may browse, and what he may do in each.
pub fn told_projects(alloc: Global, setup: &Setup, user: UserNo) -> Result<ToldProjects, Memory>
    ensures { IfOk result
        (λ told. told ≡ told_projects (parts setup.now) user.0 0 setup.now.project) }
{
    each_project(alloc, setup, user, setup.project.as_slice())
}

fn each_project(
    alloc: Global,
    setup: &Setup,
    user: UserNo,
    projects: &[Project],
) -> Result<ToldProjects, Memory>
    requires { length projects.now ≤ 50 }
    ensures { IfOk result
        (λ told. told ≡ told_projects (parts setup.now) user.0 0 projects.now) }
{
    let mut told = ToldProjects::new(alloc);
    for (place, project) in projects.iter().enumerate() {
        let no = ProjectNo(place as u16);
        if setup.may(user, Permission::Browse, Some(no)) {
            told.push(told_project(alloc, setup, user, no, project)?)?;
        }
    }
    Ok(told)
}

fn told_project(
    alloc: Global,
    setup: &Setup,
    user: UserNo,
    no: ProjectNo,
    project: &Project,
) -> Result<ToldProject, Memory>
    ensures { IfOk result
        (λ told. told ≡ told_project (parts setup.now) user.0 no.0 project.now) }
{
    let key = ToldText::copy_of(alloc, project.key.as_str())?;
    let lead = ToldText::copy_of(alloc, user_name(setup, project.lead))?;
    let allowed = permissions_among(alloc, setup, user, no, &OF_PROJECTS)?;
    Ok(ToldProject {
        key,
        lead,
        may: allowed,
    })
}

// Those of some permissions that the user has in the project.
fn permissions_among(
    alloc: Global,
    setup: &Setup,
    user: UserNo,
    project: ProjectNo,
    all: &[Permission],
) -> Result<ToldPermissions, Memory>
    ensures { IfOk result (λ told. told
        ≡ filter (λ p. may (parts setup.now) user.0 p (Some project.0)) all.now) }
{
    let mut told = ToldPermissions::new(alloc);
    for permission in all {
        if setup.may(user, *permission, Some(project)) {
            told.push(*permission)?;
        }
    }
    Ok(told)
}

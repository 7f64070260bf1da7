// The names of the things of a list.
ghost use Rattle.std.specs.Prelude.{◌≡◌, map, IfOk};

use field_values::memory::Memory;
use field_values::names::Names;
use field_values::parts::{Group, Project, Transition};
use field_values::status::Status;
use std::alloc::Global;

/// The names of the statuses.
pub fn status_names(alloc: Global, statuses: &[Status]) -> Result<Names, Memory>
    ensures { IfOk result (λ names. names ≡ map (λ x. x.name) statuses.now) }
{
    let mut names = Names::new(alloc);
    for status in statuses {
        names.push(status.name.copy(alloc)?)?;
    }
    Ok(names)
}

/// The names of the groups.
pub fn group_names(alloc: Global, groups: &[Group]) -> Result<Names, Memory>
    ensures { IfOk result (λ names. names ≡ map (λ x. x.name) groups.now) }
{
    let mut names = Names::new(alloc);
    for group in groups {
        names.push(group.name.copy(alloc)?)?;
    }
    Ok(names)
}

/// The keys of the projects.
pub fn project_keys(alloc: Global, projects: &[Project]) -> Result<Names, Memory>
    ensures { IfOk result (λ names. names ≡ map (λ x. x.key) projects.now) }
{
    let mut names = Names::new(alloc);
    for project in projects {
        names.push(project.key.copy(alloc)?)?;
    }
    Ok(names)
}

/// The names of the transitions.
pub fn transition_names(alloc: Global, transitions: &[Transition]) -> Result<Names, Memory>
    ensures { IfOk result (λ names. names ≡ map (λ x. x.name) transitions.now) }
{
    let mut names = Names::new(alloc);
    for transition in transitions {
        names.push(transition.name.copy(alloc)?)?;
    }
    Ok(names)
}

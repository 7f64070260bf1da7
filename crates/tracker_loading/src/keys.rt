//! The keys of issues.
ghost use Rattle.std.specs.Prelude.{◌≡◌, ◌<◌, ◌≤◌, ◌+◌, ◌↔◌, length, IfOk, IfSome, IsTrue, None};
ghost use Rattle.tracker_limits.specs.Limits.{most_issues};
ghost use Rattle.fields.specs.SetupParts.{parts};
ghost use Rattle.fields.specs.Naming.{name_at};
ghost use Rattle.change_history.specs.Key.{project_of};
ghost use Rattle.tracker_machine.specs.Known.{project_keys, issues_of};
ghost use Rattle.tracker_machine.specs.Tracker.{IsNextKey};
ghost use Rattle.tracker_issues.specs.Counts.{IsTally};
ghost use Rattle.change_history.specs.History.{histories_of};
ghost use Rattle.tracker_loading.specs.Rules.{IsKeyAt};

use change_history::{Key, project_of};
use field_values::Memory;
use fields::{ProjectNo, Setup};
use std::alloc::Global;
use tracker_issues::Issues;

/// The project whose next issue has the key; `None` exactly where it is none's.
pub(crate) fn project_of_next(
    alloc: Global,
    setup: &Setup,
    issues: &Issues,
    key: &str,
) -> Result<Option<ProjectNo>, Memory>
    requires counted { IsTally issues.now.tally (parts setup.now) (histories_of issues.now.kept) }
    requires few { length issues.now.kept ≤ most_issues }
    ensures found { IfOk result (λ found. IfSome found (λ no.
        IsKeyAt (parts setup.now) (histories_of issues.now.kept) key.now no.0)) }
    ensures none { IfOk result (λ found. found ≡ None →
        ¬ (IsNextKey (parts setup.now) (histories_of issues.now.kept) key.now)) }
{
    let Some(project) = setup.project_named(project_of(key)) else {
        return Ok(None);
    };
    let number = next_number(setup, issues, project);
    let next = Key::of(alloc, project_key(setup, project), number)?;
    if !is_same(next.as_str(), key) {
        return Ok(None);
    }
    Ok(Some(project))
}

fn is_same(one: &str, other: &str) -> bool
    ensures { IsTrue result ↔ (one.now ≡ other.now) }
{
    one == other
}

// The key of the project at a place.
fn project_key(setup: &Setup, project: ProjectNo) -> &str
    requires { project.0 < length (parts setup.now).project }
    ensures { result.now ≡ name_at (project_keys (parts setup.now)) project.0 }
{
    let projects = setup.project.as_slice();
    projects[usize::from(project.0)].key.as_str()
}

// The number of the project's next issue.
fn next_number(setup: &Setup, issues: &Issues, project: ProjectNo) -> u32
    requires counted { IsTally issues.now.tally (parts setup.now) (histories_of issues.now.kept) }
    requires few { length issues.now.kept ≤ most_issues }
    requires there { project.0 < length (parts setup.now).project }
    ensures { result ≡ issues_of (name_at (project_keys (parts setup.now)) project.0)
        (histories_of issues.now.kept) + 1 }
{
    let _ = setup;
    issues.count_in(project) + 1
}

// The sprint that an issue is in.
ghost use Rattle.std.specs.Prelude.{◌≡◌, option_map};
ghost use Rattle.burndown.specs.Reading.{sprint_in};
ghost use Rattle.tracker_machine.specs.Checks.{is_in};
ghost use Rattle.tracker_machine.specs.SprintRules.{is_sprint};
ghost use Rattle.wanted_values.specs.InSprints.{sprint_after};

use change_history::{Entry, Issue};
use fields::{FieldNo, SprintNo, Value};

fn is_sprint(value: &Value, sprint: u32) -> bool
    ensures { result ≡ is_sprint sprint value.now }
{
    match value {
        Value::Sprint(own) => own.0 == sprint,
        _ => false,
    }
}

/// Whether the issue, if there is one, is in that sprint.
pub fn is_in(issue: Option<&Issue>, sprint: u32) -> bool
    ensures { result ≡ is_in (option_map (λ i. i.now.history) issue.entry) sprint }
{
    match issue {
        Some(issue) => is_sprint(issue.value(FieldNo::SPRINT), sprint),
        None => false,
    }
}

fn sprint_in(value: &Value) -> Option<SprintNo>
    ensures { result ≡ sprint_in value.now }
{
    match value {
        Value::Sprint(sprint) => Some(*sprint),
        _ => None,
    }
}

/// The sprint that an issue is in after these entries, where it was in that one, if any, before.
pub fn sprint_after(before: Option<SprintNo>, entries: &[Entry]) -> Option<SprintNo>
    ensures { result ≡ sprint_after before entries.now }
{
    let mut sprint = before;
    for entry in entries {
        if entry.field == FieldNo::SPRINT {
            sprint = sprint_in(&entry.to);
        }
    }
    sprint
}

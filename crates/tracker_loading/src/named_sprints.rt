//! Whether the sprints that a part names have rows.
ghost use Rattle.std.specs.Prelude.{◌↔◌, IsTrue};
ghost use Rattle.tracker_rows.specs.Listed.{InOrder, HasSprint, OpenInRows, ChangeInRows, HasSprintsOf};

use crate::kinds::SPRINT;
use crate::places::has_row;
use change_history::{Change, Entry};
use field_values::Value;
use tracker_keeper::{Part, Row};

fn has_sprint(rows: &[Row], value: &Value) -> bool
    requires { InOrder rows.now }
    ensures { IsTrue result ↔ HasSprint rows.now value.now }
{
    match value {
        Value::Sprint(sprint) => has_row(rows, SPRINT, u64::from(sprint.0)),
        _ => true,
    }
}

fn has_sprints_of_values(rows: &[Row], values: &[Change]) -> bool
    requires { InOrder rows.now }
    ensures { IsTrue result ↔ OpenInRows rows.now values.now }
{
    for value in values {
        if !has_sprint(rows, &value.to) {
            return false;
        }
    }
    true
}

fn has_sprints_of_entry(rows: &[Row], entry: &Entry) -> bool
    requires { InOrder rows.now }
    ensures { IsTrue result ↔ HasSprint rows.now entry.now.from × HasSprint rows.now entry.now.to }
{
    has_sprint(rows, &entry.from) && has_sprint(rows, &entry.to)
}

fn has_sprints_of_entries(rows: &[Row], entries: &[Entry]) -> bool
    requires { InOrder rows.now }
    ensures { IsTrue result ↔ ChangeInRows rows.now entries.now }
{
    for entry in entries {
        if !has_sprints_of_entry(rows, entry) {
            return false;
        }
    }
    true
}

/// Whether each sprint that the part names has a row.
pub(crate) fn has_sprints_of(rows: &[Row], part: &Part) -> bool
    requires { InOrder rows.now }
    ensures { IsTrue result ↔ HasSprintsOf rows.now part.now }
{
    match part {
        Part::Issue { values, .. } => has_sprints_of_values(rows, values.as_slice()),
        Part::Group { group, .. } => has_sprints_of_entries(rows, group.entries.as_slice()),
        _ => true,
    }
}

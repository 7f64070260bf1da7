// The text bytes that the limit counts.
ghost use Rattle.std.specs.Prelude.{◌≡◌, ◌≤◌, ◌+◌, ◌*◌, sum_by, length, true};
ghost use Rattle.tracker_limits.specs.Limits.{text_reserve};
ghost use Rattle.fields.specs.SetupParts.{names};
ghost use Rattle.tracker_machine.specs.Checks.{text_bytes, entry_bytes};
ghost use Rattle.tracker_machine.specs.Tracker.{AreSmall, AllSmall};
ghost use Rattle.tracker_keeper.specs.Forms.{is_small};
ghost use Rattle.wanted_values.specs.Weight.{AreLight, AllLight, OpeningsAreLight, GroupsAreLight};

use change_history::{Change, Entry};
use fields::laws::keeps_what_was_read;
use fields::{Setup, SprintNo, Text, Value};

/// A value that fits has at most 31,000 text bytes, and all 43 of an issue's fields together have at most 77,080. So a call
/// never adds more than 200,000, which the limit leaves room for.
pub fn fitting_is_light(setup: &Setup)
    ensures openings { OpeningsAreLight (names setup.now) }
    ensures groups { GroupsAreLight (names setup.now) }
{
    keeps_what_was_read(setup);
}

fn length_of(text: &Text) -> u64
    ensures { result ≡ length text.now }
{
    text.as_str().len() as u64
}

fn label_bytes(labels: &[Text]) -> u64
    requires { sum_by length labels.now ≤ text_reserve }
    ensures { result ≡ sum_by length labels.now }
{
    let mut total = 0;
    for label in labels {
        total += length_of(label);
    }
    total
}

fn version_bytes(count: usize) -> u64
    requires { 62 * count ≤ text_reserve }
    ensures { result ≡ 62 * count }
{
    62 * count as u64
}

// A sprint's number is in its range.
fn sprint_is_small(sprint: SprintNo)
    ensures { is_small (Value.Sprint sprint) ≡ true }
{
    let _ = sprint.0;
}

fn text_bytes(value: &Value) -> u64
    requires { text_bytes value.now ≤ text_reserve }
    ensures bytes { result ≡ text_bytes value.now }
    ensures small { is_small value.now ≡ true }
{
    match value {
        Value::Text(text) => length_of(text),
        Value::Labels(labels) => label_bytes(labels.as_slice()),
        Value::Set(choices) => version_bytes(choices.as_slice().len()),
        Value::Empty => 0,
        Value::Number(_) => 0,
        Value::Choice(_) => 0,
        Value::User(_) => 0,
        Value::Date(_) => 0,
        Value::Sprint(sprint) => {
            sprint_is_small(*sprint);
            0
        }
    }
}

fn entry_bytes(entry: &Entry) -> u64
    requires { entry_bytes entry.now ≤ text_reserve }
    ensures bytes { result ≡ entry_bytes entry.now }
    ensures small { is_small entry.now.to ≡ true }
{
    let from = text_bytes(&entry.from);
    let to = text_bytes(&entry.to);
    from + to
}

/// Those of some opening values.
pub fn bytes_of_changes(changes: &[Change]) -> u64
    requires { AreLight changes.now }
    ensures sum { result ≡ sum_by (λ c. text_bytes c.to) changes.now }
    ensures small { AreSmall changes.now }
{
    let mut total = 0;
    for change in changes {
        total += text_bytes(&change.to);
    }
    total
}

/// Those of both sides of some entries.
pub fn bytes_of_entries(entries: &[Entry]) -> u64
    requires { AllLight entries.now }
    ensures sum { result ≡ sum_by entry_bytes entries.now }
    ensures small { AllSmall entries.now }
{
    let mut total = 0;
    for entry in entries {
        total += entry_bytes(entry);
    }
    total
}

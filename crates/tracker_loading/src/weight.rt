//! The text bytes that rows bring, counted up to the greatest number.
ghost use Rattle.std.specs.Prelude.{◌≡◌, ◌+◌, ◌-◌, ◌^◌, min, sum_by, length};
ghost use Rattle.tracker_machine.specs.Checks.{text_bytes, entry_bytes};

use change_history::{Change, Entry};
use field_values::{Text, Value};

fn length_of(text: &Text) -> u64
    ensures { result ≡ length text.now }
{
    text.as_str().len() as u64
}

fn label_bytes(labels: &[Text]) -> u64
    ensures { result ≡ min (sum_by length labels.now) (2 ^ 64 - 1) }
{
    let mut total: u64 = 0;
    for label in labels {
        total = total.saturating_add(length_of(label));
    }
    total
}

fn text_bytes(value: &Value) -> u64
    ensures { result ≡ min (text_bytes value.now) (2 ^ 64 - 1) }
{
    match value {
        Value::Text(text) => length_of(text),
        Value::Labels(labels) => label_bytes(labels.as_slice()),
        Value::Set(choices) => (choices.as_slice().len() as u64).saturating_mul(62),
        Value::Empty => 0,
        Value::Number(_) => 0,
        Value::Choice(_) => 0,
        Value::User(_) => 0,
        Value::Date(_) => 0,
        Value::Sprint(_) => 0,
    }
}

fn entry_bytes(entry: &Entry) -> u64
    ensures { result ≡ min (entry_bytes entry.now) (2 ^ 64 - 1) }
{
    let from = text_bytes(&entry.from);
    let to = text_bytes(&entry.to);
    from.saturating_add(to)
}

/// Those of some opening values.
pub(crate) fn bytes_of_changes(changes: &[Change]) -> u64
    ensures { result ≡ min (sum_by (λ c. text_bytes c.to) changes.now) (2 ^ 64 - 1) }
{
    let mut total: u64 = 0;
    for change in changes {
        total = total.saturating_add(text_bytes(&change.to));
    }
    total
}

/// Those of both sides of some entries.
pub(crate) fn bytes_of_entries(entries: &[Entry]) -> u64
    ensures { result ≡ min (sum_by entry_bytes entries.now) (2 ^ 64 - 1) }
{
    let mut total: u64 = 0;
    for entry in entries {
        total = total.saturating_add(entry_bytes(entry));
    }
    total
}

//! Whether the entries of a group follow from what its issue has.
ghost use Rattle.std.specs.Prelude.{◌≡◌, ◌≢◌, ◌≤◌, ◌↔◌, IsTrue, true, All};
ghost use Rattle.field_forms.specs.Known.{may_be_empty};
ghost use Rattle.change_history.specs.History.{present, AreGroupEntries};
ghost use Rattle.tracker_loading.specs.Entries.{AreOfGroup, LeadsOn};
ghost use Rattle.tracker_rows.specs.Rules.{MayEmptyFields};

use change_history::{Entry, Group, Issue};
use field_values::{FieldNo, Value};

/// Whether the entries stand by rising field numbers, and each leads from the present value of its field to another one.
pub(crate) fn lead_on(issue: &Issue, group: &Group) -> bool
    requires { AreOfGroup group.now.change group.now.at group.now.author group.now.entries }
    ensures { IsTrue result ↔ AreGroupEntries (present issue.now.history) 0
        group.now.change group.now.at group.now.author group.now.entries }
{
    let mut low = 0;
    for entry in group.entries.as_slice() {
        if !leads_on(issue, low, entry) {
            return false;
        }
        low = u32::from(entry.field.0) + 1;
    }
    true
}

// Whether the entry is of a field from that number on, and leads from its present value to another one.
fn leads_on(issue: &Issue, low: u32, entry: &Entry) -> bool
    ensures { IsTrue result ↔ LeadsOn (present issue.now.history) low entry.now }
{
    if u32::from(entry.field.0) < low || entry.from.is_same(&entry.to) {
        return false;
    }
    entry.from.is_same(issue.value(entry.field))
}

/// Whether each entry that leaves its field empty is of one that may be.
pub(crate) fn may_empty_fields(entries: &[Entry]) -> bool
    ensures { IsTrue result ↔ MayEmptyFields entries.now }
{
    for entry in entries {
        if is_empty(&entry.to) && !may_be_empty(entry.field) {
            return false;
        }
    }
    true
}

/// Whether nothing stands there.
pub(crate) fn is_empty(value: &Value) -> bool
    ensures { IsTrue result ↔ (value.now ≡ Value.Empty) }
{
    matches!(value, Value::Empty)
}

// Whether a field may be empty.
fn may_be_empty(field: FieldNo) -> bool
    ensures { result ≡ may_be_empty field.0 }
{
    field != FieldNo::TYPE && field != FieldNo::SUMMARY && field != FieldNo::STATUS
}

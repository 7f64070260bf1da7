// Values that take no memory. They lie in the issue itself, so that whoever asks many issues waits for memory once an issue.
ghost use Rattle.std.specs.Prelude.{◌≡◌, slice_get};
ghost use Rattle.change_history.specs.Small.{small_of, small_value, small_after};
ghost use Rattle.change_history.specs.Small.{set_small, AreSmall};
ghost use Rattle.change_history.specs.History.{opening_value};

use crate::change::Change;
use crate::entry::Entry;
use field_values::{ChoiceNo, Day, FieldNo, SprintNo, UserNo, Value};

/// The fields that every tracker has are numbered from 1, so that one place is left empty.
pub(crate) const PLACES: usize = 14;

/// A value that takes no memory, or `Apart` in the place of one that does.
#[derive(Clone, Copy)]
pub enum Small {
    Empty,
    /// Thousandths.
    Number(i64),
    Choice(ChoiceNo),
    User(UserNo),
    Date(Day),
    Sprint(SprintNo),
    Apart,
}

impl Small {
    /// The value, or that it is apart.
    pub(crate) fn of(value: &Value) -> Small
        ensures { result ≡ small_of value.now }
    {
        match value {
            Value::Empty => Small::Empty,
            Value::Number(number) => Small::Number(*number),
            Value::Choice(no) => Small::Choice(*no),
            Value::User(no) => Small::User(*no),
            Value::Date(day) => Small::Date(*day),
            Value::Sprint(no) => Small::Sprint(*no),
            Value::Text(_) | Value::Set(_) | Value::Labels(_) => Small::Apart,
        }
    }

    /// The value; `None` exactly where it is apart.
    pub fn value(self) -> Option<Value>
        ensures { result ≡ small_value self }
    {
        match self {
            Small::Empty => Some(Value::Empty),
            Small::Number(number) => Some(Value::Number(number)),
            Small::Choice(no) => Some(Value::Choice(no)),
            Small::User(no) => Some(Value::User(no)),
            Small::Date(day) => Some(Value::Date(day)),
            Small::Sprint(no) => Some(Value::Sprint(no)),
            Small::Apart => None,
        }
    }
}

/// The small values of an opening, by field number.
pub(crate) fn opening_small(opening: &[Change]) -> [Small; PLACES]
    ensures { AreSmall (opening_value opening.now) result }
{
    let mut small = [Small::Empty; PLACES];
    // The first change of a field is the one that counts.
    let mut left = opening.len();
    while left > 0 {
        left -= 1;
        let change = &opening[left];
        set_small(&mut small, change.field, &change.to);
    }
    small
}

/// Has the small values be those after the entries.
pub(crate) fn put_small(small: &mut [Small], entries: &[Entry])
    ensures { small.new ≡ small_after small.old entries.now }
{
    for entry in entries {
        set_small(small, entry.field, &entry.to);
    }
}

/// That of a field; `None` exactly where it has no place.
pub(crate) fn small_at(small: &[Small], field: FieldNo) -> Option<Small>
    ensures { result ≡ slice_get small.now field.0 }
{
    small.get(usize::from(field.0)).copied()
}

// Sets that of a field, where it has a place.
fn set_small(small: &mut [Small], field: FieldNo, to: &Value)
    ensures { small.new ≡ set_small small.old field to.now }
{
    let place = usize::from(field.0);
    if place < small.len() {
        small[place] = Small::of(to);
    }
}

// Values as the columns of an export tell them.
ghost use Rattle.std.specs.Prelude.{◌≡◌, ◌⊎◌, true, IfOk};
ghost use Rattle.field_forms.specs.Known.{fits};
ghost use Rattle.fields.specs.SetupParts.{names};
ghost use Rattle.issue_csv.specs.Writing.{column_text};

use fields::{FieldNo, Memory, Setup, Text, Value, name_at};
use std::alloc::Global;

/// The text of a value; an empty one where the value is empty.
pub fn column_text(
    alloc: Global,
    setup: &Setup,
    field: FieldNo,
    value: &Value,
) -> Result<Text, Memory>
    requires { (value.now ≡ Value.Empty) ⊎ (fits (names setup.now) field.0 value.now ≡ true) }
    ensures { IfOk result (λ text. text ≡ column_text (names setup.now) field.0 value.now) }
{
    match value {
        Value::Text(text) => text.copy(alloc),
        Value::Number(_) => setup.text_of(alloc, field, value),
        Value::Choice(_) => setup.text_of(alloc, field, value),
        Value::User(user) => name_at(alloc, setup.users.as_slice(), user.0),
        Value::Date(_) => setup.text_of(alloc, field, value),
        Value::Empty => Text::copy_of(alloc, ""),
        Value::Set(_) => Text::copy_of(alloc, ""),
        Value::Labels(_) => Text::copy_of(alloc, ""),
        Value::Sprint(_) => Text::copy_of(alloc, ""),
    }
}

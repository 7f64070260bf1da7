// What fits a field, and the text of what does.
ghost use Rattle.std.specs.Prelude.{◌≡◌, ◌≢◌, true, IfOk, Some};
ghost use Rattle.field_forms.specs.Known.{choices_of, value_of, fits};
ghost use Rattle.field_forms.specs.ValueTexts.{IsTextOf, IsReadBack};
ghost use Rattle.fields.specs.SetupParts.{names};

use crate::setup::Setup;
use field_forms::fit;
use field_forms::known::text_of;
use field_values::memory::Memory;
use field_values::numbers::FieldNo;
use field_values::text::Text;
use field_values::value::Value;
use std::alloc::Global;

impl Setup {
    /// Whether the field may hold the value.
    pub fn fits(&self, field: FieldNo, value: &Value) -> bool
        ensures { result ≡ fits (names self.now) field.0 value.now }
    {
        fit::fits(&self.known(), field, value)
    }

    /// The text of a value that the field may hold and that isn't empty: what a choice or a user is called, a day as
    /// yyyy-MM-dd, the shortest spelling of a number, and a JSON array without spaces for a set or labels. Of a text, a
    /// number, a choice, a user or a date, it is read as the value.
    pub fn text_of(&self, alloc: Global, field: FieldNo, value: &Value) -> Result<Text, Memory>
        requires fits { fits (names self.now) field.0 value.now ≡ true }
        requires some { value.now ≢ Value.Empty }
        ensures text { IfOk result (IsTextOf (choices_of (names self.now) field.0) value.now) }
        ensures read { IsReadBack value.now →
            IfOk result (λ text. value_of (names self.now) field.0 text ≡ Some value.now) }
    {
        text_of(alloc, &self.known(), field, value)
    }
}

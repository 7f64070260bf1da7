// The values that texts stand for.
ghost use Rattle.std.specs.Prelude.{◌≡◌, ◌≤◌, true, length, option_map, IfOk, IfSome};
ghost use Rattle.std.specs.List.{list_all};
ghost use Rattle.field_values.specs.declared.value.Value.{Value};
ghost use Rattle.field_forms.specs.Names.{place_named, is_among};
ghost use Rattle.field_forms.specs.Values.{chosen, set_value, listed_set, set_in};
ghost use Rattle.field_forms.specs.Known.{choices_of, value_of, listed_value_of, fits};
ghost use Rattle.fields.specs.SetupParts.{names};

use crate::setup::Setup;
use field_forms::form::{Form, set_value};
use field_forms::known::{choices_of, form_of, listed_value_of, value_of};
use field_forms::text_list::texts_in;
use field_values::memory::Memory;
use field_values::numbers::{ChoiceNo, FieldNo, UserNo};
use field_values::sequence::Sequence;
use field_values::text::Text;
use field_values::value::Value;
use name_index::Places;
use std::alloc::Global;

impl Setup {
    /// The value that a text stands for in the field; `None` exactly where it is none of the field's.
    pub fn value_of(
        &self,
        alloc: Global,
        field: FieldNo,
        text: &str,
    ) -> Result<Option<Value>, Memory>
        ensures value { IfOk result (λ value. value ≡ value_of (names self.now) field.0 text.now) }
        ensures fits { IfOk result
            (λ value. IfSome value (λ v. fits (names self.now) field.0 v ≡ true)) }
    {
        self.read_value(alloc, field, text)
    }

    #[tactic(auto, unfolding(field_forms::specs::Known::value_of, field_forms::specs::Values::value_in))]
    fn read_value(&self, alloc: Global, field: FieldNo, text: &str) -> Result<Option<Value>, Memory>
        ensures { IfOk result (λ value. value ≡ value_of (names self.now) field.0 text.now) }
    {
        match form_of(self.field.as_slice(), field) {
            Some(Form::Choice) => Ok(self.choice_of(field, text)),
            Some(Form::User) => Ok(self.user_of(field, text)),
            Some(Form::Set) => self.set_in(alloc, field, text),
            _ => value_of(alloc, &self.known(), field, text),
        }
    }

    /// The value that a list of texts stands for in the field, a set or labels; `None` exactly where it is none of the field's.
    pub fn listed_value_of(
        &self,
        alloc: Global,
        field: FieldNo,
        texts: &[Text],
    ) -> Result<Option<Value>, Memory>
        ensures value { IfOk result
            (λ value. value ≡ listed_value_of (names self.now) field.0 texts.now) }
        ensures fits { IfOk result
            (λ value. IfSome value (λ v. fits (names self.now) field.0 v ≡ true)) }
    {
        self.read_list(alloc, field, texts)
    }

    #[tactic(auto, unfolding(field_forms::specs::Known::listed_value_of))]
    fn read_list(
        &self,
        alloc: Global,
        field: FieldNo,
        texts: &[Text],
    ) -> Result<Option<Value>, Memory>
        ensures { IfOk result
            (λ value. value ≡ listed_value_of (names self.now) field.0 texts.now) }
    {
        match form_of(self.field.as_slice(), field) {
            Some(Form::Set) => self.listed_set(alloc, field, texts),
            _ => listed_value_of(alloc, &self.known(), field, texts),
        }
    }

    fn choice_of(&self, field: FieldNo, text: &str) -> Option<Value>
        ensures { result ≡ option_map (λ k. Value.Choice (record { 0 = k }))
            (place_named text.now (choices_of (names self.now) field.0)) }
    {
        let place = self.place_among(field, text)?;
        Some(Value::Choice(ChoiceNo(place as u16)))
    }

    fn user_of(&self, field: FieldNo, text: &str) -> Option<Value>
        ensures { result ≡ option_map (λ k. Value.User (record { 0 = k }))
            (place_named text.now (choices_of (names self.now) field.0)) }
    {
        let place = self.place_among(field, text)?;
        Some(Value::User(UserNo(place as u16)))
    }

    // The set that a JSON array of texts names.
    fn set_in(&self, alloc: Global, field: FieldNo, text: &str) -> Result<Option<Value>, Memory>
        ensures { IfOk result
            (λ value. value ≡ set_in (choices_of (names self.now) field.0) text.now) }
    {
        let Some(texts) = texts_in(alloc, text)? else {
            return Ok(None);
        };
        self.listed_set(alloc, field, texts.as_slice())
    }

    // The set of the choices that the texts name.
    fn listed_set(
        &self,
        alloc: Global,
        field: FieldNo,
        texts: &[Text],
    ) -> Result<Option<Value>, Memory>
        ensures { IfOk result
            (λ value. value ≡ listed_set (choices_of (names self.now) field.0) texts.now) }
    {
        if !self.are_known(field, texts) {
            return Ok(None);
        }
        let chosen = chosen(alloc, choices_of(&self.known(), field), texts)?;
        Ok(Some(set_value(chosen)))
    }

    fn are_known(&self, field: FieldNo, texts: &[Text]) -> bool
        ensures { result ≡ list_all (is_among (choices_of (names self.now) field.0)) texts.now }
    {
        texts
            .iter()
            .all(|text| self.has_among(field, text.as_str()))
    }
}

// The places of those names that are among the texts: one look-up a name.
fn chosen(alloc: Global, names: &[Text], texts: &[Text]) -> Result<Sequence<ChoiceNo>, Memory>
    requires { length names.now ≤ 65_535 }
    ensures { IfOk result (λ nos. nos ≡ chosen 0 names.now texts.now) }
{
    let places = Places::of(alloc, texts)?;
    let mut nos = Sequence::new(alloc);
    for (place, name) in names.iter().enumerate() {
        if places.has(texts, name.as_str()) {
            nos.push(ChoiceNo(place as u16))?;
        }
    }
    Ok(nos)
}

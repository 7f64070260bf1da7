// The numbers of fields, and what the things of a setup are called.
ghost use Rattle.std.specs.Prelude.{◌≡◌, ◌-◌, ◌++◌, slice_get, map, option_map, IfOk, OnOk};
ghost use Rattle.field_forms.specs.BuiltIn.{field_names};
ghost use Rattle.field_forms.specs.Known.{own_field};
ghost use Rattle.fields.specs.Naming.{name_at, built_in_numbers, field_numbers, field_name};

use crate::setup::Setup;
use field_values::field::Field;
use field_values::memory::Memory;
use field_values::numbers::FieldNo;
use field_values::text::Text;
use std::alloc::Global;

/// A copy of the name at a place; an empty text where there is none.
pub fn name_at(alloc: Global, names: &[Text], place: u16) -> Result<Text, Memory>
    ensures { IfOk result (λ text. text ≡ name_at names.now place) }
{
    match names.get(usize::from(place)) {
        Some(name) => name.copy(alloc),
        None => Text::copy_of(alloc, ""),
    }
}

fn built_in_name(field: FieldNo) -> Option<&'static str>
    ensures { option_map (λ name. name.now) result ≡ slice_get field_names (field.0 - 1) }
{
    match field {
        FieldNo(0) | FieldNo::TYPE => Some("type"),
        FieldNo::SUMMARY => Some("summary"),
        FieldNo::DESCRIPTION => Some("description"),
        FieldNo::STATUS => Some("status"),
        FieldNo::ASSIGNEE => Some("assignee"),
        FieldNo::REPORTER => Some("reporter"),
        FieldNo::PRIORITY => Some("priority"),
        FieldNo::RESOLUTION => Some("resolution"),
        FieldNo::FIX_VERSION => Some("fixVersion"),
        FieldNo::LABELS => Some("labels"),
        FieldNo::DUE => Some("due"),
        FieldNo::POINTS => Some("points"),
        FieldNo::SPRINT => Some("sprint"),
        _ => None,
    }
}

fn own_field(fields: &[Field], no: u16) -> Option<&Field>
    ensures { option_map (λ f. f.now) result ≡ own_field fields.now no }
{
    fields.iter().find(|field| field.number.0 == no)
}

/// The fields that every tracker has, by number.
pub fn built_in_fields() -> &'static [FieldNo]
    ensures { map (λ f. f.0) result.now ≡ built_in_numbers }
{
    &[
        FieldNo::TYPE,
        FieldNo::SUMMARY,
        FieldNo::DESCRIPTION,
        FieldNo::STATUS,
        FieldNo::ASSIGNEE,
        FieldNo::REPORTER,
        FieldNo::PRIORITY,
        FieldNo::RESOLUTION,
        FieldNo::FIX_VERSION,
        FieldNo::LABELS,
        FieldNo::DUE,
        FieldNo::POINTS,
        FieldNo::SPRINT,
    ]
}

fn put_built_in(numbers: &mut Vec<FieldNo>) -> Result<(), Memory>
    ensures { OnOk result (map (λ f. f.0) numbers.new.items
        ≡ map (λ f. f.0) numbers.old.items ++ built_in_numbers) }
{
    for number in built_in_fields() {
        numbers.push(*number)?;
    }
    Ok(())
}

fn put_own(numbers: &mut Vec<FieldNo>, fields: &[Field]) -> Result<(), Memory>
    ensures { OnOk result (map (λ f. f.0) numbers.new.items
        ≡ map (λ f. f.0) numbers.old.items ++ map (λ f. f.number.0) fields.now) }
{
    for field in fields {
        numbers.push(field.number)?;
    }
    Ok(())
}

impl Setup {
    /// The name of a field as the setup spells it; an empty text where no field above 0 has that number. By its name each
    /// field is found.
    pub fn field_name(&self, field: FieldNo) -> &str
        ensures { result.now ≡ field_name self.now.field field.0 }
    {
        match built_in_name(field) {
            Some(name) => name,
            None => match own_field(self.field.as_slice(), field.0) {
                Some(own) => own.name.as_str(),
                None => "",
            },
        }
    }

    /// The fields of every tracker, and then the setup's own in its order.
    pub fn field_numbers(&self, alloc: Global) -> Result<Vec<FieldNo>, Memory>
        ensures { IfOk result
            (λ numbers. map (λ f. f.0) numbers.items ≡ field_numbers self.now.field) }
    {
        let mut numbers = Vec::new(alloc);
        put_built_in(&mut numbers)?;
        put_own(&mut numbers, self.field.as_slice())?;
        Ok(numbers)
    }
}

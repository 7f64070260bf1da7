// The texts of values.
ghost use Rattle.std.specs.Prelude.{◌≡◌, ◌≢◌, ◌<◌, ◌∷◌, ◌++◌, [], true, length, IfOk, OnOk};
ghost use Rattle.std.specs.Prelude.{decimal, slice_get, option_map};
ghost use Rattle.serde_json.specs.View.{view};
ghost use Rattle.civil_dates.specs.DateText.{date_text};
ghost use Rattle.civil_dates.specs.Days.{is_day};
ghost use Rattle.field_forms.specs.TextLists.{texts_data, array_text};
ghost use Rattle.field_forms.specs.ValueTexts.{chosen_names, IsInside, IsTextOf};

use crate::number_text::number_text;
use civil_dates::date_text;
use field_values::memory::Memory;
use field_values::names::Names;
use field_values::numbers::ChoiceNo;
use field_values::text::Text;
use field_values::value::Value;
use serde_json::Value as Json;
use std::alloc::Global;

/// The texts as a JSON array.
fn text_array(alloc: Global, texts: &[Text]) -> Result<Json, Memory>
    ensures { IfOk result (λ v. view v ≡ texts_data texts.now) }
{
    let mut items = Vec::new(alloc);
    for text in texts {
        items.push(Json::try_from_str(alloc, text.as_str())?)?;
    }
    Ok(Json::Array(items))
}

/// The text of the JSON array of these texts.
#[tactic(auto, using(crate::proofs::Floats::array_without_floats), unfolding(crate::specs::TextLists::array_text))]
fn array_text(alloc: Global, texts: &[Text]) -> Result<Text, Memory>
    ensures { IfOk result (λ text. text ≡ array_text texts.now) }
{
    let array = text_array(alloc, texts)?;
    Ok(Text::of(array.to_string(alloc)?))
}

/// The name at a place.
fn name_at(alloc: Global, names: &[Text], place: u16) -> Result<Text, Memory>
    requires { place < length names.now }
    ensures { IfOk result (λ text. Some text ≡ slice_get names.now place) }
{
    names[usize::from(place)].copy(alloc)
}

/// The name of a choice, where it has one.
fn chosen_name(names: &[Text], choice: ChoiceNo) -> Option<&Text>
    ensures { option_map (λ name. name.now) result ≡ slice_get names.now choice.0 }
{
    names.get(usize::from(choice.0))
}

/// Puts the name of a choice, where it has one, behind the others.
fn put_chosen(
    alloc: Global,
    names: &[Text],
    choice: ChoiceNo,
    chosen: &mut Names,
) -> Result<(), Memory>
    ensures { OnOk result (chosen.new ≡ chosen.old ++ chosen_names names.now (choice ∷ [])) }
{
    let Some(name) = chosen_name(names, choice) else {
        return Ok(());
    };
    chosen.push(name.copy(alloc)?)
}

/// The names of the choices in their order. A set that fits its field is read back from them.
pub fn chosen_names(alloc: Global, names: &[Text], choices: &[ChoiceNo]) -> Result<Names, Memory>
    ensures { IfOk result (λ chosen. chosen ≡ chosen_names names.now choices.now) }
{
    let mut chosen = Names::new(alloc);
    for choice in choices {
        put_chosen(alloc, names, *choice, &mut chosen)?;
    }
    Ok(chosen)
}

/// The text of a day, as yyyy-MM-dd.
fn day_text(alloc: Global, day: i32) -> Result<Text, Memory>
    requires { is_day day ≡ true }
    ensures { IfOk result (λ text. text ≡ date_text day) }
{
    Ok(Text::of(date_text(alloc, day)?))
}

fn sprint_text(alloc: Global, number: u32) -> Result<Text, Memory>
    ensures { IfOk result (λ text. text ≡ decimal number) }
{
    Ok(Text::of(format!(in alloc; "{number}")?))
}

/// The text of a value that may stand in a field of some form.
pub(crate) fn value_text(alloc: Global, names: &[Text], value: &Value) -> Result<Text, Memory>
    requires choice { IsInside names.now value.now }
    requires some { value.now ≢ Value.Empty }
    ensures { IfOk result (IsTextOf names.now value.now) }
{
    match value {
        Value::Empty => unreachable!(),
        Value::Text(text) => text.copy(alloc),
        Value::Number(number) => number_text(alloc, *number),
        Value::Choice(choice) => name_at(alloc, names, choice.0),
        Value::User(user) => name_at(alloc, names, user.0),
        Value::Date(day) => day_text(alloc, day.0),
        Value::Set(choices) => {
            let chosen = chosen_names(alloc, names, choices.as_slice())?;
            array_text(alloc, chosen.as_slice())
        }
        Value::Labels(labels) => array_text(alloc, labels.as_slice()),
        Value::Sprint(sprint) => sprint_text(alloc, sprint.0),
    }
}

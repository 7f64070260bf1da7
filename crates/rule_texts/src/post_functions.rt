// The texts of post functions.
ghost use Rattle.std.specs.Prelude.{◌≡◌, ◌++◌, ◌∷◌, codes, true, IfOk};
ghost use Rattle.field_forms.specs.Known.{choices_of, fits};
ghost use Rattle.field_forms.specs.SoundRules.{post_is_sound};
ghost use Rattle.fields.specs.SetupParts.{names};
ghost use Rattle.fields.specs.Naming.{name_at, field_name};
ghost use Rattle.rule_texts.specs.RuleTexts.{value_text, post_text};

use crate::named::named;
use field_values::memory::Memory;
use field_values::numbers::{ChoiceNo, FieldNo};
use field_values::rules::PostFunction;
use field_values::text::Text;
use field_values::value::Value;
use fields::Setup;
use std::alloc::Global;

/// The text of a value that fits a field.
#[tactic(auto, using(crate::proofs::Texts::made_is))]
fn value_text(alloc: Global, setup: &Setup, field: FieldNo, value: &Value) -> Result<Text, Memory>
    requires { fits (names setup.now) field.0 value.now ≡ true }
    ensures { IfOk result
        (λ text. text ≡ value_text (choices_of (names setup.now) field.0) value.now) }
{
    match value {
        Value::Empty => Text::copy_of(alloc, "[]"),
        _ => setup.text_of(alloc, field, value),
    }
}

fn resolution_name(setup: &Setup, resolution: ChoiceNo) -> &str
    ensures { result.now ≡ name_at (names setup.now).resolutions resolution.0 }
{
    match setup.resolutions.as_slice().get(usize::from(resolution.0)) {
        Some(name) => name.as_str(),
        None => "",
    }
}

/// What sets a field to a value.
fn set_text(alloc: Global, setup: &Setup, field: FieldNo, value: &Value) -> Result<Text, Memory>
    requires { fits (names setup.now) field.0 value.now ≡ true }
    ensures { IfOk result (λ text. text
        ≡ codes "set:" ++ (field_name setup.now.field field.0
        ++ 61 ∷ value_text (choices_of (names setup.now) field.0) value.now)) }
{
    let name = setup.field_name(field);
    let value = value_text(alloc, setup, field, value)?;
    let text = value.as_str();
    Ok(Text::of(format!(in alloc; "set:{name}={text}")?))
}

/// The text of a post function, which states it.
#[tactic(auto, unfolding(crate::specs::RuleTexts::post_text))]
pub fn post_text(alloc: Global, setup: &Setup, post: &PostFunction) -> Result<Text, Memory>
    requires { post_is_sound (names setup.now) post.now ≡ true }
    ensures { IfOk result (λ text. text ≡ post_text (names setup.now) post.now) }
{
    match post {
        PostFunction::Set(field, value) => set_text(alloc, setup, *field, value),
        PostFunction::Clear(field) => named(alloc, "clear:", setup.field_name(*field)),
        PostFunction::AssignCaller => Text::copy_of(alloc, "assign:caller"),
        PostFunction::AssignReporter => Text::copy_of(alloc, "assign:reporter"),
        PostFunction::AssignLead => Text::copy_of(alloc, "assign:lead"),
        PostFunction::Resolution(resolution) => {
            named(alloc, "resolution:", resolution_name(setup, *resolution))
        }
    }
}

// The texts of validators.
ghost use Rattle.std.specs.Prelude.{◌≡◌, IfOk};
ghost use Rattle.fields.specs.SetupParts.{names};
ghost use Rattle.rule_texts.specs.RuleTexts.{validator_text};

use crate::named::named;
use field_forms::rule_text::permission_name;
use field_values::memory::Memory;
use field_values::rules::Validator;
use field_values::text::Text;
use fields::Setup;
use std::alloc::Global;

/// The text of a validator, which states it.
#[tactic(auto, unfolding(crate::specs::RuleTexts::validator_text))]
pub fn validator_text(alloc: Global, setup: &Setup, validator: Validator) -> Result<Text, Memory>
    ensures { IfOk result (λ text. text ≡ validator_text (names setup.now) validator) }
{
    match validator {
        Validator::Due => Text::copy_of(alloc, "due"),
        Validator::Required(field) => named(alloc, "required:", setup.field_name(field)),
        Validator::Changed(field) => named(alloc, "changed:", setup.field_name(field)),
        Validator::Permission(permission) => {
            named(alloc, "permission:", permission_name(permission))
        }
    }
}

// The rules of transitions, each stated by a text.
ghost use Rattle.std.specs.Prelude.{◌≡◌, ℕ, IfOk, List, Option};
ghost use Rattle.std.specs.List.{filter_map};
ghost use Rattle.setup_drafts.specs.Faults.{Answers};
ghost use Rattle.field_forms.specs.Known.{Names, names_of, AreFew};
ghost use Rattle.field_forms.specs.Rules.{condition_of, validator_of, post_of};
ghost use Rattle.setup_reading.specs.Resolving.{first_over, no_rule};

use field_forms::known::Known;
use field_forms::rule_text::{condition_of, post_of, validator_of};
use field_values::memory::Memory;
use field_values::rules::{Condition, PostFunction, Validator};
use field_values::sequence::Sequence;
use field_values::text::Text;
use setup_drafts::fault::SetupFault;
use std::alloc::Global;

/// A rule that a text states.
pub(crate) trait Rule: Drop {
    /// The rule that a text states by these names, if it states one.
    ghost stated: { Names → List ℕ → Option Self };

    /// The rule that the text states; `None` where it states none.
    fn of(alloc: Global, known: &Known<'_>, text: &str) -> Result<Option<Self>, Memory>
        requires { AreFew (names_of known.now) }
        ensures { IfOk result (λ rule. rule ≡ stated (names_of known.now) text.now) };
}

impl Rule for Condition {
    ghost stated = { condition_of };

    fn of(alloc: Global, known: &Known<'_>, text: &str) -> Result<Option<Condition>, Memory> {
        condition_of(alloc, known, text)
    }
}

impl Rule for Validator {
    ghost stated = { validator_of };

    fn of(_: Global, known: &Known<'_>, text: &str) -> Result<Option<Validator>, Memory> {
        Ok(validator_of(known, text))
    }
}

impl Rule for PostFunction {
    ghost stated = { post_of };

    fn of(alloc: Global, known: &Known<'_>, text: &str) -> Result<Option<PostFunction>, Memory> {
        post_of(alloc, known, text)
    }
}

/// The rules that the texts state, or the first text that states none.
pub(crate) fn rules_of<T: Rule>(
    alloc: Global,
    known: &Known<'_>,
    texts: &[Text],
) -> Result<Sequence<T>, SetupFault>
    requires { AreFew (names_of known.now) }
    ensures { Answers (first_over (no_rule (T.stated (names_of known.now))) texts.now)
        (filter_map (T.stated (names_of known.now)) texts.now) result }
{
    let mut rules = Sequence::new(alloc);
    for text in texts {
        let Some(rule) = T::of(alloc, known, text.as_str())? else {
            return Err(SetupFault::bad_value(alloc, text.as_str()));
        };
        rules.push(rule)?;
    }
    Ok(rules)
}

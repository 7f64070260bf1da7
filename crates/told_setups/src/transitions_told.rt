// Transitions, with their rules in their texts.
ghost use Rattle.std.specs.Prelude.{◌≡◌, true, IfOk, map};
ghost use Rattle.std.specs.List.{list_all};
ghost use Rattle.field_forms.specs.SoundRules.{post_is_sound, rules_are_sound};
ghost use Rattle.fields.specs.SetupParts.{names};
ghost use Rattle.rule_texts.specs.RuleTexts.{condition_text, validator_text, post_text};
ghost use Rattle.told_setups.specs.Told.{status_name, told_transition};

use crate::statuses_told::status_name;
use fields::{
    ChoiceNo, Condition, Memory, Names, PostFunction, Setup, Text, Transition, Validator,
};
use rule_texts::{condition_text, post_text, validator_text};
use std::alloc::Global;
use tracker_calls::{ToldText, ToldTransition, ToldTransitions};

/// The transitions, with their rules in their texts.
pub fn told_transitions(alloc: Global, setup: &Setup) -> Result<ToldTransitions, Memory>
    ensures { IfOk result (λ told. told
        ≡ map (told_transition (names setup.now)) setup.now.transition) }
{
    each_transition(alloc, setup, setup.transition.as_slice())
}

fn each_transition(
    alloc: Global,
    setup: &Setup,
    transitions: &[Transition],
) -> Result<ToldTransitions, Memory>
    requires { list_all (rules_are_sound (names setup.now)) transitions.now ≡ true }
    ensures { IfOk result
        (λ told. told ≡ map (told_transition (names setup.now)) transitions.now) }
{
    let mut told = ToldTransitions::new(alloc);
    for transition in transitions {
        told.push(told_transition(alloc, setup, transition)?)?;
    }
    Ok(told)
}

fn told_transition(
    alloc: Global,
    setup: &Setup,
    transition: &Transition,
) -> Result<ToldTransition, Memory>
    requires { rules_are_sound (names setup.now) transition.now ≡ true }
    ensures { IfOk result (λ told. told ≡ told_transition (names setup.now) transition.now) }
{
    let conditions = condition_texts(alloc, setup, transition.conditions.as_slice())?;
    let from = status_names(alloc, setup, transition.from.as_slice())?;
    let post = post_texts(alloc, setup, transition.post.as_slice())?;
    let validators = validator_texts(alloc, setup, transition.validators.as_slice())?;
    let to = ToldText::copy_of(alloc, status_name(setup, transition.to))?;
    let name = ToldText::copy_of(alloc, transition.name.as_str())?;
    Ok(ToldTransition {
        conditions,
        from,
        post,
        to,
        transition: name,
        validators,
    })
}

fn condition_texts(alloc: Global, setup: &Setup, conditions: &[Condition]) -> Result<Names, Memory>
    ensures { IfOk result
        (λ told. told ≡ map (condition_text (names setup.now)) conditions.now) }
{
    let mut told = Names::new(alloc);
    for condition in conditions {
        told.push(condition_text(alloc, setup, condition)?)?;
    }
    Ok(told)
}

fn status_names(alloc: Global, setup: &Setup, statuses: &[ChoiceNo]) -> Result<Names, Memory>
    ensures { IfOk result (λ told. told ≡ map (status_name (names setup.now)) statuses.now) }
{
    let mut told = Names::new(alloc);
    for status in statuses {
        told.push(Text::copy_of(alloc, status_name(setup, *status))?)?;
    }
    Ok(told)
}

fn post_texts(alloc: Global, setup: &Setup, functions: &[PostFunction]) -> Result<Names, Memory>
    requires { list_all (post_is_sound (names setup.now)) functions.now ≡ true }
    ensures { IfOk result (λ told. told ≡ map (post_text (names setup.now)) functions.now) }
{
    let mut told = Names::new(alloc);
    for function in functions {
        told.push(post_text(alloc, setup, function)?)?;
    }
    Ok(told)
}

fn validator_texts(alloc: Global, setup: &Setup, validators: &[Validator]) -> Result<Names, Memory>
    ensures { IfOk result
        (λ told. told ≡ map (validator_text (names setup.now)) validators.now) }
{
    let mut told = Names::new(alloc);
    for validator in validators {
        told.push(validator_text(alloc, setup, *validator)?)?;
    }
    Ok(told)
}

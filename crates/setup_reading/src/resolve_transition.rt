// Transitions of the setup with their rules.
ghost use Rattle.std.specs.Prelude.{◌≡◌, [], ◌∷◌, map, OnOk};
ghost use Rattle.std.specs.List.{filter_map};
ghost use Rattle.setup_drafts.specs.Faults.{Answers, Tells, first_of};
ghost use Rattle.field_forms.specs.Known.{names_of, AreFew};
ghost use Rattle.field_forms.specs.Rules.{condition_of, validator_of, post_of};
ghost use Rattle.setup_reading.specs.Resolving.{first_over, no_rule, transition_unknown};
ghost use Rattle.setup_reading.specs.Resolving.{transition_resolved};

use crate::resolve::{choice_in, choices_in};
use crate::rules::rules_of;
use field_forms::known::Known;
use field_values::parts::Transition;
use field_values::sequence::Sequence;
use setup_drafts::draft::transition::TransitionDraft;
use setup_drafts::fault::SetupFault;
use std::alloc::Global;

/// Reads the rules that the draft states.
fn resolve_rules(
    alloc: Global,
    known: &Known<'_>,
    draft: &TransitionDraft,
    transition: &mut Transition,
) -> Result<(), SetupFault>
    requires { AreFew (names_of known.now) }
    ensures told { Tells (first_of
        (first_over (no_rule (condition_of (names_of known.now))) draft.now.conditions
        ∷ first_over (no_rule (validator_of (names_of known.now))) draft.now.validators
        ∷ first_over (no_rule (post_of (names_of known.now))) draft.now.post
        ∷ [])) result }
    ensures resolved { OnOk result (transition.new ≡ record transition.old {
      conditions = filter_map (condition_of (names_of known.now)) draft.now.conditions;
      validators = filter_map (validator_of (names_of known.now)) draft.now.validators;
      post = filter_map (post_of (names_of known.now)) draft.now.post;
    }) }
{
    transition.conditions = rules_of(alloc, known, draft.conditions.as_slice())?;
    transition.validators = rules_of(alloc, known, draft.validators.as_slice())?;
    transition.post = rules_of(alloc, known, draft.post.as_slice())?;
    Ok(())
}

#[tactic(auto, unfolding(crate::specs::Resolving::transition_unknown, crate::specs::Resolving::transition_resolved))]
fn resolve_transition(
    alloc: Global,
    known: &Known<'_>,
    draft: &TransitionDraft,
) -> Result<Transition, SetupFault>
    requires { AreFew (names_of known.now) }
    ensures { Answers (transition_unknown (names_of known.now) draft.now)
        (transition_resolved (names_of known.now) draft.now) result }
{
    let from = choices_in(alloc, known.statuses, draft.from.as_slice())?;
    let to = choice_in(alloc, known.statuses, draft.to.as_str())?;
    let mut transition = Transition {
        name: draft.name.copy(alloc)?,
        from,
        to,
        conditions: Sequence::new(alloc),
        validators: Sequence::new(alloc),
        post: Sequence::new(alloc),
    };
    resolve_rules(alloc, known, draft, &mut transition)?;
    Ok(transition)
}

/// The transitions with the numbers of their statuses and with their rules.
pub(crate) fn resolve_transitions(
    alloc: Global,
    known: &Known<'_>,
    drafts: &[TransitionDraft],
) -> Result<Sequence<Transition>, SetupFault>
    requires { AreFew (names_of known.now) }
    ensures { Answers (first_over (transition_unknown (names_of known.now)) drafts.now)
        (map (transition_resolved (names_of known.now)) drafts.now) result }
{
    let mut transitions = Sequence::new(alloc);
    for draft in drafts {
        transitions.push(resolve_transition(alloc, known, draft)?)?;
    }
    Ok(transitions)
}

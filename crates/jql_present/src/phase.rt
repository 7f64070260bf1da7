// How far a sprint has come.
ghost use Rattle.std.specs.Prelude.{◌≡◌};
ghost use Rattle.jql_meaning.specs.Surroundings.{surroundings_of, phase_of, is_phase, is_in_phase};

use field_values::SprintNo;
use jql_bound::{Context, Phase};

/// Whether a sprint is in that phase.
pub fn is_in_phase(context: &Context, phase: Phase, sprint: SprintNo) -> bool
    ensures { result ≡ is_in_phase phase (phase_of (surroundings_of context.now) sprint) }
{
    if sprint.0 == 0 {
        return false;
    }
    match context.sprints.get(sprint.0 as usize - 1) {
        Some(other) => is_phase(phase, *other),
        None => false,
    }
}

fn is_phase(phase: Phase, other: Phase) -> bool
    ensures { result ≡ is_phase phase other }
{
    match (phase, other) {
        (Phase::Future, Phase::Future) => true,
        (Phase::Active, Phase::Active) => true,
        (Phase::Closed, Phase::Closed) => true,
        _ => false,
    }
}

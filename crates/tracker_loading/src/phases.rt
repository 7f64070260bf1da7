//! What queries ask of beside issues, where these sprints were made.
ghost use Rattle.std.specs.Prelude.{◌≡◌, map, IfOk};
ghost use Rattle.fields.specs.SetupParts.{parts};
ghost use Rattle.jql_meaning.specs.Surroundings.{surroundings_of};
ghost use Rattle.tracker_machine.specs.Search.{surroundings_in};
ghost use Rattle.tracker_machine.specs.SprintRules.{phase_of};

use field_values::{Memory, SprintNo};
use fields::Setup;
use jql_bound::{Context, Phase};
use sprints::Sprints;
use std::alloc::Global;
use tracker_setting::context_with;
use tracker_state::phase_of;

/// What queries ask of the setup, and of these sprints.
pub(crate) fn context_of(alloc: Global, setup: &Setup, sprints: &Sprints) -> Result<Context, Memory>
    ensures { IfOk result (λ context. surroundings_of context
        ≡ surroundings_in (parts setup.now) sprints.now.sprints) }
{
    let phases = phases_of(alloc, sprints)?;
    context_with(alloc, setup, phases)
}

// How far each sprint is, by number.
fn phases_of(alloc: Global, sprints: &Sprints) -> Result<Vec<Phase>, Memory>
    ensures { IfOk result (λ phases. phases.items
        ≡ map (λ s. phase_of s.state) sprints.now.sprints) }
{
    let mut phases = Vec::new(alloc);
    for place in 0..sprints.count() {
        let Some(state) = sprints.state(SprintNo(place + 1)) else {
            unreachable!()
        };
        phases.push(phase_of(&state))?;
    }
    Ok(phases)
}

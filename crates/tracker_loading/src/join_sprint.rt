//! A sprint that is read.
ghost use Rattle.std.specs.Prelude.{◌≡◌, ◌<◌, ◌++◌, ◌∷◌, ◌↔◌, [], true, false, length, IfOk, IsTrue};
ghost use Rattle.tracker_limits.specs.Limits.{most_sprints};
ghost use Rattle.sprints.specs.Sprint.{HasRoomForOne};
ghost use Rattle.tracker_machine.specs.SprintRules.{IsTimely};
ghost use Rattle.tracker_rows.specs.Rules.{MayBeSprint};

use crate::making::Making;
use field_values::{Memory, Moment, SprintNo};
use sprints::{Sprint, SprintState, Sprints};
use tracker_limits::MOST_SPRINTS;

impl Making {
    /// Adds a sprint behind the others, or answers false exactly where it breaks a rule.
    pub(crate) fn join_sprint(&mut self, no: SprintNo, sprint: Sprint) -> Result<bool, Memory>
        ensures good { IfOk result (λ good. good ≡ true → MayBeSprint self.old no.0 sprint
            × (self.new ≡ record self.old { sprints = self.old.sprints ++ sprint ∷ [] })) }
        ensures bad { IfOk result (λ good. good ≡ false → ¬ (MayBeSprint self.old no.0 sprint)) }
    {
        let count = self.sprints.count();
        if count >= MOST_SPRINTS {
            return Ok(false);
        }
        if no.0 != count + 1 {
            return Ok(false);
        }
        if !is_timely(&sprint.state, self.moment, self.change) {
            return Ok(false);
        }
        self.sprints.reserve()?;
        put_sprint(&mut self.sprints, sprint);
        Ok(true)
    }
}

// Whether nothing of a sprint of this state is later than now, and its close isn't before its start.
fn is_timely(state: &SprintState, moment: Moment, change: u64) -> bool
    ensures { IsTrue result ↔ IsTimely moment change state.now }
{
    match *state {
        SprintState::Future => true,
        SprintState::Active { at, change: number } => at <= moment && number <= change,
        SprintState::Closed {
            start_at,
            start_change,
            at,
            change: number,
        } => start_at <= at && start_change <= number && at <= moment && number <= change,
    }
}

/// Puts a sprint behind the others. It takes no memory.
fn put_sprint(sprints: &mut Sprints, sprint: Sprint)
    requires room { HasRoomForOne sprints.old }
    requires few { length sprints.old.sprints < most_sprints }
    ensures { sprints.new.sprints ≡ sprints.old.sprints ++ sprint ∷ [] }
{
    let Sprint { name, state } = sprint;
    let Ok(no) = sprints.create(name) else {
        unreachable!()
    };
    sprints.turn(no, state);
}

//! Sprints that are made, start and are closed.
ghost use Rattle.std.specs.Prelude.{◌≡◌, ◌+◌, ◌↔◌, ℕ, length, IfOk, IfErr, Err};
ghost use Rattle.tracker_limits.specs.Limits.{most_sprints};
ghost use Rattle.sprints.specs.Sprint.{IsThere};
ghost use Rattle.sprints.specs.State.{IsNextState};
ghost use Rattle.tracker_work.specs.Seen.{state_in, with_sprint, with_state};
ghost use Rattle.tracker_work.specs.Work.{HasRoomForSprint, HasSameRoom};

use crate::work::Work;
use burndown::laws::steps_of_histories;
use field_values::{SprintNo, Text};
use sprints::{SprintFault, SprintState};

impl Work {
    /// Makes a future sprint of this name, with the next number. `Full` comes exactly at 1,000 sprints, and there is no other fault.
    /// After it all is as before. It takes no memory.
    pub fn make(&mut self, name: Text) -> Result<SprintNo, SprintFault>
        requires { HasRoomForSprint self.old }
        ensures number { IfOk result (λ sprint. sprint.0 ≡ length self.old.seen.sprints + 1) }
        ensures made { IfOk result (λ _.
            self.new ≡ record self.old {
              seen = with_sprint self.old.seen name;
              room = self.new.room;
            }) }
        ensures full { (result ≡ Err SprintFault.Full) ↔ (length self.old.seen.sprints ≡ most_sprints) }
        ensures refused { IfErr result (λ fault.
            (fault ≡ SprintFault.Full) × (self.new ≡ self.old)) }
    {
        // The proof needs that there are at most 1,000.
        let _count = self.sprints.count();
        self.sprints.create(name)
    }

    /// Has a sprint come to the state that follows on its own, after the last change group. It takes no memory.
    pub fn turn(&mut self, sprint: SprintNo, state: SprintState)
        requires there { IsThere self.old.seen.sprints sprint.0 }
        requires next { (at : ℕ) × IsNextState at self.old.seen.change
            (state_in self.old.seen.sprints sprint.0) state }
        ensures turned { self.new.seen ≡ with_state self.old.seen sprint.0 state }
        ensures room { HasSameRoom self.old self.new }
    {
        steps_of_histories();
        self.sprints.turn(sprint, state);
        match &state {
            SprintState::Future => unreachable!(),
            SprintState::Active { .. } => self.burndown.begin(sprint),
            SprintState::Closed { .. } => self.burndown.end(sprint),
        }
    }
}

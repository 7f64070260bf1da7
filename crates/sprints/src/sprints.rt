//! All sprints of a tracker.
ghost use Rattle.std.specs.Prelude.{◌≡◌, ◌+◌, ◌↔◌, ◌<◌, ◌≤◌, [], ◌∷◌, ◌++◌, length, IfOk, OnOk, OnErr, IsOk, IsSome, option_copied};
ghost use Rattle.tracker_limits.specs.Limits.{most_sprints};
ghost use Rattle.sprints.specs.Sprint.{HasRoomForOne, IsThere, future, sprint_of, state_of, name_of};
ghost use Rattle.sprints.specs.Change.{IsInState};

use crate::sprint::Sprint;
use crate::state::{SprintFault, SprintState};
use field_values::{Memory, SprintNo, Text};
use std::alloc::Global;
use std::marker::Model;
use tracker_limits::MOST_SPRINTS;

/// The sprints, numbered from 1 in order of creation.
///
/// Contracts see the list of name and state, and beside it how many sprints there is room for.
#[derive(Drop)]
pub struct Sprints {
    list: Vec<Sprint>,
}

impl Model for Sprints {
    ghost use Rattle.std.specs.Prelude.{◌≤◌, vec_len, vec_capacity};
    ghost use Rattle.tracker_limits.specs.Limits.{most_sprints};
    ghost use Rattle.sprints.specs.Sprint.{SprintList};

    ghost Value = { SprintList };

    ghost view = { λ s. record { sprints = s.list.items; room = vec_capacity s.list } };

    ghost invariant = { λ s. vec_len s.list ≤ most_sprints };
}

impl Sprints {
    /// No sprint.
    pub fn empty(alloc: Global) -> Sprints
        ensures { result ≡ record { sprints = []; room = 0 } }
    {
        Sprints {
            list: Vec::new(alloc),
        }
    }

    /// Makes room for one more sprint, or leaves all as it is.
    pub fn reserve(&mut self) -> Result<(), Memory>
        ensures room { OnOk result (HasRoomForOne self.new) }
        ensures more { OnOk result (self.old.room ≤ self.new.room) }
        ensures same { OnOk result (self.new ≡ record self.old { room = self.new.room }) }
        ensures err { OnErr result (self.new ≡ self.old) }
    {
        self.list.reserve(1)?;
        Ok(())
    }

    /// Makes a future sprint of this name, with the next number. `Full` comes exactly where there are as many as there may be, and where room was made there
    /// is no other fault. After a fault all is as before.
    pub fn create(&mut self, name: Text) -> Result<SprintNo, SprintFault>
        ensures created { IfOk result (λ sprint. (sprint.0 ≡ length self.old.sprints + 1)
            × (self.new.sprints ≡ self.old.sprints ++ future name ∷ [])) }
        ensures full { (result ≡ Err SprintFault.Full) ↔ (length self.old.sprints ≡ most_sprints) }
        ensures refused { OnErr result (self.new ≡ self.old) }
        ensures reserved { HasRoomForOne self.old → length self.old.sprints < most_sprints → IsOk result }
        ensures more { self.old.room ≤ self.new.room }
    {
        if self.list.len() == MOST_SPRINTS as usize {
            return Err(SprintFault::Full);
        }
        let Ok(()) = self.list.reserve(1) else {
            return Err(SprintFault::Memory);
        };
        let state = SprintState::Future;
        self.list.push_reserved(Sprint { name, state });
        Ok(SprintNo(self.list.len() as u32))
    }

    /// Has a sprint that is there come to this state; other sprints and all room stand. It takes no memory.
    pub fn turn(&mut self, sprint: SprintNo, state: SprintState)
        requires { IsThere self.old.sprints sprint.0 }
        ensures turned { IsInState self.old.sprints self.new.sprints sprint.0 state }
        ensures room { self.new.room ≡ self.old.room }
    {
        let kept = &mut self.list[(sprint.0 - 1) as usize];
        kept.state = state;
    }

    /// The sprint's state; `None` exactly for a number that isn't there.
    pub fn state(&self, sprint: SprintNo) -> Option<SprintState>
        ensures state { result ≡ state_of self.now.sprints sprint.0 }
        ensures there { IsSome result ↔ IsThere self.now.sprints sprint.0 }
    {
        let kept = self.sprint(sprint)?;
        Some(kept.state)
    }

    /// The sprint's name; `None` exactly for a number that isn't there.
    pub fn name(&self, sprint: SprintNo) -> Option<&Text>
        ensures name { option_copied result ≡ name_of self.now.sprints sprint.0 }
        ensures there { IsSome result ↔ IsThere self.now.sprints sprint.0 }
    {
        let kept = self.sprint(sprint)?;
        Some(&kept.name)
    }

    /// The number of sprints.
    pub fn count(&self) -> u32
        ensures number { result ≡ length self.now.sprints }
        ensures most { result ≤ most_sprints }
    {
        self.list.len() as u32
    }

    fn sprint(&self, sprint: SprintNo) -> Option<&Sprint>
        ensures sprint { option_copied result ≡ sprint_of self.now.sprints sprint.0 }
        ensures there { IsSome result ↔ IsThere self.now.sprints sprint.0 }
    {
        if sprint.0 == 0 {
            return None;
        }
        self.list.get((sprint.0 - 1) as usize)
    }
}

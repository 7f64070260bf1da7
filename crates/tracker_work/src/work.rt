//! The sprints, and what remains of each. `steps_of_histories` does nothing: it tells the proof the laws of burndowns.
ghost use Rattle.std.specs.Prelude.{◌≡◌, ◌≤◌, ◌+◌, ◌↔◌, [], ℕ, length, IfOk, OnOk, IfSome, IsSome, option_copied};
ghost use Rattle.tracker_limits.specs.Limits.{most_sprints};
ghost use Rattle.sprints.specs.Sprint.{IsThere, state_of, name_of};
ghost use Rattle.burndown.specs.Burndown.{IsRising, total_in};
ghost use Rattle.burndown.specs.Chart.{IsPast};
ghost use Rattle.tracker_work.specs.Seen.{done_of, sprint_start, sprint_left, sprint_rows};
ghost use Rattle.tracker_work.specs.Work.{OnlyRoomGrows, HasRoomForSprint, HasRoomFor};

use crate::shares::done_of;
use burndown::laws::steps_of_histories;
use burndown::{BurnRow, Burndown};
use change_history::Issue;
use field_values::{Memory, SprintNo, Status, Text};
use sprints::{SprintState, Sprints};
use std::alloc::Global;
use std::marker::Model;
use std::snapshot::Snapshot;

/// The sprints, and what remains of each.
///
/// Contracts see it beside the histories that it has seen and the number of their last change group, of which nothing is kept when
/// the program runs.
pub struct Work {
    pub(crate) sprints: Sprints,
    pub(crate) burndown: Burndown,
    // For each status, whether it is of the category done.
    pub(crate) done: Vec<bool>,
    pub(crate) issues: Snapshot<Vec<Issue>>,
    pub(crate) change: Snapshot<u64>,
}

// Written by hand, so that whoever lets one go makes one call, and its proof takes one step there.
impl Drop for Work {
    fn drop(self) {
        let Work {
            sprints: _,
            burndown: _,
            done: _,
            issues: _,
            change: _,
        } = self;
    }
}

impl Model for Work {
    ghost use Rattle.change_history.specs.History.{histories_of};
    ghost use Rattle.tracker_work.specs.Work.{TrackedWork, IsWork};

    ghost Value = { TrackedWork };

    ghost view = { λ w. record {
      seen = record {
        done = w.done.items;
        sprints = w.sprints.sprints;
        histories = histories_of w.issues.value.items;
        change = w.change.value;
      };
      room = w.sprints.room;
      burndown = w.burndown;
    } };

    ghost invariant = { λ w. IsWork
        (record {
          seen = record {
            done = w.done.items;
            sprints = w.sprints.sprints;
            histories = histories_of w.issues.value.items;
            change = w.change.value;
          };
          room = w.sprints.room;
          burndown = w.burndown;
        }) };
}

impl Work {
    /// No sprint, and nothing seen of issues that may have these statuses.
    pub fn new(alloc: Global, statuses: &[Status]) -> Result<Work, Memory>
        ensures { IfOk result (λ work. work ≡ record {
          seen = record { done = done_of statuses.now; sprints = []; histories = []; change = 0 };
          room = 0;
          burndown = [];
        }) }
    {
        let done = done_of(alloc, statuses)?;
        steps_of_histories();
        let none: Vec<Issue> = Vec::new(alloc);
        let change: u64 = 0;
        Ok(Work {
            sprints: Sprints::empty(alloc),
            burndown: Burndown::empty(alloc),
            done,
            issues: Snapshot::of(&none),
            change: Snapshot::of(&change),
        })
    }

    /// Makes room for one more sprint, or leaves the room as it is.
    pub fn reserve_sprint(&mut self) -> Result<(), Memory>
        ensures room { OnOk result (HasRoomForSprint self.new) }
        ensures stands { OnlyRoomGrows self.old self.new }
    {
        steps_of_histories();
        self.sprints.reserve()?;
        let next = SprintNo(self.sprints.count() + 1);
        self.burndown.reserve(next)
    }

    /// Makes room for a change group of an issue that is in the one sprint before it, and in the other after it, or leaves the room
    /// as it is.
    pub fn reserve_group(
        &mut self,
        before: Option<SprintNo>,
        after: Option<SprintNo>,
    ) -> Result<(), Memory>
        ensures before { OnOk result (HasRoomFor self.new before) }
        ensures after { OnOk result (HasRoomFor self.new after) }
        ensures stands { OnlyRoomGrows self.old self.new }
    {
        self.reserve_row(before)?;
        self.reserve_row(after)
    }

    fn reserve_row(&mut self, sprint: Option<SprintNo>) -> Result<(), Memory>
        ensures room { OnOk result (HasRoomFor self.new sprint) }
        ensures stands { OnlyRoomGrows self.old self.new }
    {
        steps_of_histories();
        match sprint {
            Some(sprint) => self.burndown.reserve(sprint),
            None => Ok(()),
        }
    }

    /// The number of sprints, at most 1,000.
    pub fn count(&self) -> u32
        ensures number { result ≡ length self.now.seen.sprints }
        ensures most { result ≤ most_sprints }
    {
        self.sprints.count()
    }

    /// The sprint's state; `None` exactly for a number that isn't there. Its change numbers are those of groups that were seen.
    pub fn state(&self, sprint: SprintNo) -> Option<SprintState>
        ensures state { result ≡ state_of self.now.seen.sprints sprint.0 }
        ensures there { IsSome result ↔ IsThere self.now.seen.sprints sprint.0 }
        ensures past { IfSome result (IsPast self.now.seen.change) }
    {
        self.sprints.state(sprint)
    }

    /// The sprint's name; `None` exactly for a number that isn't there.
    pub fn name(&self, sprint: SprintNo) -> Option<&Text>
        ensures name { option_copied result ≡ name_of self.now.seen.sprints sprint.0 }
        ensures there { IsSome result ↔ IsThere self.now.seen.sprints sprint.0 }
    {
        self.sprints.name(sprint)
    }

    /// The sprint's rows, the earliest first, lent.
    pub fn rows(&self, sprint: SprintNo) -> &[BurnRow]
        ensures { result.now ≡ sprint_rows self.now.seen sprint.0 }
    {
        self.burndown.rows(sprint)
    }

    /// What remained at the sprint's start, or remains now where it hasn't started.
    pub fn at_start(&self, sprint: SprintNo) -> i64
        ensures { result ≡ sprint_start self.now.seen sprint.0 }
    {
        self.burndown.at_start(sprint)
    }

    /// What remained at the sprint's close, or remains now where it isn't closed.
    pub fn remaining(&self, sprint: SprintNo) -> i64
        ensures { result ≡ sprint_left self.now.seen sprint.0 }
    {
        self.burndown.remaining(sprint)
    }

    /// What `remaining` gives, by the sprints' numbers, which rise. A sprint that isn't listed has 0.
    pub fn totals(&self) -> &[(SprintNo, i64)]
        ensures rising { IsRising result.now }
        ensures remaining { (s : ℕ) → total_in result.now s ≡ sprint_left self.now.seen s }
    {
        self.burndown.totals()
    }
}

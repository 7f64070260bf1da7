//! The burndown of all sprints.
ghost use Rattle.std.specs.Prelude.{◌≡◌, [], ℕ, OnOk, OnErr, IfSome};
ghost use Rattle.burndown.specs.declared.progress.Stage.TheVariants.{Ahead};
ghost use Rattle.burndown.specs.Group.{sprint_before, group_of};
ghost use Rattle.burndown.specs.Course.{IsTotal, IsRunning, after_group, begun, ended, start_of};
ghost use Rattle.burndown.specs.Burndown.{course_of, remaining_of, rows_of, IsReserved, HasRoom, FitsAfter, ChangesOnly, TellsGroup, TellsNamed, GrowsInRoom, IsRising, total_in};

use crate::group::Group;
use crate::places::{insert_reserved, place_of};
use crate::progress::{Progress, Stage};
use crate::share::{BurnRow, Share};
use field_values::{IssueNo, Memory, Moment, SprintNo};
use std::alloc::Global;
use std::marker::Model;

/// What remains of each sprint, in thousandths of points, and which change groups changed it while the sprint was active.
///
/// Contracts see it as a list of sprints, each with its total, its stage, its rows, and the number of rows that there is room for.
#[derive(Drop)]
pub struct Burndown {
    // The sprints that have room, by number.
    totals: Vec<(SprintNo, i64)>,
    // Their stages and rows, in the same order.
    courses: Vec<Progress>,
    alloc: Global,
}

impl Model for Burndown {
    ghost use Rattle.std.specs.Prelude.{List};
    ghost use Rattle.burndown.specs.Tracked.{TrackedSprint};

    ghost Value = { List TrackedSprint };

    ghost use Rattle.burndown.specs.Tracked.{tracked_sprints};
    ghost use Rattle.burndown.specs.Burndown.{IsKept};

    ghost view = { λ b. tracked_sprints b.totals.items b.courses.items };

    ghost invariant = { λ b. IsKept b.totals.items b.courses.items };
}

impl Burndown {
    /// A burndown of no sprint.
    pub fn empty(alloc: Global) -> Burndown
        ensures { result ≡ [] }
    {
        Burndown {
            totals: Vec::new(alloc),
            courses: Vec::new(alloc),
            alloc,
        }
    }

    /// Makes room for this sprint and for one more row of it, or leaves all as it is.
    pub fn reserve(&mut self, sprint: SprintNo) -> Result<(), Memory>
        ensures room { OnOk result (HasRoom self.new sprint.0) }
        ensures stands { OnOk result (GrowsInRoom self.old self.new) }
        ensures err { OnErr result (self.new ≡ self.old) }
    {
        match place_of(&self.totals, sprint) {
            Ok(place) => {
                let progress = &mut self.courses[place];
                progress.rows.reserve(1)?;
                Ok(())
            }
            Err(place) => {
                let progress = Progress::ahead(self.alloc)?;
                self.totals.reserve(1)?;
                self.courses.reserve(1)?;
                insert_reserved(&mut self.totals, place, (sprint, 0));
                insert_reserved(&mut self.courses, place, progress);
                Ok(())
            }
        }
    }

    /// Starts the sprint's rows, and fixes its start as the present total. It takes no memory.
    pub fn begin(&mut self, sprint: SprintNo)
        requires room { IsReserved self.old sprint.0 }
        requires ahead { (course_of self.old sprint.0).stage ≡ Ahead }
        ensures { ChangesOnly self.old self.new sprint.0 (begun (course_of self.old sprint.0)) }
    {
        let Ok(place) = place_of(&self.totals, sprint) else {
            return;
        };
        let start = self.totals[place].1;
        let progress = &mut self.courses[place];
        progress.stage = Stage::Running { start };
    }

    /// Stops the sprint's rows, and keeps its total from then on. It takes no memory.
    pub fn end(&mut self, sprint: SprintNo)
        requires { IsRunning (course_of self.old sprint.0).stage }
        ensures { ChangesOnly self.old self.new sprint.0 (ended (course_of self.old sprint.0)) }
    {
        let Ok(place) = place_of(&self.totals, sprint) else {
            return;
        };
        let progress = &mut self.courses[place];
        progress.stage = progress.stage.after_end();
    }

    /// Takes a change group in: its number and moment, its issue, and the issue's share before, `None` for a creation, and after.
    ///
    /// The total of each sprint that isn't ended loses what the issue counted for and gains what it counts for. A sprint that
    /// is begun and not ended gets a row exactly where its total changes. It takes no memory.
    pub fn row_after(
        &mut self,
        change: u64,
        at: Moment,
        issue: IssueNo,
        before: Option<Share>,
        after: Share,
    )
        requires room_before { IfSome (sprint_before before) (λ s. HasRoom self.old s.0) }
        requires room_after { IfSome after.sprint (λ s. HasRoom self.old s.0) }
        requires total_before { IfSome (sprint_before before)
            (λ s. FitsAfter self.old s.0 (group_of change at issue before after)) }
        requires total_after { IfSome after.sprint
            (λ s. FitsAfter self.old s.0 (group_of change at issue before after)) }
        ensures { TellsGroup self.old self.new (group_of change at issue before after) }
    {
        let group = Group {
            change,
            at,
            issue,
            before,
            after,
        };
        let first = group.first_sprint();
        self.tell_named(first, &group);
        let second = group.second_sprint();
        self.tell_named(second, &group);
    }

    /// The sprint's rows, the earliest first.
    pub fn rows(&self, sprint: SprintNo) -> &[BurnRow]
        ensures { result.now ≡ rows_of self.now sprint.0 }
    {
        match place_of(&self.totals, sprint) {
            Ok(place) => &self.courses[place].rows,
            Err(_) => &[],
        }
    }

    /// The total at the begin, and before it the present total.
    pub fn at_start(&self, sprint: SprintNo) -> i64
        ensures { result ≡ start_of (course_of self.now sprint.0) }
    {
        match place_of(&self.totals, sprint) {
            Ok(place) => self.courses[place].stage.start_or(self.totals[place].1),
            Err(_) => 0,
        }
    }

    /// The total: 0 for a sprint of which nothing was told, and after the end that of the end.
    pub fn remaining(&self, sprint: SprintNo) -> i64
        ensures remaining { result ≡ remaining_of self.now sprint.0 }
        ensures range { IsTotal result }
    {
        match place_of(&self.totals, sprint) {
            Ok(place) => self.totals[place].1,
            Err(_) => 0,
        }
    }

    /// The totals by the sprints' numbers, which rise. A sprint that isn't listed has 0.
    pub fn totals(&self) -> &[(SprintNo, i64)]
        ensures rising { IsRising result.now }
        ensures remaining { (s : ℕ) → total_in result.now s ≡ remaining_of self.now s }
    {
        &self.totals
    }

    /// Has the sprint take the group in, if there is one.
    fn tell_named(&mut self, sprint: Option<SprintNo>, group: &Group)
        requires room { IfSome sprint (λ s. HasRoom self.old s.0) }
        requires totals { IfSome sprint (λ s. FitsAfter self.old s.0 group.now) }
        ensures { TellsNamed self.old self.new sprint group.now }
    {
        if let Some(sprint) = sprint {
            self.tell(sprint, group);
        }
    }

    /// Has the sprint take the group in.
    fn tell(&mut self, sprint: SprintNo, group: &Group)
        requires room { HasRoom self.old sprint.0 }
        requires totals { FitsAfter self.old sprint.0 group.now }
        ensures { ChangesOnly self.old self.new sprint.0
            (after_group sprint.0 group.now (course_of self.old sprint.0)) }
    {
        let Ok(place) = place_of(&self.totals, sprint) else {
            return;
        };
        let total = self.totals[place].1;
        let progress = &mut self.courses[place];
        let left = progress.tell(sprint, total, group);
        self.totals[place] = (sprint, left);
    }
}

//! How far a sprint is, and its rows.
ghost use Rattle.std.specs.Prelude.{◌≡◌, ◌<◌, ◌++◌, IfOk, vec_len, vec_capacity};
ghost use Rattle.burndown.specs.Course.{IsTotal, after_group, row_where_changed, total_after, stage_after_end, start_in};
ghost use Rattle.burndown.specs.Tracked.{course, IsAhead};

use crate::group::Group;
use crate::share::{BurnRow, counted_before};
use field_values::{Memory, SprintNo};
use std::alloc::Global;

/// Whether a sprint has begun and ended, with its total at the begin.
#[derive(Clone, Copy, PartialEq, Eq)]
pub enum Stage {
    Ahead,
    Running { start: i64 },
    Ended { start: i64 },
}

/// What is kept of a sprint beside its total.
#[derive(Drop)]
pub struct Progress {
    pub stage: Stage,
    pub rows: Vec<BurnRow>,
}

impl Progress {
    /// A sprint that is ahead, with room for one row.
    pub(crate) fn ahead(alloc: Global) -> Result<Progress, Memory>
        ensures { IfOk result IsAhead }
    {
        Ok(Progress {
            stage: Stage::Ahead,
            rows: Vec::with_capacity(alloc, 1)?,
        })
    }

    /// Takes a change group in, and answers the total after it.
    pub(crate) fn tell(&mut self, sprint: SprintNo, total: i64, group: &Group) -> i64
        requires room { vec_len self.old.rows < vec_capacity self.old.rows }
        requires total { IsTotal total }
        requires fits { IsTotal (after_group sprint.0 group.now (course total self.old)).total }
        ensures course { course result self.new
            ≡ after_group sprint.0 group.now (course total self.old) }
        ensures room { vec_capacity self.new.rows ≡ vec_capacity self.old.rows }
    {
        if let Stage::Ended { .. } = self.stage {
            return total;
        }
        let left = total_after(sprint, total, group);
        if let Stage::Running { .. } = self.stage {
            self.add_row(total, left, group);
        }
        left
    }

    /// Adds a row where the total changes.
    fn add_row(&mut self, total: i64, left: i64, group: &Group)
        // There is room for a row, so that no memory is taken, and totals are so small that their
        // difference fits.
        requires room { vec_len self.old.rows < vec_capacity self.old.rows }
        requires total { IsTotal total }
        requires left { IsTotal left }
        // A row comes exactly where the group changes what remains, and nothing else changes.
        ensures rows { self.new.rows.items
            ≡ self.old.rows.items ++ row_where_changed group.now total left }
        ensures room { vec_capacity self.new.rows ≡ vec_capacity self.old.rows }
        ensures stage { self.new.stage ≡ self.old.stage }
    {
        if left == total {
            return;
        }
        self.rows.push_reserved(BurnRow {
            at: group.at,
            change: group.change,
            issue: group.issue,
            by: left - total,
            left,
        });
    }
}

/// The total after a change group. A sum on the way may wrap, and the last one fits.
fn total_after(sprint: SprintNo, total: i64, group: &Group) -> i64
    requires { IsTotal (total_after sprint.0 group.now total) }
    ensures { result ≡ total_after sprint.0 group.now total }
{
    let lost = counted_before(&group.before, sprint);
    let gained = group.after.counts_for(sprint);
    total.wrapping_sub(lost).wrapping_add(gained)
}

impl Stage {
    /// The stage after an end.
    pub(crate) fn after_end(self) -> Stage
        ensures { result ≡ stage_after_end self }
    {
        match self {
            Stage::Running { start } => Stage::Ended { start },
            Stage::Ahead | Stage::Ended { .. } => self,
        }
    }

    /// The total at the begin, or this one where there was none.
    pub(crate) fn start_or(self, total: i64) -> i64
        ensures { result ≡ start_in self total }
    {
        match self {
            Stage::Running { start } | Stage::Ended { start } => start,
            Stage::Ahead => total,
        }
    }
}

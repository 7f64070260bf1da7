//! The verdicts of all saved filters on all issues.
ghost use Rattle.std.specs.Prelude.{◌≡◌, ◌≤◌, ◌<◌, ◌+◌, [], true, false, Bool, Option, OnOk, OnErr, IfOk, length};
ghost use Rattle.filter_views.specs.FilterRow.{HasNumber};
ghost use Rattle.filter_views.specs.Cell.{cell_of, filters, is_there, issues_held};
ghost use Rattle.filter_views.specs.Views.{Settles, AddsFilter, AddsIssue, RemovesFilter, IsNextDue, IsHeapOf};
ghost use Rattle.filter_views.specs.Grid.{IsGrid, AreMembers};

use crate::due::Due;
use crate::ends::{reserve_ends, take_ends, write_cell};
use crate::filter_row::FilterRow;
use crate::rows::{add_issue, find, holds_in, insert_row, members_in, ready_row, widen};
use field_values::{FilterNo, IssueNo, Memory, Moment};
use jql_eval::Verdict;
use std::alloc::Global;
use std::marker::Model;

/// What each saved filter says of each issue, and until when.
///
/// Contracts see it as a cell for each filter and issue, with the number of issues, and beside it for how many filters and issues
/// there is room.
#[derive(Drop)]
pub struct FilterViews {
    // The filters' rows, by number.
    rows: Vec<FilterRow>,
    // Rows for filters to come.
    spare: Vec<FilterRow>,
    // The ends of all cells that have one, as a heap, the least first.
    heap: Vec<Due>,
    issues: usize,
    // For how many issues there is room, in each row and in the heap.
    room: usize,
    alloc: Global,
}

impl Model for FilterViews {
    ghost use Rattle.std.specs.Prelude.{vec_capacity};
    ghost use Rattle.filter_views.specs.Cell.{Views};

    ghost Value = { Views };

    ghost use Rattle.filter_views.specs.Fields.{views, IsKept};

    ghost view = { λ v. views v.rows.items v.spare.items v.heap.items v.issues v.room };

    ghost invariant = { λ v. IsKept v.rows.items v.spare.items v.heap.items (vec_capacity v.rows)
        (vec_capacity v.heap) v.issues v.room };
}

impl FilterViews {
    /// No filter and no issue.
    pub fn empty(alloc: Global) -> FilterViews
        ensures { result ≡ record { table = []; issues = 0; filter_room = 0; issue_room = 0 } }
    {
        FilterViews {
            rows: Vec::new(alloc),
            spare: Vec::new(alloc),
            heap: Vec::new(alloc),
            issues: 0,
            room: 0,
            alloc,
        }
    }

    /// Makes room for one more filter over all issues, or leaves all as it is.
    pub fn reserve_filter(&mut self) -> Result<(), Memory>
        ensures room { OnOk result (length self.new.table < self.new.filter_room) }
        ensures more { OnOk result (self.old.filter_room ≤ self.new.filter_room) }
        ensures same { OnOk result (self.new
            ≡ record self.old { filter_room = self.new.filter_room }) }
        ensures err { OnErr result (self.new ≡ self.old) }
    {
        if !self.spare.is_empty() {
            return Ok(());
        }
        let row = ready_row(self.alloc, self.issues, self.room)?;
        self.rows.reserve(1)?;
        reserve_ends(&mut self.heap, self.rows.len() + 1, self.room)?;
        self.spare.push(row)?;
        Ok(())
    }

    /// Makes room for one more issue over all filters, or leaves all as it is.
    pub fn reserve_issue(&mut self) -> Result<(), Memory>
        ensures room { OnOk result (self.new.issues < self.new.issue_room) }
        ensures more { OnOk result (self.old.issue_room ≤ self.new.issue_room) }
        ensures same { OnOk result (self.new
            ≡ record self.old { issue_room = self.new.issue_room }) }
        ensures err { OnErr result (self.new ≡ self.old) }
    {
        if self.issues < self.room {
            return Ok(());
        }
        let most = self.issues + 1;
        widen(&mut self.rows, most)?;
        widen(&mut self.spare, most)?;
        reserve_ends(&mut self.heap, self.rows.len() + self.spare.len(), most)?;
        self.room = most;
        Ok(())
    }

    /// Adds a filter whose cells are false and have no end. It takes no memory.
    pub fn add_filter(&mut self, filter: FilterNo)
        requires room { length self.old.table < self.old.filter_room }
        requires fresh { is_there self.old filter.0 ≡ false }
        ensures { AddsFilter self.old self.new filter.0 }
    {
        let Err(at) = find(&self.rows, filter) else {
            return;
        };
        let Some(mut row) = self.spare.pop() else {
            return;
        };
        row.give_to(filter);
        insert_row(&mut self.rows, at, row);
    }

    /// Adds the next issue, whose cells are false and have no end. It takes no memory.
    pub fn add_issue(&mut self, issue: IssueNo)
        requires room { self.old.issues < self.old.issue_room }
        requires next { issue.0 ≡ self.old.issues + 1 }
        ensures { AddsIssue self.old self.new }
    {
        add_issue(&mut self.rows);
        add_issue(&mut self.spare);
        self.issues = issue.0 as usize;
    }

    /// Takes a filter away with its cells. It takes no memory, and time for the filter's own cells alone.
    pub fn remove_filter(&mut self, filter: FilterNo)
        requires { is_there self.old filter.0 ≡ true }
        ensures { RemovesFilter self.old self.new filter.0 }
    {
        take_ends(&mut self.heap, &mut self.rows, filter, self.issues);
        if let Ok(at) = find(&self.rows, filter) {
            let _row = self.rows.remove(at);
        }
    }

    /// Writes what the filter says of the issue, and until when. No other call writes a cell. It takes no memory, and time for the
    /// depth of the heap.
    pub fn settle(&mut self, filter: FilterNo, issue: IssueNo, verdict: Verdict)
        requires filter { is_there self.old filter.0 ≡ true }
        requires issue { HasNumber issue.0 self.old.issues }
        ensures settled { Settles self.old self.new filter.0 issue.0
            (record { holds = verdict.holds; end = verdict.until }) }
        ensures grid { IsGrid self.new }
    {
        self.write(filter, issue, verdict.holds(), verdict.until());
    }

    /// Writes a cell, as `settle` does.
    pub(crate) fn write(
        &mut self,
        filter: FilterNo,
        issue: IssueNo,
        holds: bool,
        end: Option<Moment>,
    )
        requires filter { is_there self.old filter.0 ≡ true }
        requires issue { HasNumber issue.0 self.old.issues }
        ensures settled { Settles self.old self.new filter.0 issue.0
            (record { holds = holds; end = end }) }
        ensures grid { IsGrid self.new }
    {
        write_cell(&mut self.heap, &mut self.rows, filter, issue, holds, end);
    }

    /// The least end of all cells, with its filter and issue; ends of one moment are in order by filter and then by issue. `None`
    /// exactly where no cell has an end. In constant time.
    pub fn next_due(&self) -> Option<(Moment, FilterNo, IssueNo)>
        ensures next { IsNextDue self.now result }
        ensures grid { IsGrid self.now }
    {
        match self.heap.first() {
            Some(due) => Some((due.end, due.filter, due.issue)),
            None => None,
        }
    }

    /// Whether the filter holds of the issue.
    pub fn holds(&self, filter: FilterNo, issue: IssueNo) -> bool
        ensures { result ≡ (cell_of self.now filter.0 issue.0).holds }
    {
        holds_in(&self.rows, filter, issue)
    }

    /// Puts the issues of which the filter holds, by number, in place of what `room` contained, or leaves it as it is.
    pub fn members(&self, filter: FilterNo, room: &mut Vec<IssueNo>) -> Result<(), Memory>
        ensures members { OnOk result (room.new.items ≡ issues_held self.now filter.0) }
        ensures each { OnOk result (AreMembers self.now filter.0 room.new.items) }
        ensures err { OnErr result (room.new.items ≡ room.old.items) }
        ensures grid { IsGrid self.now }
    {
        room.reserve(self.issues.saturating_sub(room.len()))?;
        room.clear();
        members_in(&self.rows, filter, room);
        Ok(())
    }

    /// The ends of all cells that have one, as a heap: none comes before its parent.
    pub fn heap(&self) -> &[Due]
        ensures { IsHeapOf self.now result.now }
    {
        &self.heap
    }

    /// Whether the filter is there.
    pub(crate) fn is_there(&self, filter: FilterNo) -> bool
        ensures { result ≡ is_there self.now filter.0 }
    {
        match find(&self.rows, filter) {
            Ok(_) => true,
            Err(_) => false,
        }
    }

    /// The number of issues.
    #[cfg(test)]
    pub(crate) fn issues(&self) -> usize
        ensures { result ≡ self.now.issues }
    {
        self.issues
    }
}

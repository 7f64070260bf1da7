//! The rows of all filters, by number.
ghost use Rattle.std.specs.Prelude.{◌≡◌, ◌≤◌, ◌<◌, ◌+◌, ◌^◌, ◌++◌, vec_len, vec_capacity, IfOk, IfErr, OnOk, length, map};
ghost use Rattle.std.specs.List.{insert};
ghost use Rattle.filter_views.specs.FilterRow.{AreRising, IsAt, IsGapFor, IsCell, HasNumber, PutsPlace, row_of, place_in, truth_in};
ghost use Rattle.filter_views.specs.Fields.{AllAreShort, IsReady, AllHaveRoom, PutsTruth, Widen, with_issue, holders_from};

use crate::filter_row::{FilterRow, NO_PLACE};
use field_values::{FilterNo, IssueNo, Memory};
use std::alloc::Global;

/// The place of the filter's row, or the place where it would go.
pub(crate) fn find(rows: &[FilterRow], filter: FilterNo) -> Result<usize, usize>
    requires { AreRising rows.now }
    ensures found { IfOk result (IsAt rows.now filter.0) }
    ensures absent { IfErr result (IsGapFor rows.now filter.0) }
{
    rows.binary_search_by_key(&filter.0, |row| row.filter())
}

/// The place of a cell's end in the heap.
pub(crate) fn place_in(rows: &[FilterRow], filter: FilterNo, issue: IssueNo) -> usize
    requires { AreRising rows.now }
    ensures { result ≡ place_in rows.now filter.0 issue.0 }
{
    match find(rows, filter) {
        Ok(at) => rows[at].place(issue),
        Err(_) => NO_PLACE,
    }
}

/// Whether a filter holds of an issue.
pub(crate) fn holds_in(rows: &[FilterRow], filter: FilterNo, issue: IssueNo) -> bool
    requires { AreRising rows.now }
    ensures { result ≡ truth_in rows.now filter.0 issue.0 }
{
    match find(rows, filter) {
        Ok(at) => rows[at].holds(issue),
        Err(_) => false,
    }
}

/// Writes the place of a cell's end in the heap.
pub(crate) fn set_place(rows: &mut [FilterRow], filter: FilterNo, issue: IssueNo, place: usize)
    requires rising { AreRising rows.old }
    requires there { IsCell rows.old filter.0 issue.0 }
    ensures { PutsPlace rows.old rows.new filter.0 issue.0 place }
{
    if let Ok(at) = find(rows, filter) {
        let row = &mut rows[at];
        row.set_place(issue, place);
    }
}

/// Writes whether a filter holds of an issue.
pub(crate) fn set_truth(rows: &mut [FilterRow], filter: FilterNo, issue: IssueNo, holds: bool)
    requires rising { AreRising rows.old }
    requires there { HasNumber issue.0 (length (row_of rows.old filter.0).truths) }
    ensures { PutsTruth rows.old rows.new filter.0 issue.0 holds }
{
    if let Ok(at) = find(rows, filter) {
        let row = &mut rows[at];
        row.set_truth(issue, holds);
    }
}

/// Adds a cell for the next issue to each row.
pub(crate) fn add_issue(rows: &mut [FilterRow])
    requires { AllAreShort rows.old }
    ensures { rows.new ≡ map with_issue rows.old }
{
    for at in 0..rows.len() {
        let row = &mut rows[at];
        row.add_issue();
    }
}

/// Makes room for this many issues in each row.
pub(crate) fn widen(rows: &mut [FilterRow], most: usize) -> Result<(), Memory>
    ensures same { Widen rows.old rows.new }
    ensures room { OnOk result (AllHaveRoom most rows.new) }
{
    for at in 0..rows.len() {
        let row = &mut rows[at];
        row.reserve(most)?;
    }
    Ok(())
}

/// A row for a filter to come.
pub(crate) fn ready_row(alloc: Global, issues: usize, most: usize) -> Result<FilterRow, Memory>
    ensures { IfOk result (IsReady issues most) }
{
    let mut row = FilterRow::blank(alloc, issues)?;
    row.reserve(most)?;
    Ok(row)
}

/// Puts a row to its place, where there is room for it.
pub(crate) fn insert_row(rows: &mut Vec<FilterRow>, at: usize, row: FilterRow)
    requires place { at ≤ vec_len rows.old }
    requires room { vec_len rows.old < vec_capacity rows.old }
    ensures items { rows.new.items ≡ insert rows.old.items at row }
    ensures capacity { vec_capacity rows.old ≤ vec_capacity rows.new }
{
    rows.insert(at, row).unwrap();
}

/// Adds the issues of which the filter holds to those in `room`, which has room for all.
pub(crate) fn members_in(rows: &[FilterRow], filter: FilterNo, room: &mut Vec<IssueNo>)
    requires rising { AreRising rows.now }
    requires few { length (row_of rows.now filter.0).truths < 2 ^ 32 }
    requires slots { vec_len room.old + length (row_of rows.now filter.0).truths
        ≤ vec_capacity room.old }
    ensures { room.new.items ≡ room.old.items ++ holders_from 1 (row_of rows.now filter.0).truths }
{
    if let Ok(at) = find(rows, filter) {
        rows[at].add_members(room);
    }
}

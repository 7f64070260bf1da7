//! Writing the end of a cell, and keeping the heap of ends in order.
ghost use Rattle.std.specs.Prelude.{◌≡◌, ◌≤◌, ◌<◌, ◌+◌, ◌*◌, ◌-◌, ◌^◌, OnOk, Some, None, Option, length, vec_len, vec_capacity};
ghost use Rattle.filter_views.specs.FilterRow.{HasNumber, IsCell, row_of, place_in};
ghost use Rattle.filter_views.specs.Fields.{WritesCell};
ghost use Rattle.filter_views.specs.Heap.{IsHeap};
ghost use Rattle.filter_views.specs.Agreement.{Agree, PutsEnd, TakesEnds, OnlyMoves, MovesToEnd, DropsLast};

use crate::due::Due;
use crate::filter_row::{FilterRow, NO_PLACE};
use crate::heap::{exchange, mend};
use crate::rows::{place_in, set_place, set_truth};
use field_values::{FilterNo, IssueNo, Memory, Moment};

/// Writes an end over that of its cell. Where it is the same, nothing moves.
fn replace_end(heap: &mut [Due], rows: &mut [FilterRow], due: Due)
    requires agree { Agree heap.old rows.old }
    requires heap { IsHeap heap.old }
    requires there { place_in rows.old due.filter.0 due.issue.0 < length heap.old }
    ensures { PutsEnd heap.old rows.old heap.new rows.new due.filter.0 due.issue.0 (Some due.end) }
{
    let place = place_in(rows, due.filter, due.issue);
    if heap[place].ends_at(due.end) {
        return;
    }
    heap[place] = due;
    mend(heap, rows, place);
}

/// Adds the end of a cell that has none.
fn add_end(heap: &mut Vec<Due>, rows: &mut [FilterRow], due: Due)
    // The heap is in order, and each cell that has an end knows where it stands there.
    requires agree { Agree heap.old.items rows.old }
    requires heap { IsHeap heap.old.items }
    // The cell is there and has no end yet, and there is room for one.
    requires there { IsCell rows.old due.filter.0 due.issue.0 }
    requires none { vec_len heap.old ≤ place_in rows.old due.filter.0 due.issue.0 }
    requires room { vec_len heap.old < vec_capacity heap.old }
    // The cell has this end, the others have theirs, and no memory was taken.
    ensures put { PutsEnd heap.old.items rows.old heap.new.items rows.new due.filter.0 due.issue.0
        (Some due.end) }
    ensures capacity { vec_capacity heap.new ≡ vec_capacity heap.old }
{
    let last = heap.len();
    set_place(rows, due.filter, due.issue, last);
    heap.push_reserved(due);
    mend(heap, rows, last);
}

/// Has the entry at a place change places with the last one.
fn move_to_end(heap: &mut [Due], rows: &mut [FilterRow], place: usize)
    requires place { place < length heap.old }
    requires agree { Agree heap.old rows.old }
    ensures moved { MovesToEnd heap.old heap.new place }
    ensures agree { Agree heap.new rows.new }
    ensures same { OnlyMoves heap.old rows.old heap.new rows.new }
{
    let last = heap.len() - 1;
    if place != last {
        exchange(heap, rows, place, last);
    }
}

/// Takes the last entry away.
fn drop_last(heap: &mut Vec<Due>, rows: &mut [FilterRow])
    requires agree { Agree heap.old.items rows.old }
    requires some { 0 < vec_len heap.old }
    ensures dropped { DropsLast heap.old.items rows.old heap.new.items rows.new }
    ensures capacity { vec_capacity heap.new ≡ vec_capacity heap.old }
{
    if let Some(due) = heap.pop() {
        set_place(rows, due.filter, due.issue, NO_PLACE);
    }
}

/// Takes the end of a cell away, where it has one.
pub(crate) fn take_end(
    heap: &mut Vec<Due>,
    rows: &mut [FilterRow],
    filter: FilterNo,
    issue: IssueNo,
)
    requires agree { Agree heap.old.items rows.old }
    requires heap { IsHeap heap.old.items }
    ensures put { PutsEnd heap.old.items rows.old heap.new.items rows.new filter.0 issue.0 None }
    ensures capacity { vec_capacity heap.new ≡ vec_capacity heap.old }
{
    let place = place_in(rows, filter, issue);
    if place >= heap.len() {
        return;
    }
    move_to_end(heap, rows, place);
    drop_last(heap, rows);
    if place < heap.len() {
        mend(heap, rows, place);
    }
}

/// Writes the end of a cell.
fn give_end(heap: &mut Vec<Due>, rows: &mut [FilterRow], due: Due)
    // The heap is in order, and each cell that has an end knows where it stands there.
    requires agree { Agree heap.old.items rows.old }
    requires heap { IsHeap heap.old.items }
    // The cell is there, and where it has no end yet there is room for one.
    requires there { IsCell rows.old due.filter.0 due.issue.0 }
    requires room { vec_len heap.old ≤ place_in rows.old due.filter.0 due.issue.0
        → vec_len heap.old < vec_capacity heap.old }
    // The cell has this end, the others have theirs, and no memory was taken.
    ensures put { PutsEnd heap.old.items rows.old heap.new.items rows.new due.filter.0 due.issue.0
        (Some due.end) }
    ensures capacity { vec_capacity heap.new ≡ vec_capacity heap.old }
{
    if place_in(rows, due.filter, due.issue) < heap.len() {
        replace_end(heap, rows, due);
    } else {
        add_end(heap, rows, due);
    }
}

/// Writes the end of a cell, or that it has none.
fn put_end(
    heap: &mut Vec<Due>,
    rows: &mut [FilterRow],
    filter: FilterNo,
    issue: IssueNo,
    end: Option<Moment>,
)
    // The heap is in order, and each cell that has an end knows where it stands there.
    requires agree { Agree heap.old.items rows.old }
    requires heap { IsHeap heap.old.items }
    // The cell is there, and where it has no end yet there is room for one.
    requires there { IsCell rows.old filter.0 issue.0 }
    requires room { vec_len heap.old ≤ place_in rows.old filter.0 issue.0
        → vec_len heap.old < vec_capacity heap.old }
    // The cell has this end or none, the others have theirs, and no memory was taken.
    ensures put { PutsEnd heap.old.items rows.old heap.new.items rows.new filter.0 issue.0 end }
    ensures capacity { vec_capacity heap.new ≡ vec_capacity heap.old }
{
    match end {
        Some(end) => give_end(heap, rows, Due { end, filter, issue }),
        None => take_end(heap, rows, filter, issue),
    }
}

/// Writes a cell.
pub(crate) fn write_cell(
    heap: &mut Vec<Due>,
    rows: &mut [FilterRow],
    filter: FilterNo,
    issue: IssueNo,
    holds: bool,
    end: Option<Moment>,
)
    // The heap is in order, and each cell that has an end knows where it stands there.
    requires agree { Agree heap.old.items rows.old }
    requires heap { IsHeap heap.old.items }
    // The cell is there, in both lists of its row, and where it has no end yet there is room for
    // one.
    requires truth { HasNumber issue.0 (length (row_of rows.old filter.0).truths) }
    requires there { IsCell rows.old filter.0 issue.0 }
    requires room { vec_len heap.old ≤ place_in rows.old filter.0 issue.0
        → vec_len heap.old < vec_capacity heap.old }
    // The cell says this and has this end or none, all others are as before, and no memory was
    // taken.
    ensures written { WritesCell heap.old.items rows.old heap.new.items rows.new filter.0 issue.0
        holds end }
    ensures capacity { vec_capacity heap.new ≡ vec_capacity heap.old }
{
    set_truth(rows, filter, issue, holds);
    put_end(heap, rows, filter, issue, end);
}

/// Takes the ends of the filter's cells away, of each issue up to this many.
pub(crate) fn take_ends(
    heap: &mut Vec<Due>,
    rows: &mut [FilterRow],
    filter: FilterNo,
    issues: usize,
)
    requires agree { Agree heap.old.items rows.old }
    requires heap { IsHeap heap.old.items }
    requires few { issues < 2 ^ 32 }
    ensures taken { TakesEnds heap.old.items rows.old heap.new.items rows.new filter.0 issues }
    ensures capacity { vec_capacity heap.new ≡ vec_capacity heap.old }
{
    for at in 0..issues {
        take_end(heap, rows, filter, IssueNo(at as u32 + 1));
    }
}

/// Makes room for the ends of all cells of so many filters and issues.
pub(crate) fn reserve_ends(heap: &mut Vec<Due>, filters: usize, issues: usize) -> Result<(), Memory>
    ensures same { heap.new.items ≡ heap.old.items }
    ensures more { vec_capacity heap.old ≤ vec_capacity heap.new }
    ensures room { OnOk result (filters * issues ≤ vec_capacity heap.new) }
{
    let Some(most) = filters.checked_mul(issues) else {
        return Err(Memory);
    };
    heap.reserve(most.saturating_sub(heap.len()))?;
    Ok(())
}

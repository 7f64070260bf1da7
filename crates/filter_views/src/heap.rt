//! Putting one entry of the heap to its place.
ghost use Rattle.std.specs.Prelude.{◌≡◌, ◌≢◌, ◌≤◌, ◌<◌, MatchOption, length};
ghost use Rattle.std.specs.List.{SwappedAt};
ghost use Rattle.filter_views.specs.Heap.{IsHeap, IsHeapBut, IsLow, IsHigh, PassesParent, PassesChild, IsFirstOfTwo};
ghost use Rattle.filter_views.specs.Agreement.{Agree, OnlyMoves};

use crate::due::Due;
use crate::filter_row::FilterRow;
use crate::rows::set_place;

/// Swaps two entries, and has their cells know it.
pub(crate) fn exchange(heap: &mut [Due], rows: &mut [FilterRow], first: usize, second: usize)
    // Two places of a heap that the cells know.
    requires first { first < length heap.old }
    requires second { second < length heap.old }
    requires differ { first ≢ second }
    requires agree { Agree heap.old rows.old }
    // Only the places have changed: cells know them, and each has the end that it had.
    ensures swapped { SwappedAt heap.old heap.new first second }
    ensures agree { Agree heap.new rows.new }
    ensures same { OnlyMoves heap.old rows.old heap.new rows.new }
{
    heap.swap(first, second);
    let low = heap[first];
    let high = heap[second];
    set_place(rows, low.filter, low.issue, first);
    set_place(rows, high.filter, high.issue, second);
}

/// The parent's place, where the entry comes before it.
fn parent_to_pass(heap: &[Due], at: usize) -> Option<usize>
    requires { at < length heap.now }
    ensures { MatchOption result (IsLow heap.now at) (PassesParent heap.now at) }
{
    if at == 0 {
        return None;
    }
    let parent = (at - 1) / 2;
    if heap[at].is_before(&heap[parent]) {
        Some(parent)
    } else {
        None
    }
}

/// The place of the child that comes first, of the one at `left` and the next one.
fn first_child(heap: &[Due], left: usize) -> usize
    requires { left < length heap.now }
    ensures { IsFirstOfTwo heap.now left result }
{
    let right = left + 1;
    if right >= heap.len() {
        return left;
    }
    if heap[right].is_before(&heap[left]) {
        right
    } else {
        left
    }
}

/// The place of the child that comes first, where it comes before the entry.
fn child_to_pass(heap: &[Due], at: usize) -> Option<usize>
    requires { at < length heap.now }
    ensures { MatchOption result (IsHigh heap.now at) (PassesChild heap.now at) }
{
    let left = 2 * at + 1;
    if left >= heap.len() {
        return None;
    }
    let child = first_child(heap, left);
    if heap[child].is_before(&heap[at]) {
        Some(child)
    } else {
        None
    }
}

/// Moves the entry up, and answers where it came to stand.
fn rise(heap: &mut [Due], rows: &mut [FilterRow], from: usize) -> usize
    // Of a heap that the cells know, this entry alone may be out of order.
    requires in_range { from < length heap.old }
    requires agree { Agree heap.old rows.old }
    requires but { IsHeapBut heap.old from }
    // The one at the place that is answered alone may be then, and only with what stands below it.
    ensures in_range { result < length heap.new }
    ensures agree { Agree heap.new rows.new }
    ensures but { IsHeapBut heap.new result }
    ensures low { IsLow heap.new result }
    // Only places have changed: each cell has the end that it had.
    ensures same { OnlyMoves heap.old rows.old heap.new rows.new }
{
    let mut at = from;
    while let Some(parent) = parent_to_pass(heap, at) {
        exchange(heap, rows, at, parent);
        at = parent;
    }
    at
}

/// Moves the entry down.
fn sink(heap: &mut [Due], rows: &mut [FilterRow], from: usize)
    // Of a heap that the cells know, this entry alone may be out of order, and only with what
    // stands below it.
    requires in_range { from < length heap.old }
    requires agree { Agree heap.old rows.old }
    requires but { IsHeapBut heap.old from }
    requires low { IsLow heap.old from }
    // All is in order then. Only places have changed: each cell has the end that it had.
    ensures agree { Agree heap.new rows.new }
    ensures heap { IsHeap heap.new }
    ensures same { OnlyMoves heap.old rows.old heap.new rows.new }
{
    let mut at = from;
    while let Some(child) = child_to_pass(heap, at) {
        exchange(heap, rows, at, child);
        at = child;
    }
}

/// Makes it a heap again, where one entry may be out of order.
pub(crate) fn mend(heap: &mut [Due], rows: &mut [FilterRow], from: usize)
    // Of a heap that the cells know, this entry alone may be out of order, either way.
    requires in_range { from < length heap.old }
    requires agree { Agree heap.old rows.old }
    requires but { IsHeapBut heap.old from }
    // All is in order then. Only places have changed: each cell has the end that it had.
    ensures agree { Agree heap.new rows.new }
    ensures heap { IsHeap heap.new }
    ensures same { OnlyMoves heap.old rows.old heap.new rows.new }
{
    let at = rise(heap, rows, from);
    sink(heap, rows, at);
}

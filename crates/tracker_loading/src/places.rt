//! Rows around a place in their list, which has them by kind and then number.
ghost use Rattle.std.specs.Prelude.{◌≡◌, ◌<◌, ◌↔◌, IsTrue, MatchOption, length, drop, slice_get};
ghost use Rattle.std.specs.Option.{option_copied};
ghost use Rattle.std.specs.List.{All};
ghost use Rattle.tracker_rows.specs.Listed.{InOrder, IsAhead, IsAlone, HasRow, changes_in};
ghost use Rattle.tracker_loading.specs.Reading.{StandsAt, is_of, has_place_of, has_twin_at, has_twin, stands_before, IsFrontBefore};

use crate::kinds::{GROUP, ISSUE};
use tracker_keeper::Row;

/// The row at that place.
pub(crate) fn row_at(rows: &[Row], place: usize) -> &Row
    requires { place < length rows.now }
    ensures { StandsAt rows.now place result.now }
{
    &rows[place]
}

// The row at that place, where there is one.
fn get(rows: &[Row], place: usize) -> Option<&Row>
    ensures { option_copied result ≡ slice_get rows.now place }
{
    rows.get(place)
}

/// Whether a row of that kind and number would stand before this one.
pub(crate) fn is_ahead(kind: u8, no: u64, row: &Row) -> bool
    ensures { IsTrue result ↔ IsAhead kind no row.now }
{
    kind < row.kind || kind == row.kind && no < row.no
}

/// The row at that place; `None` exactly where a row of that kind and number would stand before it
/// and all behind it.
pub(crate) fn wanted_at(rows: &[Row], place: usize, kind: u8, no: u64) -> Option<&Row>
    requires { InOrder rows.now }
    ensures { MatchOption result
        (All (IsAhead kind no) (drop place rows.now))
        (λ row. StandsAt rows.now place row.now × ¬ IsAhead kind no row.now) }
{
    let Some(row) = get(rows, place) else {
        return None;
    };
    if is_ahead(kind, no, row) {
        return None;
    }
    Some(row)
}

// ---- twins

fn has_place_of(row: &Row, other: &Row) -> bool
    ensures { result ≡ has_place_of row.now other.now }
{
    row.kind == other.kind && row.no == other.no
}

fn has_twin_at(rows: &[Row], place: usize, row: &Row) -> bool
    ensures { result ≡ has_twin_at rows.now place row.now }
{
    match get(rows, place) {
        Some(other) => has_place_of(row, other),
        None => false,
    }
}

// Whether a row beside that place has the row's kind and number.
fn has_twin(rows: &[Row], place: usize, row: &Row) -> bool
    requires { place < length rows.now }
    ensures { result ≡ has_twin rows.now place row.now }
{
    0 < place && has_twin_at(rows, place - 1, row) || has_twin_at(rows, place + 1, row)
}

/// Whether no other row has the row's kind and number. Its neighbours alone could, since rows stand
/// in order.
pub(crate) fn is_alone(rows: &[Row], place: usize, row: &Row) -> bool
    requires order { InOrder rows.now }
    requires there { StandsAt rows.now place row.now }
    ensures { IsTrue result ↔ IsAlone rows.now row.now }
{
    !has_twin(rows, place, row)
}

// ---- looking rows up

fn is_of(kind: u8, no: u64, row: &Row) -> bool
    ensures { result ≡ is_of kind no row.now }
{
    kind == row.kind && no == row.no
}

fn stands_before(kind: u8, no: u64, row: &Row) -> bool
    ensures { result ≡ stands_before kind no row.now }
{
    row.kind < kind || row.kind == kind && row.no < no
}

// How many rows stand before that kind and number.
fn count_before(rows: &[Row], kind: u8, no: u64) -> usize
    requires { InOrder rows.now }
    ensures { IsFrontBefore rows.now kind no result }
{
    rows.partition_point(|row| stands_before(kind, no, row))
}

/// Whether there is a row of that kind and number.
pub(crate) fn has_row(rows: &[Row], kind: u8, no: u64) -> bool
    requires { InOrder rows.now }
    ensures { IsTrue result ↔ HasRow rows.now kind no }
{
    match get(rows, count_before(rows, kind, no)) {
        Some(row) => is_of(kind, no, row),
        None => false,
    }
}

/// How many rows are of issues and of change groups.
pub(crate) fn count_changes(rows: &[Row]) -> usize
    ensures { result ≡ changes_in rows.now }
{
    rows.iter()
        .filter(|row| row.kind == ISSUE || row.kind == GROUP)
        .count()
}

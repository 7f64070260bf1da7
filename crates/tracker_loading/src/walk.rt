//! All rows behind the first two, one after the other.
ghost use Rattle.std.specs.Prelude.{◌≡◌, ◌<◌, ◌+◌, IfOk, IfErr, MatchOption, length, Some};
ghost use Rattle.tracker_rows.specs.Listed.{InOrder, IsAhead};
ghost use Rattle.tracker_rows.specs.Gathered.{due};
ghost use Rattle.tracker_rows.specs.Loading.{IsInTime, Loads};
ghost use Rattle.tracker_loading.specs.Load.{IsFault};
ghost use Rattle.tracker_keeper.specs.declared.part.Part.{Part};
ghost use Rattle.tracker_loading.specs.Reading.{StandsAt, IsReadTo, IsOwnPart, IsOnlyPart, gathered_in};

use crate::loading::{LoadFault, bad_row};
use crate::opening_rows::begin;
use crate::own_part::own_part;
use crate::places::{is_ahead, row_at};
use crate::progress::Progress;
use field_values::Memory;
use std::alloc::Global;
use tracker_keeper::{Part, Row};

// The kind and the number of the row that has to be read before that row and wasn't.
fn missing_before(read: &Progress, row: &Row) -> Option<(u8, u64)>
    ensures { MatchOption result
        (IsInTime (gathered_in read.now) row.now)
        (λ wanted. (due (gathered_in read.now) ≡ Some wanted) × IsAhead wanted.0 wanted.1 row.now) }
{
    let Some((kind, no)) = read.due() else {
        return None;
    };
    if is_ahead(kind, no, row) {
        return Some((kind, no));
    }
    None
}

// The part of the row at that place, by the names of the tracker in the making.
fn part_for(
    alloc: Global,
    rows: &[Row],
    place: usize,
    row: &Row,
    read: &Progress,
) -> Result<Option<Part>, Memory>
    requires order { InOrder rows.now }
    requires there { StandsAt rows.now place row.now }
    ensures { IfOk result (λ found. MatchOption found
        ((p : Part) → ¬ IsOwnPart rows.now read.now.made.setup row.now p)
        (λ p. IsOnlyPart rows.now read.now.made.setup row.now p)) }
{
    own_part(alloc, rows, place, row, read.made.setup())
}

// Adds what the row at that place tells.
fn add_row(alloc: Global, rows: &[Row], place: usize, read: &mut Progress) -> Result<(), LoadFault>
    requires there { place < length rows.now }
    requires read { IsReadTo rows.now place (gathered_in read.old) }
    ensures read { IfOk result (λ done. IsReadTo rows.now (place + 1) (gathered_in read.new)) }
    ensures fault { IfErr result (IsFault rows.now) }
{
    let row = row_at(rows, place);
    if let Some((kind, no)) = missing_before(read, row) {
        return Err(LoadFault::BadRow { kind, no });
    }
    let Ok(found) = part_for(alloc, rows, place, row, read) else {
        return Err(LoadFault::Memory);
    };
    let Some(part) = found else {
        return Err(bad_row(row));
    };
    match read.join(alloc, part) {
        Ok(true) => Ok(()),
        Ok(false) => Err(bad_row(row)),
        Err(_) => Err(LoadFault::Memory),
    }
}

// Adds what all rows behind the first two tell. At their end no row is missing.
fn add_rows(alloc: Global, rows: &[Row], read: &mut Progress) -> Result<(), LoadFault>
    requires { IsReadTo rows.now 2 (gathered_in read.old) }
    ensures loads { IfOk result (λ done. Loads read.new.format rows.now read.new.made) }
    ensures fault { IfErr result (IsFault rows.now) }
{
    for place in 2..rows.len() {
        add_row(alloc, rows, place, read)?;
    }
    match read.due() {
        Some((kind, no)) => Err(LoadFault::BadRow { kind, no }),
        None => Ok(()),
    }
}

/// What all rows tell.
pub(crate) fn read_all(alloc: Global, rows: &[Row]) -> Result<Progress, LoadFault>
    requires { InOrder rows.now }
    ensures loads { IfOk result (λ read. Loads read.format rows.now read.made) }
    ensures fault { IfErr result (IsFault rows.now) }
{
    let mut read = begin(alloc, rows)?;
    add_rows(alloc, rows, &mut read)?;
    Ok(read)
}

ghost use Rattle.std.specs.Prelude.{◌<◌, ◌^◌, IfSome};
ghost use Rattle.tracker_keeper.specs.Rows.{number_of};

use field_values::Text;
use std::alloc::Global;
use tracker_keeper::{KeepFault, Keeper, MemoryKeeper, NeverFails, Row, RowOp};

/// Rows in no order: one is put twice, one is taken out again, and one that isn't there is taken out.
const OPERATIONS: [(u8, u32, &str); 7] = [
    (7, 2, "second"),
    (7, 1, "first"),
    (2, 0, "old"),
    (2, 0, "new"),
    (9, 1, "gone"),
    (9, 1, ""),
    (8, 5, ""),
];

/// The rows that they leave, by kind and then number.
const LEFT: [(u8, u64, &str); 3] = [(2, 0, "new"), (7, 1, "first"), (7, 2, "second")];

/// An operation of the table: an empty body takes the row out.
fn operation(alloc: Global, kind: u8, number: u32, body: &str) -> Option<RowOp>
    ensures { IfSome result (λ op. number_of op < 2 ^ 63) }
{
    let no = u64::from(number);
    if body.is_empty() {
        return Some(RowOp::Drop { kind, no });
    }
    let body = Text::copy_of(alloc, body).ok()?;
    Some(RowOp::Put(Row { kind, no, body }))
}

fn commit_one<K: Keeper>(
    alloc: Global,
    keeper: &mut K,
    kind: u8,
    number: u32,
    body: &str,
) -> Option<()> {
    let op = operation(alloc, kind, number, body)?;
    keeper.commit(&[op]).ok()
}

fn commit_all<K: Keeper>(alloc: Global, keeper: &mut K) -> Option<()> {
    for (kind, number, body) in &OPERATIONS {
        commit_one(alloc, keeper, *kind, *number, body)?;
    }
    Some(())
}

fn is_left(place: usize, row: &Row) -> bool {
    match LEFT.get(place) {
        Some((kind, no, body)) => row.kind == *kind && row.no == *no && row.body.as_str() == *body,
        None => false,
    }
}

fn are_left(rows: &[Row]) -> bool {
    rows.len() == LEFT.len()
        && rows
            .iter()
            .enumerate()
            .all(|(place, row)| is_left(place, row))
}

fn tells_what_is_left<K: Keeper>(keeper: &mut K) -> Option<bool> {
    let rows = keeper.rows().ok()?;
    Some(are_left(rows.as_slice()))
}

fn keeps_all(alloc: Global) -> Option<bool> {
    let mut keeper = NeverFails::new(alloc, &[]).ok()?;
    commit_all(alloc, &mut keeper)?;
    tells_what_is_left(&mut keeper)
}

/// The eighth call fails and leaves all rows, which the ninth one tells.
fn fails_once(alloc: Global) -> Option<bool> {
    let mut failing = Vec::new(alloc);
    failing.push(8).ok()?;
    let mut keeper = MemoryKeeper::new(alloc, &[], failing).ok()?;
    commit_all(alloc, &mut keeper)?;
    let failed = keeper.commit(&[RowOp::Drop { kind: 2, no: 0 }]) == Err(KeepFault::Failed);
    Some(failed && tells_what_is_left(&mut keeper)?)
}

#[test]
fn a_keeper_keeps_what_its_operations_leave(rt: HostRuntime) {
    let passes = keeps_all(rt.alloc()) == Some(true);
    assert!(rt; passes);
}

#[test]
fn a_call_that_fails_leaves_all_rows(rt: HostRuntime) {
    let passes = fails_once(rt.alloc()) == Some(true);
    assert!(rt; passes);
}

ghost use Rattle.std.specs.Prelude.{◌<◌, ◌^◌, IfSome};
ghost use Rattle.tracker_keeper.specs.Rows.{number_of};

use field_values::Text;
use keeper_told::ToldKeeper;
use sqlite::{Alter, Connection, MemStore};
use std::alloc::Global;
use tracker_keeper::{Keeper, Row, RowOp};

/// An operation: an empty body takes the row out.
pub(crate) fn operation(alloc: Global, kind: u8, number: u32, body: &str) -> Option<RowOp>
    ensures { IfSome result (λ op. number_of op < 2 ^ 63) }
{
    let no = u64::from(number);
    if body.is_empty() {
        return Some(RowOp::Drop { kind, no });
    }
    let body = Text::copy_of(alloc, body).ok()?;
    Some(RowOp::Put(Row { kind, no, body }))
}

/// Commits three operations as one.
pub(crate) fn commit_three<K: Keeper>(keeper: &mut K, one: RowOp, two: RowOp, three: RowOp) -> bool
    requires one { number_of one < 2 ^ 63 }
    requires two { number_of two < 2 ^ 63 }
    requires three { number_of three < 2 ^ 63 }
{
    keeper.commit(&[one, two, three]).is_ok()
}

/// A keeper over a connection with no transaction open.
pub(crate) fn over<S: Alter + Drop>(alloc: Global, conn: Connection<S>) -> Option<ToldKeeper<S>> {
    if !conn.is_autocommit() {
        return None;
    }
    Some(ToldKeeper::adopt(alloc, conn))
}

fn is_row(row: &Row, kind: u8, number: u64, body: &str) -> bool {
    row.kind == kind && row.no == number && row.body.as_str() == body
}

fn has_one(rows: &[Row], kind: u8, number: u64, body: &str) -> bool {
    match rows {
        [row] => is_row(row, kind, number, body),
        _ => false,
    }
}

fn commits_all(alloc: Global, keeper: &mut ToldKeeper<MemStore>) -> Option<bool> {
    let first = operation(alloc, 5, 1, "0|i00000:")?;
    let second = operation(alloc, 5, 1, "0|i006bk:")?;
    let gone = operation(alloc, 5, 2, "")?;
    Some(commit_three(keeper, first, second, gone))
}

fn has_none(keeper: &mut ToldKeeper<MemStore>) -> Option<bool> {
    Some(keeper.rows().ok()?.is_empty())
}

fn has_the_last(keeper: &mut ToldKeeper<MemStore>) -> Option<bool> {
    let rows = keeper.rows().ok()?;
    Some(has_one(rows.as_slice(), 5, 1, "0|i006bk:"))
}

/// A row that is put, put again and one that isn't there taken out, in one commit; and then the row that is there.
fn keeps_the_last_body(alloc: Global) -> Option<bool> {
    let mut keeper = over(alloc, Connection::open_in_memory(alloc).ok()?)?;
    let none = has_none(&mut keeper)?;
    let done = commits_all(alloc, &mut keeper)?;
    Some(none && done && has_the_last(&mut keeper)?)
}

#[test]
fn put_again_and_dropped_leave_one_row(rt: HostRuntime) {
    let passes = keeps_the_last_body(rt.alloc()) == Some(true);
    assert!(rt; passes);
}

// The next call, or what stands in its place.
ghost use Rattle.std.specs.Prelude.{◌≡◌, option_map};
ghost use Rattle.csv.specs.Records.{AllText, fields_of};
ghost use Rattle.issue_csv.specs.Reading.{batch_of};
ghost use Rattle.issue_csv.specs.Reader.{IsCallAtHand, IsOpen, IsInPhase, IsNextCall, batch_left};
ghost use Rattle.issue_csv.specs.Reader.{header_and, left_of, phase_after, to_come};

use crate::columns::is_header;
use crate::csv_records::{NextRecord, Records};
use crate::record_call::call_of;
use csv::StringRecord;
use std::alloc::Global;
use tracker_calls::Call;

/// What comes next.
#[derive(Drop)]
pub enum NextCall {
    Gives(Call),
    /// No record is left.
    Ends,
    /// The record of that number is bad.
    Bad(usize),
    /// There was not enough memory.
    Fails,
}

/// How far a reader is.
#[derive(Clone, Copy)]
pub enum ReaderPhase {
    /// The header is the next record.
    Header,
    /// Records behind the header are next.
    Inside,
    /// No record is left.
    Ended,
    /// The record of that number is bad.
    Bad(usize),
    /// There was not enough memory.
    Failed,
}

/// How far a reader is behind what came next.
pub fn phase_after(next: &NextCall) -> ReaderPhase
    ensures { result ≡ phase_after next.now }
{
    match next {
        NextCall::Gives(_) => ReaderPhase::Inside,
        NextCall::Ends => ReaderPhase::Ended,
        NextCall::Bad(number) => ReaderPhase::Bad(*number),
        NextCall::Fails => ReaderPhase::Failed,
    }
}

/// What comes next by how far the reader is.
pub fn take_call(alloc: Global, phase: ReaderPhase, records: &mut Records<'_>) -> NextCall
    requires { IsInPhase phase records.old }
    ensures { IsNextCall (to_come phase records.old) result records.new }
{
    match phase {
        ReaderPhase::Header => first_call(alloc, records),
        ReaderPhase::Inside => later_call(alloc, records),
        ReaderPhase::Ended => NextCall::Ends,
        ReaderPhase::Bad(number) => NextCall::Bad(number),
        ReaderPhase::Failed => NextCall::Fails,
    }
}

// The call of the first record behind the header.
fn first_call(alloc: Global, records: &mut Records<'_>) -> NextCall
    requires open { IsOpen records.old }
    requires first { records.old.number ≡ 0 }
    ensures { IsNextCall (option_map batch_of (left_of records.old)) result records.new }
{
    match records.read() {
        NextRecord::Text => call_behind_header(alloc, records),
        NextRecord::Other => NextCall::Bad(0),
        NextRecord::End => NextCall::Bad(0),
        NextRecord::Failed => NextCall::Fails,
    }
}

// The same, where the record at hand is to be the header.
fn call_behind_header(alloc: Global, records: &mut Records<'_>) -> NextCall
    requires open { IsOpen records.old }
    requires first { records.old.number ≡ 1 }
    ensures { IsNextCall (header_and (fields_of records.old.row) (left_of records.old)) result
        records.new }
{
    if !is_header(&records.row) {
        return NextCall::Bad(0);
    }
    later_call(alloc, records)
}

// The call of the next record.
fn later_call(alloc: Global, records: &mut Records<'_>) -> NextCall
    requires { IsOpen records.old }
    ensures { IsNextCall (batch_left records.old) result records.new }
{
    let number = records.number;
    match records.read() {
        NextRecord::Text => call_at_hand(alloc, &records.row, number),
        NextRecord::Other => NextCall::Bad(number),
        NextRecord::End => NextCall::Ends,
        NextRecord::Failed => NextCall::Fails,
    }
}

// The call of a record of text, which has that number.
fn call_at_hand(alloc: Global, row: &StringRecord, number: usize) -> NextCall
    requires { AllText (fields_of row.now) }
    ensures { IsCallAtHand (fields_of row.now) number result }
{
    if row.len() != 9 {
        return NextCall::Bad(number);
    }
    match call_of(alloc, row) {
        Ok(call) => NextCall::Gives(call),
        Err(_) => NextCall::Fails,
    }
}

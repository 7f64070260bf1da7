// Issues of a CSV, created one after another.
ghost use Rattle.std.specs.Prelude.{◌≡◌, ◌≤◌, Some};
ghost use Rattle.request_lines.specs.Causes.{Rose};
ghost use Rattle.issue_csv.specs.Reading.{Batch};
ghost use Rattle.tracker_import.specs.Import.{EndsBatch, EndsImport, AnswersCall, IsHaltCause, IsMadeCall};

use crate::halt::Halt;
use crate::reply_line::put_reply_line;
use fields::Steps;
use issue_csv::{ImportFault, RecordReader};
use request_lines::{Failed, Sink, write_all};
use std::alloc::Global;
use std::sync::ledger::Ledger;
use tracker_calls::{Call, Reply, UserName};
use tracker_core::Desk;
use tracker_keeper::Keeper;

/// Room for a reply's line that is made from the start, so that a short one finds it later.
const ANSWER_ROOM: usize = 4_096;

/// How an import ends.
#[derive(Clone, Copy, Debug, PartialEq, Eq)]
pub enum ImportEnd {
    /// Each record has its issue, or the reply that refuses it.
    Done,

    /// The record of that number, the header being 0, is the first one that isn't as it should be.
    BadRecord(u64),

    /// The sink failed.
    WriteFault,

    /// There was not enough memory.
    Memory,
}

/// Creates an issue for each record of the CSV by the caller, one after another, up to the first bad
/// record, and writes the line of each reply before the next record is looked at.
pub fn import_rows<L: Ledger, P: Keeper + Drop, T: Sink>(
    alloc: Global,
    bytes: &[u8],
    caller: &UserName,
    desk: &mut Desk<P>,
    out: &mut T,
    steps: &mut Steps<L>,
) -> ImportEnd
    ensures run { EndsImport P.keeps P.tells P.faults caller.now desk.old bytes.now
        (T.taken out.old) (T.taken out.new) result desk.new }
    ensures write_cause { result ≡ ImportEnd.WriteFault →
        Rose (T.faults out.old) (T.faults out.new) }
    ensures write_later { T.faults out.old ≤ T.faults out.new }
{
    let Ok(mut answer) = Vec::with_capacity(alloc, ANSWER_ROOM) else {
        return ImportEnd::Memory;
    };
    let mut reader = RecordReader::new(alloc, bytes);
    import_each(alloc, &mut reader, caller, desk, out, steps, &mut answer)
}

// The same with a reader, and with room for a reply's line.
fn import_each<L: Ledger, P: Keeper + Drop, T: Sink>(
    alloc: Global,
    reader: &mut RecordReader<'_>,
    caller: &UserName,
    desk: &mut Desk<P>,
    out: &mut T,
    steps: &mut Steps<L>,
    answer: &mut Vec<u8>,
) -> ImportEnd
    ensures run { (batch : Batch) → reader.old ≡ Some batch →
        EndsBatch P.keeps P.tells P.faults caller.now desk.old batch
        (T.taken out.old) (T.taken out.new) result desk.new }
    ensures write_cause { result ≡ ImportEnd.WriteFault →
        Rose (T.faults out.old) (T.faults out.new) }
    ensures write_later { T.faults out.old ≤ T.faults out.new }
{
    'calls: loop {
        match reader.next_call() {
            Ok(Some(call)) => {
                match answer_call(alloc, caller, &call, desk, out, steps, answer) {
                    Ok(()) => {}
                    Err(Halt::Write) => return ImportEnd::WriteFault,
                    Err(Halt::Memory) => return ImportEnd::Memory,
                }
            }
            Ok(None) => return ImportEnd::Done,
            Err(ImportFault::BadRecord(number)) => return ImportEnd::BadRecord(number),
            Err(ImportFault::Memory) => return ImportEnd::Memory,
        }
    }
}

// Makes a call, and writes the line of its reply at once.
fn answer_call<L: Ledger, P: Keeper + Drop, T: Sink>(
    alloc: Global,
    caller: &UserName,
    call: &Call,
    desk: &mut Desk<P>,
    out: &mut T,
    steps: &mut Steps<L>,
    answer: &mut Vec<u8>,
) -> Result<(), Halt>
    ensures run { AnswersCall P.keeps P.tells P.faults caller.now desk.old call.now
        (T.taken out.old) (T.taken out.new) result desk.new }
    ensures later { T.faults out.old ≤ T.faults out.new }
    ensures cause { IsHaltCause (T.faults out.old) (T.faults out.new) result }
{
    let reply = make_call(caller, call, desk, steps);
    let Ok(()) = put_reply_line(alloc, &reply, answer) else {
        return Err(Halt::Memory);
    };
    match write_all(out, answer) {
        Ok(()) => Ok(()),
        Err(Failed) => Err(Halt::Write),
    }
}

// Makes a call, under some mark.
fn make_call<L: Ledger, P: Keeper + Drop>(
    caller: &UserName,
    call: &Call,
    desk: &mut Desk<P>,
    steps: &mut Steps<L>,
) -> Reply
    ensures { IsMadeCall P.keeps P.tells P.faults caller.now desk.old call.now result desk.new }
{
    desk.call(caller, call, steps)
}

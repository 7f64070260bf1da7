// The command that creates issues of a CSV.
ghost use Rattle.std.specs.Prelude.{◌≡◌, ◌≢◌, ◌⊎◌, ◌<◌, ◌≤◌, length, IfSome};
ghost use Rattle.std.specs.Io.KnownBytes.{Appends, IsAtEnd};
ghost use Rattle.request_lines.specs.Causes.{Rose};
ghost use Rattle.issue_csv.specs.Reading.{batch_in};
ghost use Rattle.tracker_core.specs.Desk.{HasBadRow};
ghost use Rattle.tracker_cli.specs.Texts.{csv_line};
ghost use Rattle.tracker_cli.specs.Outcome.{GrewBy, GrewByFront, HasItsRows, IsKeptText, limit_input};
ghost use Rattle.tracker_cli.specs.Commands.{Stands, AreImported, AreCutImported, AreMadeFrom, AreCutFrom, IsWholeImport, IsRecordText, IsUnwritten, IsTooLong, import_limit};

use crate::texts::csv_line;
use fields::{BUILT_IN, Steps};
use request_lines::{Failed, InputFault, Sink, Source, read_whole, write_all};
use status_texts::tell_row;
use std::alloc::Global;
use std::marker::Brand;
use std::sync::ledger::{Blank, Ledger};
use tracker_calls::UserName;
use tracker_core::{Desk, OpenFault};
use tracker_import::{ImportEnd, import_rows};
use tracker_keeper::Keeper;

/// The most bytes of a CSV.
const IMPORT_LIMIT: usize = 67_108_864;

/// Creates an issue by the user for each record of the CSV that the input is; answers the status and hands the keeper back.
pub(crate) fn import<S: Source, T: Sink, P: Keeper + Drop>(
    alloc: Global,
    user: &str,
    input: &mut S,
    out: &mut T,
    keeper: P,
) -> (u8, P)
    // The whole input was read, and each of its records has its reply.
    ensures done { result.0 ≡ 0 → IfSome (S.left input.old) (λ bytes. IsAtEnd (S.left input.new)
        × (length bytes ≤ import_limit)
        × IsWholeImport (AreImported P.keeps P.tells P.faults BUILT_IN.now keeper result.1 user.now)
        (T.taken out.old) (T.taken out.new) bytes) }
    // The input couldn't be read: no call was made, and nothing was written.
    ensures read { result.0 ≡ 2 → (T.taken out.new ≡ T.taken out.old)
        × Stands P.keeps P.tells P.faults BUILT_IN.now keeper result.1 }
    // A write failed: on a reply or on the text of a bad record, on that of the limit, or on that
    // of a bad row.
    ensures written { result.0 ≡ 3 →
        IfSome (S.left input.old) (λ bytes. (length bytes ≤ import_limit)
        × IsUnwritten (AreImported P.keeps P.tells P.faults BUILT_IN.now keeper result.1 user.now)
        (AreCutImported P.keeps P.tells P.faults BUILT_IN.now keeper result.1 user.now)
        (T.taken out.old) (T.taken out.new) bytes)
        ⊎ (GrewByFront (T.taken out.old) (T.taken out.new) (λ due. due ≡ limit_input)
        × IsTooLong (S.left input.old)
        × Stands P.keeps P.tells P.faults BUILT_IN.now keeper result.1)
        ⊎ (GrewByFront (T.taken out.old) (T.taken out.new)
        (IsKeptText (HasBadRow P.keeps P.tells keeper result.1))
        × HasItsRows P.keeps keeper result.1) }
    // No desk was opened: nothing was read, no more was written than the text on a bad row, and the
    // rows stay.
    ensures unopened { result.0 ≡ 4 → (T.taken out.new ≡ T.taken out.old)
        × HasItsRows P.keeps keeper result.1 }
    ensures bad { result.0 ≡ 5 → GrewBy (T.taken out.old) (T.taken out.new)
        (IsKeptText (HasBadRow P.keeps P.tells keeper result.1))
        × HasItsRows P.keeps keeper result.1 }
    ensures unread { (result.0 ≡ 4) ⊎ (result.0 ≡ 5) → S.left input.new ≡ S.left input.old }
    // Memory was wanting: the first records have their replies, or no call was made.
    ensures memory { result.0 ≡ 6 →
        IfSome (S.left input.old) (λ bytes. (length bytes ≤ import_limit)
        × GrewBy (T.taken out.old) (T.taken out.new)
        (AreCutImported P.keeps P.tells P.faults BUILT_IN.now keeper result.1 user.now
        (batch_in bytes).calls))
        ⊎ ((T.taken out.new ≡ T.taken out.old)
        × Stands P.keeps P.tells P.faults BUILT_IN.now keeper result.1)
        ⊎ ((T.taken out.new ≡ T.taken out.old) × HasItsRows P.keeps keeper result.1) }
    // The input passes its limit and makes no call, or a record is bad and those before it have
    // their replies.
    ensures limit { result.0 ≡ 7 → Appends (T.taken out.old) (T.taken out.new) limit_input
        × IsTooLong (S.left input.old)
        × Stands P.keeps P.tells P.faults BUILT_IN.now keeper result.1 }
    ensures record { result.0 ≡ 8 →
        IfSome (S.left input.old) (λ bytes. (length bytes ≤ import_limit)
        × GrewBy (T.taken out.old) (T.taken out.new)
        (IsRecordText (AreImported P.keeps P.tells P.faults BUILT_IN.now keeper result.1 user.now)
        bytes)) }
    // What is blamed has failed, and the counts of source and sink never fall.
    ensures read_cause { result.0 ≡ 2 → Rose (S.faults input.old) (S.faults input.new) }
    ensures write_cause { result.0 ≡ 3 → Rose (T.faults out.old) (T.faults out.new) }
    ensures keeper_cause { result.0 ≡ 4 → Rose (P.faults keeper) (P.faults result.1) }
    ensures read_later { S.faults input.old ≤ S.faults input.new }
    ensures write_later { T.faults out.old ≤ T.faults out.new }
    // There is no other status.
    ensures statuses { (result.0 ≤ 8) × (result.0 ≢ 1) }
{
    let Ok(user) = UserName::copy_of(alloc, user) else {
        return (6, keeper);
    };
    match Desk::open(alloc, keeper) {
        Ok(desk) => import_input::<Brand, S, T, P>(alloc, &user, input, out, desk, Blank::new(1)),
        Err((OpenFault::Keeper, keeper)) => (4, keeper),
        Err((OpenFault::BadRow { kind, no }, keeper)) => (tell_row(alloc, out, kind, no), keeper),
        Err((OpenFault::Memory, keeper)) => (6, keeper),
        Err((OpenFault::Held, _keeper)) => unreachable!(),
    }
}

// Reads the input and has its records made by the desk, and hands its keeper back.
fn import_input<L: Ledger, S: Source, T: Sink, P: Keeper + Drop>(
    alloc: Global,
    user: &UserName,
    input: &mut S,
    out: &mut T,
    desk: Desk<P>,
    blank: Blank,
) -> (u8, P)
    // The blank is the ledger's own, with all its parts.
    requires name { blank.name ≡ L.name }
    requires parts { blank.parts ≡ L.parts }
    requires some { 0 < L.parts }
    // The whole input was read, and each of its records has its reply.
    ensures done { result.0 ≡ 0 → IfSome (S.left input.old) (λ bytes. IsAtEnd (S.left input.new)
        × (length bytes ≤ import_limit)
        × IsWholeImport (AreMadeFrom P.keeps P.tells P.faults desk result.1 user.now)
        (T.taken out.old) (T.taken out.new) bytes) }
    // The input couldn't be read: nothing was written, and the keeper is as the desk had it.
    ensures read { result.0 ≡ 2 → (T.taken out.new ≡ T.taken out.old) × (result.1 ≡ desk.keeper) }
    // A write failed: on a reply or on the text of a bad record, or on that of the limit.
    ensures written { result.0 ≡ 3 →
        IfSome (S.left input.old) (λ bytes. (length bytes ≤ import_limit)
        × IsUnwritten (AreMadeFrom P.keeps P.tells P.faults desk result.1 user.now)
        (AreCutFrom P.keeps P.tells P.faults desk result.1 user.now)
        (T.taken out.old) (T.taken out.new) bytes)
        ⊎ (GrewByFront (T.taken out.old) (T.taken out.new) (λ due. due ≡ limit_input)
        × IsTooLong (S.left input.old)
        × (result.1 ≡ desk.keeper)) }
    // Memory was wanting: the first records have their replies, or no call was made.
    ensures memory { result.0 ≡ 6 →
        IfSome (S.left input.old) (λ bytes. (length bytes ≤ import_limit)
        × GrewBy (T.taken out.old) (T.taken out.new)
        (AreCutFrom P.keeps P.tells P.faults desk result.1 user.now (batch_in bytes).calls))
        ⊎ ((T.taken out.new ≡ T.taken out.old) × (result.1 ≡ desk.keeper)) }
    // The input passes its limit and makes no call, or a record is bad and those before it have
    // their replies.
    ensures limit { result.0 ≡ 7 → Appends (T.taken out.old) (T.taken out.new) limit_input
        × IsTooLong (S.left input.old)
        × (result.1 ≡ desk.keeper) }
    ensures record { result.0 ≡ 8 →
        IfSome (S.left input.old) (λ bytes. (length bytes ≤ import_limit)
        × GrewBy (T.taken out.old) (T.taken out.new)
        (IsRecordText (AreMadeFrom P.keeps P.tells P.faults desk result.1 user.now) bytes)) }
    // What is blamed has failed, and its count of that never falls.
    ensures read_cause { result.0 ≡ 2 → Rose (S.faults input.old) (S.faults input.new) }
    ensures write_cause { result.0 ≡ 3 → Rose (T.faults out.old) (T.faults out.new) }
    ensures read_later { S.faults input.old ≤ S.faults input.new }
    ensures write_later { T.faults out.old ≤ T.faults out.new }
    // There is no other status.
    ensures statuses { (result.0 ≤ 8) × (result.0 ≢ 1) × (result.0 ≢ 4) × (result.0 ≢ 5) }
{
    match read_whole(alloc, input, IMPORT_LIMIT) {
        Ok(bytes) => import_bytes::<L, T, P>(alloc, user, &bytes, out, desk, blank),
        Err(InputFault::Failed) => (2, desk.close()),
        Err(InputFault::Memory) => (6, desk.close()),
        Err(InputFault::TooLong) => match write_all(out, b"limit input\n") {
            Ok(()) => (7, desk.close()),
            Err(Failed) => (3, desk.close()),
        },
    }
}

// Has the records of these bytes made by the desk, and hands its keeper back. The steps are counted, and the count is let go.
fn import_bytes<L: Ledger, T: Sink, P: Keeper + Drop>(
    alloc: Global,
    user: &UserName,
    bytes: &[u8],
    out: &mut T,
    desk: Desk<P>,
    blank: Blank,
) -> (u8, P)
    // The blank is the ledger's own, with all its parts.
    requires name { blank.name ≡ L.name }
    requires parts { blank.parts ≡ L.parts }
    requires some { 0 < L.parts }
    // Each record has its reply.
    ensures done { result.0 ≡ 0 →
        IsWholeImport (AreMadeFrom P.keeps P.tells P.faults desk result.1 user.now)
        (T.taken out.old) (T.taken out.new) bytes.now }
    // The replies were cut short, by a write or for want of memory.
    ensures written { result.0 ≡ 3 →
        IsUnwritten (AreMadeFrom P.keeps P.tells P.faults desk result.1 user.now)
        (AreCutFrom P.keeps P.tells P.faults desk result.1 user.now)
        (T.taken out.old) (T.taken out.new) bytes.now }
    ensures memory { result.0 ≡ 6 → GrewBy (T.taken out.old) (T.taken out.new)
        (AreCutFrom P.keeps P.tells P.faults desk result.1 user.now (batch_in bytes.now).calls) }
    // A record is bad: those before it have their replies, and its text follows.
    ensures record { result.0 ≡ 8 → GrewBy (T.taken out.old) (T.taken out.new)
        (IsRecordText (AreMadeFrom P.keeps P.tells P.faults desk result.1 user.now) bytes.now) }
    // A sink that is blamed has failed, and its count of that never falls.
    ensures write_cause { result.0 ≡ 3 → Rose (T.faults out.old) (T.faults out.new) }
    ensures write_later { T.faults out.old ≤ T.faults out.new }
    // There is no other status.
    ensures statuses { (result.0 ≡ 0) ⊎ (result.0 ≡ 3) ⊎ (result.0 ≡ 6) ⊎ (result.0 ≡ 8) }
{
    let mut desk = desk;
    let mut steps = Steps::<L>::new(blank);
    match import_rows(alloc, bytes, user, &mut desk, out, &mut steps) {
        ImportEnd::Done => (0, desk.close()),
        ImportEnd::BadRecord(number) => {
            let status = tell_record(alloc, out, number);
            (status, desk.close())
        }
        ImportEnd::WriteFault => (3, desk.close()),
        ImportEnd::Memory => (6, desk.close()),
    }
}

// Writes which record is bad: 8, or 3 where the sink failed on it, or 6 where there was no memory for it and nothing was written.
fn tell_record<T: Sink>(alloc: Global, out: &mut T, number: u64) -> u8
    // The status tells what was written: the whole text, a front of it, or nothing.
    ensures told { result ≡ 8 → Appends (T.taken out.old) (T.taken out.new) (csv_line number) }
    ensures written { result ≡ 3 → GrewByFront (T.taken out.old) (T.taken out.new)
        (λ due. due ≡ csv_line number) }
    ensures memory { result ≡ 6 → T.taken out.new ≡ T.taken out.old }
    // A sink that is blamed has failed, and its count of that never falls.
    ensures write_cause { result ≡ 3 → Rose (T.faults out.old) (T.faults out.new) }
    ensures later { T.faults out.old ≤ T.faults out.new }
    // There is no other status.
    ensures statuses { (result ≡ 3) ⊎ (result ≡ 6) ⊎ (result ≡ 8) }
{
    let Ok(text) = csv_line(alloc, number) else {
        return 6;
    };
    match write_all(out, text.as_str().as_bytes()) {
        Ok(()) => 8,
        Err(Failed) => 3,
    }
}

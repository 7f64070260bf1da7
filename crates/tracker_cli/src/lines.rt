// The commands that answer line after line.
ghost use Rattle.std.specs.Prelude.{◌≡◌, ◌≢◌, ◌∷◌, [], ◌⊎◌, ◌↔◌, List, ℕ, Some, ◌≤◌, ◌<◌, map, string_bytes, IfSome, IfOk, IfErr, IsTrue};
ghost use Rattle.std.specs.Io.KnownBytes.{Appends, Consumes, IsAtEnd};
ghost use Rattle.request_lines.specs.Causes.{Rose};
ghost use Rattle.request_lines.specs.Lines.{lines, whole_lines, AreWithinLimits};
ghost use Rattle.tracker_core.specs.Desk.{HasBadRow, IsOpenFault};
ghost use Rattle.tracker_cli.specs.Outcome.{IsExec, IsCheck, IsOfLines, AreReplies, AreCutReplies, AreChecked, AreCutChecks, AreRepliesOf, AreCutRepliesOf, BeginsIn, HasRowsBehind, StaysUnopened, GrewBy, GrewByFront, IsKeptText, IsLimitText, IsCutLimitText, EndsRun};

use crate::check::Checks;
use crate::exec::RequestLines;
use fields::{BUILT_IN, Steps};
use request_lines::{End, Failed, Sink, Source, answer_lines, write_all};
use status_texts::tell_row;
use std::alloc::Global;
use std::marker::Brand;
use std::sync::ledger::{Blank, Ledger};
use tracker_core::{Desk, OpenFault};
use tracker_keeper::Keeper;

/// Has the lines of the input answered by the words' command, which is `check` or `exec`, answers the status and hands the keeper back.
pub(crate) fn run_lines<S: Source, T: Sink, P: Keeper + Drop>(
    alloc: Global,
    words: &[String],
    is_check: bool,
    input: &mut S,
    out: &mut T,
    keeper: P,
) -> (u8, P)
    // The command is one that answers lines.
    requires command { IsOfLines (map string_bytes words.now) }
    requires check { IsTrue is_check ↔ IsCheck (map string_bytes words.now) }
    // The whole input was read, and each line has its reply.
    ensures done { result.0 ≡ 0
        → IfSome (S.left input.old) (λ bytes. IsAtEnd (S.left input.new)
        × AreWithinLimits (lines bytes)
        × GrewBy (T.taken out.old) (T.taken out.new)
        (AreRepliesOf (BeginsIn P.keeps P.tells BUILT_IN.now keeper result.1)
        (HasRowsBehind P.keeps P.tells P.faults P.leaves keeper result.1)
        (map string_bytes words.now)
        (lines bytes))) }
    // A read failed: each whole line that was read has its reply.
    ensures read { result.0 ≡ 2
        → IfSome (S.left input.old) (λ bytes. (read : List ℕ)
        × Consumes (Some bytes) (S.left input.new) read
        × AreWithinLimits (lines read)
        × GrewBy (T.taken out.old) (T.taken out.new)
        (AreRepliesOf (BeginsIn P.keeps P.tells BUILT_IN.now keeper result.1)
        (HasRowsBehind P.keeps P.tells P.faults P.leaves keeper result.1)
        (map string_bytes words.now)
        (whole_lines read))) }
    // A write failed: on a reply, on the text of a limit, or on that of a bad row.
    ensures written { result.0 ≡ 3 → IfSome (S.left input.old) (λ bytes.
        GrewBy (T.taken out.old) (T.taken out.new)
        (AreCutRepliesOf (BeginsIn P.keeps P.tells BUILT_IN.now keeper result.1)
        (HasRowsBehind P.keeps P.tells P.faults P.leaves keeper result.1)
        (StaysUnopened P.keeps P.tells P.leaves BUILT_IN.now keeper result.1)
        (map string_bytes words.now) bytes)
        ⊎ GrewBy (T.taken out.old) (T.taken out.new)
        (IsCutLimitText (AreRepliesOf (BeginsIn P.keeps P.tells BUILT_IN.now keeper result.1)
        (HasRowsBehind P.keeps P.tells P.faults P.leaves keeper result.1)
        (map string_bytes words.now)) bytes))
        ⊎ (GrewByFront (T.taken out.old) (T.taken out.new)
        (IsKeptText (HasBadRow P.keeps P.tells keeper result.1))
        × StaysUnopened P.keeps P.tells P.leaves BUILT_IN.now keeper result.1) }
    // `exec` could open no desk: nothing was read, no more was written than the text on a bad row,
    // and the rows stay.
    ensures unopened { result.0 ≡ 4
        → (T.taken out.new ≡ T.taken out.old)
        × StaysUnopened P.keeps P.tells P.leaves BUILT_IN.now keeper result.1 }
    ensures bad { result.0 ≡ 5
        → GrewBy (T.taken out.old) (T.taken out.new)
        (IsKeptText (HasBadRow P.keeps P.tells keeper result.1))
        × StaysUnopened P.keeps P.tells P.leaves BUILT_IN.now keeper result.1 }
    ensures opens { (result.0 ≡ 4) ⊎ (result.0 ≡ 5) → IsExec (map string_bytes words.now) }
    ensures unread { (result.0 ≡ 4) ⊎ (result.0 ≡ 5) → S.left input.new ≡ S.left input.old }
    // The replies were cut short, for want of memory or at a limit, which is told.
    ensures memory { result.0 ≡ 6
        → IfSome (S.left input.old) (λ bytes. GrewBy (T.taken out.old) (T.taken out.new)
        (AreCutRepliesOf (BeginsIn P.keeps P.tells BUILT_IN.now keeper result.1)
        (HasRowsBehind P.keeps P.tells P.faults P.leaves keeper result.1)
        (StaysUnopened P.keeps P.tells P.leaves BUILT_IN.now keeper result.1)
        (map string_bytes words.now) bytes)) }
    ensures limit { result.0 ≡ 7
        → IfSome (S.left input.old) (λ bytes. GrewBy (T.taken out.old) (T.taken out.new)
        (IsLimitText (AreRepliesOf (BeginsIn P.keeps P.tells BUILT_IN.now keeper result.1)
        (HasRowsBehind P.keeps P.tells P.faults P.leaves keeper result.1)
        (map string_bytes words.now)) bytes)) }
    // `check` opens no desk, so that the rows stay.
    ensures no_desk { ¬ (IsExec (map string_bytes words.now))
        → StaysUnopened P.keeps P.tells P.leaves BUILT_IN.now keeper result.1 }
    // What is blamed has failed, and the counts of source and sink never fall.
    ensures read_cause { result.0 ≡ 2 → Rose (S.faults input.old) (S.faults input.new) }
    ensures write_cause { result.0 ≡ 3 → Rose (T.faults out.old) (T.faults out.new) }
    ensures keeper_cause { result.0 ≡ 4 → Rose (P.faults keeper) (P.faults result.1) }
    ensures read_later { S.faults input.old ≤ S.faults input.new }
    ensures write_later { T.faults out.old ≤ T.faults out.new }
    // There is no other status.
    ensures statuses { (result.0 ≤ 7) × (result.0 ≢ 1) }
{
    match carry_out::<Brand, S, T, P>(alloc, words, is_check, input, out, keeper, Blank::new(1)) {
        Ok((End::Done, keeper)) => (0, keeper),
        Ok((End::ReadFault, keeper)) => (2, keeper),
        Ok((End::WriteFault, keeper)) => (3, keeper),
        Ok((End::Memory, keeper)) => (6, keeper),
        Ok((End::LongLine, keeper)) => match write_all(out, b"limit line\n") {
            Ok(()) => (7, keeper),
            Err(Failed) => (3, keeper),
        },
        Ok((End::ManyLines, keeper)) => match write_all(out, b"limit lines\n") {
            Ok(()) => (7, keeper),
            Err(Failed) => (3, keeper),
        },
        Err((OpenFault::Keeper, keeper)) => (4, keeper),
        Err((OpenFault::BadRow { kind, no }, keeper)) => (tell_row(alloc, out, kind, no), keeper),
        Err((OpenFault::Memory, keeper)) => (6, keeper),
        Err((OpenFault::Held, _keeper)) => unreachable!(),
    }
}

// Has the lines answered by the words' command.
fn carry_out<L: Ledger, S: Source, T: Sink, P: Keeper + Drop>(
    alloc: Global,
    words: &[String],
    is_check: bool,
    input: &mut S,
    out: &mut T,
    keeper: P,
    blank: Blank,
) -> Result<(End, P), (OpenFault, P)>
    // The command is one that answers lines.
    requires command { IsOfLines (map string_bytes words.now) }
    requires check { IsTrue is_check ↔ IsCheck (map string_bytes words.now) }
    // The blank is the ledger's own, with all its parts.
    requires name { blank.name ≡ L.name }
    requires parts { blank.parts ≡ L.parts }
    requires some { 0 < L.parts }
    // The lines have their replies, as far as the run went.
    ensures run { IfOk result (λ r. IfSome (S.left input.old) (λ bytes. EndsRun
        (AreRepliesOf (BeginsIn P.keeps P.tells BUILT_IN.now keeper r.1)
        (HasRowsBehind P.keeps P.tells P.faults P.leaves keeper r.1) (map string_bytes words.now))
        (AreCutRepliesOf (BeginsIn P.keeps P.tells BUILT_IN.now keeper r.1)
        (HasRowsBehind P.keeps P.tells P.faults P.leaves keeper r.1)
        (StaysUnopened P.keeps P.tells P.leaves BUILT_IN.now keeper r.1)
        (map string_bytes words.now))
        bytes (S.left input.new) (T.taken out.old) (T.taken out.new) r.0)) }
    // Where no desk was opened, it was for `exec`: nothing was read or written, and the rows stay.
    ensures unwritten { IfErr result (λ e. T.taken out.new ≡ T.taken out.old) }
    ensures unread { IfErr result (λ e. S.left input.new ≡ S.left input.old) }
    ensures exec { IfErr result (λ e. IsExec (map string_bytes words.now)) }
    ensures same { IfErr result
        (λ e. StaysUnopened P.keeps P.tells P.leaves BUILT_IN.now keeper e.1) }
    ensures fault { IfErr result (λ e. IsOpenFault (HasBadRow P.keeps P.tells keeper e.1) e.0) }
    // `check` opens no desk, so that the rows stay.
    ensures no_desk { ¬ (IsExec (map string_bytes words.now))
        → IfOk result (λ r. StaysUnopened P.keeps P.tells P.leaves BUILT_IN.now keeper r.1) }
    // What is blamed has failed, and the counts of source and sink never fall.
    ensures keeper_cause { IfErr result
        (λ e. e.0 ≡ OpenFault.Keeper → Rose (P.faults keeper) (P.faults e.1)) }
    ensures read_cause { IfOk result
        (λ r. r.0 ≡ End.ReadFault → Rose (S.faults input.old) (S.faults input.new)) }
    ensures write_cause { IfOk result
        (λ r. r.0 ≡ End.WriteFault → Rose (T.faults out.old) (T.faults out.new)) }
    ensures read_later { S.faults input.old ≤ S.faults input.new }
    ensures write_later { T.faults out.old ≤ T.faults out.new }
{
    if is_check {
        let end = check(alloc, input, out);
        return Ok((end, keeper));
    }
    exec::<L, S, T, P>(alloc, input, out, keeper, blank)
}

// Has the request lines answered by the desk of what the keeper has. The steps are counted, and the count is let go. The memory of the
// desk's state is left to the process, which is to end with the run.
fn exec<L: Ledger, S: Source, T: Sink, P: Keeper + Drop>(
    alloc: Global,
    input: &mut S,
    out: &mut T,
    keeper: P,
    blank: Blank,
) -> Result<(End, P), (OpenFault, P)>
    // The blank is the ledger's own, with all its parts.
    requires name { blank.name ≡ L.name }
    requires parts { blank.parts ≡ L.parts }
    requires some { 0 < L.parts }
    // The lines have their replies, as far as the run went, and what is kept are the rows behind
    // them.
    ensures run { IfOk result (λ r. IfSome (S.left input.old) (λ bytes. EndsRun
        (AreReplies (BeginsIn P.keeps P.tells BUILT_IN.now keeper r.1)
        (HasRowsBehind P.keeps P.tells P.faults P.leaves keeper r.1))
        (AreCutReplies (BeginsIn P.keeps P.tells BUILT_IN.now keeper r.1)
        (HasRowsBehind P.keeps P.tells P.faults P.leaves keeper r.1)
        (StaysUnopened P.keeps P.tells P.leaves BUILT_IN.now keeper r.1))
        bytes (S.left input.new) (T.taken out.old) (T.taken out.new) r.0)) }
    // Where no desk was opened, nothing was read or written, and the rows stay.
    ensures unwritten { IfErr result (λ e. T.taken out.new ≡ T.taken out.old) }
    ensures unread { IfErr result (λ e. S.left input.new ≡ S.left input.old) }
    ensures same { IfErr result
        (λ e. StaysUnopened P.keeps P.tells P.leaves BUILT_IN.now keeper e.1) }
    ensures fault { IfErr result (λ e. IsOpenFault (HasBadRow P.keeps P.tells keeper e.1) e.0) }
    // What is blamed has failed, and the counts of source and sink never fall.
    ensures keeper_cause { IfErr result
        (λ e. e.0 ≡ OpenFault.Keeper → Rose (P.faults keeper) (P.faults e.1)) }
    ensures read_cause { IfOk result
        (λ r. r.0 ≡ End.ReadFault → Rose (S.faults input.old) (S.faults input.new)) }
    ensures write_cause { IfOk result
        (λ r. r.0 ≡ End.WriteFault → Rose (T.faults out.old) (T.faults out.new)) }
    ensures read_later { S.faults input.old ≤ S.faults input.new }
    ensures write_later { T.faults out.old ≤ T.faults out.new }
{
    let desk = match Desk::open(alloc, keeper) {
        Ok(desk) => desk,
        Err((fault, keeper)) => return Err((fault, keeper)),
    };
    let mut requests = RequestLines::new(alloc, desk, Steps::<L>::new(blank));
    requests.is_tracker();
    let end = answer_lines(alloc, &mut requests, input, out);
    requests.is_tracker();
    Ok((end, requests.leave()))
}

// Has the lines answered as queries.
fn check<S: Source, T: Sink>(alloc: Global, input: &mut S, out: &mut T) -> End
    ensures run { IfSome (S.left input.old) (λ bytes. EndsRun AreChecked AreCutChecks bytes
        (S.left input.new) (T.taken out.old) (T.taken out.new) result) }
    ensures read_cause { result ≡ End.ReadFault → Rose (S.faults input.old) (S.faults input.new) }
    ensures write_cause { result ≡ End.WriteFault → Rose (T.faults out.old) (T.faults out.new) }
    ensures read_later { S.faults input.old ≤ S.faults input.new }
    ensures write_later { T.faults out.old ≤ T.faults out.new }
{
    let mut checks = Checks::new(alloc);
    answer_lines(alloc, &mut checks, input, out)
}

// The command that writes all issues.
ghost use Rattle.std.specs.Prelude.{◌≡◌, ◌≢◌, ◌⊎◌, ◌≤◌};
ghost use Rattle.std.specs.Io.KnownBytes.{Appends};
ghost use Rattle.request_lines.specs.Causes.{Rose};
ghost use Rattle.tracker_core.specs.Desk.{HasBadRow};
ghost use Rattle.tracker_import.specs.Export.{WritesFront, export_text};
ghost use Rattle.tracker_cli.specs.Outcome.{GrewBy, GrewByFront, HasItsRows, IsKeptText};
ghost use Rattle.tracker_cli.specs.Commands.{IsExported};

use fields::BUILT_IN;
use request_lines::Sink;
use status_texts::tell_row;
use std::alloc::Global;
use tracker_core::{Desk, OpenFault};
use tracker_import::{ExportEnd, export_rows};
use tracker_keeper::Keeper;

/// Writes all issues of the tracker whose rows the keeper has; answers the status and hands the keeper back.
pub(crate) fn export<T: Sink, P: Keeper + Drop>(alloc: Global, out: &mut T, keeper: P) -> (u8, P)
    // All issues were written, or a front of them or of the text on a bad row where a write failed.
    ensures done { result.0 ≡ 0 → GrewBy (T.taken out.old) (T.taken out.new)
        (IsExported P.keeps P.tells P.faults BUILT_IN.now keeper result.1) }
    ensures written { result.0 ≡ 3 → GrewByFront (T.taken out.old) (T.taken out.new)
        (IsExported P.keeps P.tells P.faults BUILT_IN.now keeper result.1)
        ⊎ (GrewByFront (T.taken out.old) (T.taken out.new)
        (IsKeptText (HasBadRow P.keeps P.tells keeper result.1))
        × HasItsRows P.keeps keeper result.1) }
    // No desk was opened: no more was written than the text on a bad row, and the rows stay.
    ensures unopened { result.0 ≡ 4
        → (T.taken out.new ≡ T.taken out.old) × HasItsRows P.keeps keeper result.1 }
    ensures bad { result.0 ≡ 5
        → GrewBy (T.taken out.old) (T.taken out.new)
        (IsKeptText (HasBadRow P.keeps P.tells keeper result.1))
        × HasItsRows P.keeps keeper result.1 }
    // Want of memory leaves a front of the issues written, or nothing where no desk was opened.
    ensures memory { result.0 ≡ 6 → GrewByFront (T.taken out.old) (T.taken out.new)
        (IsExported P.keeps P.tells P.faults BUILT_IN.now keeper result.1)
        ⊎ ((T.taken out.new ≡ T.taken out.old) × HasItsRows P.keeps keeper result.1) }
    // What is blamed has failed, and the sink's count of that never falls.
    ensures write_cause { result.0 ≡ 3 → Rose (T.faults out.old) (T.faults out.new) }
    ensures keeper_cause { result.0 ≡ 4 → Rose (P.faults keeper) (P.faults result.1) }
    ensures write_later { T.faults out.old ≤ T.faults out.new }
    // There is no other status.
    ensures statuses { (result.0 ≤ 6) × (result.0 ≢ 1) × (result.0 ≢ 2) }
{
    match Desk::open(alloc, keeper) {
        Ok(desk) => write_issues(alloc, desk, out),
        Err((OpenFault::Keeper, keeper)) => (4, keeper),
        Err((OpenFault::BadRow { kind, no }, keeper)) => (tell_row(alloc, out, kind, no), keeper),
        Err((OpenFault::Memory, keeper)) => (6, keeper),
        Err((OpenFault::Held, _keeper)) => unreachable!(),
    }
}

// Writes all issues of the desk, and hands its keeper back.
fn write_issues<T: Sink, P: Keeper + Drop>(alloc: Global, desk: Desk<P>, out: &mut T) -> (u8, P)
    // The issues were written, all or a front of them.
    ensures done { result.0 ≡ 0
        → Appends (T.taken out.old) (T.taken out.new) (export_text desk.machine) }
    ensures cut { (result.0 ≡ 3) ⊎ (result.0 ≡ 6)
        → WritesFront (T.taken out.old) (T.taken out.new) (export_text desk.machine) }
    // The keeper is as the desk had it.
    ensures keeper { result.1 ≡ desk.keeper }
    // A sink that is blamed has failed, and its count of that never falls.
    ensures write_cause { result.0 ≡ 3 → Rose (T.faults out.old) (T.faults out.new) }
    ensures write_later { T.faults out.old ≤ T.faults out.new }
    // There is no other status.
    ensures statuses { (result.0 ≡ 0) ⊎ (result.0 ≡ 3) ⊎ (result.0 ≡ 6) }
{
    let end = export_rows(alloc, &desk, out);
    let keeper = desk.close();
    match end {
        ExportEnd::Done => (0, keeper),
        ExportEnd::WriteFault => (3, keeper),
        ExportEnd::Memory => (6, keeper),
    }
}

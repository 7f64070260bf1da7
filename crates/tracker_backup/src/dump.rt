// The command that writes all rows.
ghost use Rattle.std.specs.Prelude.{◌≡◌, ◌⊎◌, ◌≤◌};
ghost use Rattle.request_lines.specs.Causes.{Rose};
ghost use Rattle.tracker_backup.specs.Dumping.{DumpEnd, IsDumped};
ghost use Rattle.tracker_backup.specs.Ends.{HasItsRows};

use request_lines::Sink;
use row_dumps::rows_have_form;
use row_lines::{WriteEnd, write_rows};
use std::alloc::Global;
use tracker_keeper::{KeepFault, Keeper};

/// Writes a line for each row that the keeper has; answers the status and hands the keeper back. The rows needn't be a tracker's.
pub(crate) fn dump<T: Sink, P: Keeper + Drop>(alloc: Global, out: &mut T, keeper: P) -> (u8, P)
    ensures end { DumpEnd (IsDumped P.keeps P.tells keeper result.1) result.0
        (T.taken out.old) (T.taken out.new) }
    ensures same { HasItsRows P.keeps keeper result.1 }
    ensures write_cause { result.0 ≡ 3 → Rose (T.faults out.old) (T.faults out.new) }
    ensures keeper_cause { result.0 ≡ 4 → Rose (P.faults keeper) (P.faults result.1) }
    ensures write_later { T.faults out.old ≤ T.faults out.new }
{
    let mut keeper = keeper;
    match keeper.rows() {
        Ok(rows) => {
            rows_have_form(&rows);
            match write_rows(alloc, &rows, out) {
                WriteEnd::Done => (0, keeper),
                WriteEnd::WriteFault => (3, keeper),
                WriteEnd::Memory => (6, keeper),
            }
        }
        Err(KeepFault::Failed) => (4, keeper),
        Err(KeepFault::Memory) => (6, keeper),
    }
}

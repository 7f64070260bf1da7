// A run over the files at a path, by what they held.
ghost use Rattle.std.specs.Prelude.{◌≡◌, IfOk, map, string_bytes};
ghost use Rattle.sqlite_wal.specs.Files.{image_at};
ghost use Rattle.file_ends.specs.Ending.{IsCleanEnd, MayBeFound};
ghost use Rattle.tracker_keeper.specs.Rows.{Rows};
ghost use Rattle.tracker_machine.specs.Machine.{Machine};
ghost use Rattle.tracker_core.specs.Desk.{IsOpened, IsBadIn};
ghost use Rattle.tracker_cli.specs.Outcome.{IsExec};
ghost use Rattle.file_runs.specs.Runs.{BeginsWith, HoldsTracker, LeavesItsRows, LeavesIt, RunEnds};

use crate::ending::end_run;
use fields::BUILT_IN;
use file_ends::Ended;
use keeper_told::open_told;
use request_lines::{Sink, Source};
use sqlite::{Error, FileFrom, Start};
use tracker_cli::run;

/// Carries out a command over the files at the path, which are made where there are none, and ends with all copied into the database
/// file; `S` stands for what they held. **What was acknowledged is found again**: a run of `exec` begins in the tracker that the
/// files hold, and whatever may be found of them, at any moment, holds the tracker behind the lines that were answered as made, or
/// that with one more of the input's lines; so the next run begins there. In the end that is so of the database file alone.
pub fn run_over_files<S: Start, I: Source, O: Sink>(
    rt: &HostRuntime,
    words: &[String],
    path: &str,
    start: S,
    input: &mut I,
    out: &mut O,
) -> Result<(u8, Ended<FileFrom<S>>), Error>
    // From files with these rows, or from none.
    ensures begins { IfOk result (λ r. IsCleanEnd r.1
        → IsExec (map string_bytes words.now) → (rows : Rows) → BeginsWith (image_at S.Start) rows
        → RunEnds (MayBeFound r.1) (IsOpened BUILT_IN.now rows)
        (LeavesItsRows (MayBeFound r.1) BUILT_IN.now rows) (IsBadIn rows)
        (map string_bytes words.now) r.0 (I.left input.old) (I.left input.new)
        (O.taken out.old) (O.taken out.new)) }

    // From files that hold a tracker, as those that a run has left do: it begins in just that tracker, and no row is bad.
    ensures goes_on { IfOk result (λ r. IsCleanEnd r.1
        → IsExec (map string_bytes words.now) → (m : Machine)
        → HoldsTracker (image_at S.Start) m
        → RunEnds (MayBeFound r.1) (λ start. start ≡ m)
        (LeavesIt (MayBeFound r.1) m) (λ kind number. ⊥)
        (map string_bytes words.now) r.0 (I.left input.old) (I.left input.new)
        (O.taken out.old) (O.taken out.new)) }
{
    let keeper = open_told(rt, path, start)?;
    let (status, keeper) = run(rt.alloc(), words, input, out, keeper);
    Ok((status, end_run(rt, keeper)))
}

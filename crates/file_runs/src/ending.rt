// The end of a run over files.
ghost use Rattle.std.specs.Prelude.{◌⊎◌};
ghost use Rattle.tracker_keeper.specs.Rows.{Rows};
ghost use Rattle.sqlite_wal.specs.Recovery.{Image};
ghost use Rattle.sqlite.specs.Files.{file_state};
ghost use Rattle.sqlite.specs.State.{HasCleanDisk};
ghost use Rattle.keeper_told.specs.Crash.{LeavesEither};
ghost use Rattle.keeper_told.specs.Reopening.{HoldsTold};
ghost use Rattle.file_ends.specs.Ending.{IsCleanEnd, MayBeFound};

use file_ends::{Ended, end_files};
use keeper_told::ToldKeeper;
use sqlite::FileStore;
use sqlite_disk::Disk;

/// Ends a run over files: what is committed is copied into the database file, which is whole by itself then.
pub fn end_run<D: Disk + Drop>(rt: &HostRuntime, keeper: ToldKeeper<FileStore<D>>) -> Ended<D>
    // No doubt about the disks is forgotten.
    ensures told { IsCleanEnd result → HasCleanDisk (file_state keeper.conn) }
    // Whatever may be found, the database file alone in the end, holds the rows that the keeper
    // could leave.
    ensures found { IsCleanEnd result → (one other : Rows)
        → LeavesEither (file_state keeper.conn) one other → (image : Image)
        → MayBeFound result image
        → ∥ (HoldsTold image one ⊎ HoldsTold image other) ∥₁ }
{
    end_files(rt, keeper.release())
}

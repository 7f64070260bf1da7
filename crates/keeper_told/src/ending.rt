// How a run over files ends, and what it leaves for the next.
ghost use Rattle.std.specs.Prelude.{◌⊎◌, IfOk, IfErr};
ghost use Rattle.tracker_keeper.specs.Rows.{Rows};
ghost use Rattle.sqlite_trees.specs.Tree.{Trees};
ghost use Rattle.sqlite_trees.specs.View.{IsClean};
ghost use Rattle.sqlite_wal.specs.Recovery.{Image};
ghost use Rattle.sqlite_wal.specs.Files.{outcomes};
ghost use Rattle.sqlite_wal.specs.Reads.{AreClean};
ghost use Rattle.sqlite_store.specs.FileStore as store;
ghost use Rattle.sqlite.specs.Files.{file_state};
ghost use Rattle.sqlite.specs.State.{HasCleanDisk};
ghost use Rattle.keeper_told.specs.Keeping.{HoldsRows, IsKeeping};
ghost use Rattle.keeper_told.specs.Reopening.{HoldsTold, AloneHas};
ghost use Rattle.keeper_told.specs.Crash.{LeavesEither};

use crate::told_keeper::ToldKeeper;
use sqlite::FileStore;
use sqlite_disk::{Disk, Files};

impl<D: Disk + Drop> ToldKeeper<FileStore<D>> {
    /// Ends the run and copies nothing. A crash that came at any moment is a run whose files fail from then on: whatever is left then
    /// holds what the connection could leave, for the next run to open.
    pub fn abandon(self) -> FileStore<D>
        ensures told { IsClean (store.view result) → HasCleanDisk (file_state self.conn) }
        ensures left { IsClean (store.view result) → (one other : Rows)
            → LeavesEither (file_state self.conn) one other → (image : Image)
            → (store.state result).may_leave image
            → ∥ (HoldsTold image one ⊎ HoldsTold image other) ∥₁ }
    {
        self.release().into_store()
    }

    /// Ends the run, and copies what is committed into the database file, which is whole by itself then.
    pub fn close(self) -> Result<Files<D>, FileStore<D>>
        ensures whole { IfOk result (λ files. AreClean D.Disk files.log files.db → (rows : Rows)
            → IsKeeping (file_state self.conn) rows → (image : Image)
            → outcomes D.Disk files.log files.db image → AloneHas image rows) }
        ensures failed { IfErr result (λ left. IsClean (store.view left) → (one other : Rows)
            → LeavesEither (file_state self.conn) one other → (db : Trees)
            → store.recovers left db → HoldsRows db one ⊎ HoldsRows db other) }
    {
        let connection = self.release();
        // It is live.
        let _ = connection.schema();
        match connection.close_files() {
            Ok(files) => Ok(files),
            Err((_, store)) => Err(store),
        }
    }
}

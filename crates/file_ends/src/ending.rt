// The end of a connection over files.
ghost use Rattle.std.specs.Prelude.{IsTrue};
ghost use Rattle.sqlite_trees.specs.Tree.{Trees};
ghost use Rattle.sqlite_trees.specs.View.{IsClean};
ghost use Rattle.sqlite_wal.specs.Recovery.{Image};
ghost use Rattle.sqlite_store.specs.FileStore as shown;
ghost use Rattle.sqlite.specs.Files.{file_state, HoldsDatabase};
ghost use Rattle.sqlite.specs.Held.{AreDatabases};
ghost use Rattle.sqlite.specs.State.{HasCleanDisk};
ghost use Rattle.file_ends.specs.Ending.{IsCleanEnd, MayBeFound};

use crate::copying::copy_files;
use crate::ended::Ended;
use sqlite::{Connection, FileStore};
use sqlite_disk::Disk;

/// Rolls back what is not committed, and copies what is into the database file. The files are read anew for that, since only the log's
/// own calls say which bytes a crash leaves on the way.
pub fn end_files<D: Disk + Drop>(rt: &HostRuntime, connection: Connection<FileStore<D>>) -> Ended<D>
    // No doubt about the disks is forgotten.
    ensures told { IsCleanEnd result → HasCleanDisk (file_state connection) }
    // Whatever may be found holds a database that the connection could leave.
    ensures found { IsCleanEnd result → (image : Image) → MayBeFound result image
        → ∥ ((db : Trees) × (file_state connection).may_leave db × HoldsDatabase image db) ∥₁ }
{
    end_store(rt, connection.into_store())
}

// The end of a store, whose databases are sound and numbered.
fn end_store<D: Disk>(rt: &HostRuntime, store: FileStore<D>) -> Ended<D>
    ensures clean { IsCleanEnd result → IsClean (shown.view store) }
    ensures found { IsCleanEnd result → IsTrue (shown.view store).is_numbered
        → AreDatabases (shown.recovers store) → (image : Image) → MayBeFound result image
        → ∥ ((db : Trees) × shown.recovers store db × HoldsDatabase image db) ∥₁ }
{
    let files = store.close();
    match files.may_be_used() {
        true => copy_files(rt, files),
        false => Ended::parted(files),
    }
}

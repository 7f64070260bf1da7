// A keeper of the rows of a file.
use keeper_told::ToldKeeper;
use sqlite::{FileFrom, FileStore, Unknown};
use tracker_keeper::{KeepFault, Keeper, Row, RowOp};

/// What keeps the rows of a file, as one type without parameters: a server's workers send it from thread to thread, and so what may be
/// sent is looked at once, in its proof, and not wherever it is named.
#[derive(Drop)]
pub struct FileKeeper {
    /// The keeper over the file's connection.
    pub keeper: ToldKeeper<FileStore<FileFrom<Unknown>>>,
}

impl Keeper for FileKeeper {
    ghost use Rattle.store_servers.specs.Keepers.{FileKeeps, FileLeaves, FileTells, file_faults};

    ghost faults = { file_faults };

    ghost tells = { FileTells };

    ghost keeps = { FileKeeps };

    ghost leaves = { FileLeaves };

    fn commit(&mut self, ops: &[RowOp]) -> Result<(), KeepFault> {
        self.keeper.commit(ops)
    }

    fn rows(&mut self) -> Result<Vec<Row>, KeepFault> {
        self.keeper.rows()
    }
}

// How an end went.
ghost use Rattle.std.specs.Prelude.{◌≡◌, IsTrue, false};

use sqlite_disk::{Disk, Files};

/// How a connection over files has ended: all that is committed was copied into the database file, which is whole by itself then; or the
/// two files hold it together.
#[derive(Drop)]
pub struct Ended<D: Disk> {
    files: Files<D>,
    is_whole: bool,
    ghost usable: { IsTrue is_whole
        → IsTrue (D.Disk.is_usable files.log) × IsTrue (D.Disk.is_usable files.db) },
}

impl<D: Disk> Ended<D> {
    pub(crate) fn whole(files: Files<D>) -> Ended<D>
        requires { IsTrue (D.Disk.is_usable files.log) × IsTrue (D.Disk.is_usable files.db) }
        ensures files { result.files ≡ files }
        ensures whole { IsTrue result.is_whole }
    {
        Ended {
            files,
            is_whole: true,
        }
    }

    pub(crate) fn parted(files: Files<D>) -> Ended<D>
        ensures files { result.files ≡ files }
        ensures parted { result.is_whole ≡ false }
    {
        Ended {
            files,
            is_whole: false,
        }
    }

    /// Whether the database file is whole by itself.
    pub fn is_whole(&self) -> bool
        ensures { result ≡ self.now.is_whole }
    {
        self.is_whole
    }

    pub fn into_files(self) -> Files<D>
        ensures { result ≡ self.files }
    {
        let Ended { files, is_whole: _ } = self;
        files
    }
}

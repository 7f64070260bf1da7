// A log that is copied into its database file.
ghost use Rattle.std.specs.Prelude.{◌≡◌, IsTrue, IfSome, ℕ};
ghost use Rattle.sqlite_wal.specs.PageSize.{bytes_of};
ghost use Rattle.sqlite_wal.specs.Recovery.{Image};
ghost use Rattle.sqlite_wal.specs.Files.{outcomes, seen_image};
ghost use Rattle.sqlite_wal.specs.Reads.{AreClean};
ghost use Rattle.sqlite_wal.specs.Log.{state, frames, committed_frames, AreUsable};
ghost use Rattle.sqlite_trees.specs.Tree.{Trees};
ghost use Rattle.sqlite_pool.specs.Stored.{stored_size};
ghost use Rattle.sqlite.specs.Files.{HoldsDatabase};
ghost use Rattle.file_ends.specs.Ending.{IsCleanEnd, MayBeFound, StandsForOne};

use crate::ended::Ended;
use sqlite_disk::{Disk, Files};
use sqlite_wal::{Log, PageSize, probe_page_size};
use std::alloc::Global;
use std::random::RandomSource;

/// Copies the log of files that hold a database into the database file.
pub(crate) fn copy_files<D: Disk>(rt: &HostRuntime, files: Files<D>) -> Ended<D>
    requires log { IsTrue (D.Disk.is_usable files.log) }
    requires db { IsTrue (D.Disk.is_usable files.db) }
    // No doubt about the disks is forgotten.
    ensures clean { IsCleanEnd result → AreClean D.Disk files.log files.db }
    // Whatever may be found stands for what a crash could leave before, page by page.
    ensures found { IsCleanEnd result → (db : Trees)
        → (held : HoldsDatabase (seen_image D.Disk files.log files.db) db) → (image : Image)
        → MayBeFound result image
        → StandsForOne (stored_size held.0) (outcomes D.Disk files.log files.db) image }
{
    let mut files = files;
    match probe_page_size(&mut files) {
        Ok(found) => copy_sized(rt, files, found),
        Err(_) => Ended::parted(files),
    }
}

// The same, by the size of a page that was found.
fn copy_sized<D: Disk>(rt: &HostRuntime, files: Files<D>, found: Option<PageSize>) -> Ended<D>
    requires log { IsTrue (D.Disk.is_usable files.log) }
    requires db { IsTrue (D.Disk.is_usable files.db) }
    ensures clean { IsCleanEnd result → AreClean D.Disk files.log files.db }
    ensures found { IsCleanEnd result → (size : ℕ) → IfSome found (λ it. size ≡ bytes_of it)
        → (image : Image) → MayBeFound result image
        → StandsForOne size (outcomes D.Disk files.log files.db) image }
{
    match found {
        Some(size) => copy_salted(rt, files, size),
        None => Ended::parted(files),
    }
}

// With salts that are made of something random, where the system gives it.
fn copy_salted<D: Disk>(rt: &HostRuntime, files: Files<D>, size: PageSize) -> Ended<D>
    requires log { IsTrue (D.Disk.is_usable files.log) }
    requires db { IsTrue (D.Disk.is_usable files.db) }
    ensures clean { IsCleanEnd result → AreClean D.Disk files.log files.db }
    ensures found { IsCleanEnd result → (image : Image) → MayBeFound result image
        → StandsForOne (bytes_of size) (outcomes D.Disk files.log files.db) image }
{
    match seed(rt) {
        Some(seed) => copy_log(rt.alloc(), files, size, seed),
        None => Ended::parted(files),
    }
}

fn seed(rt: &HostRuntime) -> Option<u64> {
    let mut bytes = [0; 8];
    match rt.fill_bytes(&mut bytes) {
        Ok(()) => Some(u64::from_le_bytes(bytes)),
        Err(_) => None,
    }
}

fn copy_log<D: Disk>(alloc: Global, files: Files<D>, size: PageSize, seed: u64) -> Ended<D>
    requires log { IsTrue (D.Disk.is_usable files.log) }
    requires db { IsTrue (D.Disk.is_usable files.db) }
    ensures clean { IsCleanEnd result → AreClean D.Disk files.log files.db }
    ensures found { IsCleanEnd result → (image : Image) → MayBeFound result image
        → StandsForOne (bytes_of size) (outcomes D.Disk files.log files.db) image }
{
    match Log::new(alloc, files, size, seed) {
        Ok(log) => recover(log),
        Err(failed) => Ended::parted(failed.value),
    }
}

// Reads the log, and copies it.
fn recover<D: Disk>(log: Log<D>) -> Ended<D>
    requires { AreUsable log }
    ensures clean { IsCleanEnd result → IsTrue (state log).is_clean }
    ensures found { IsCleanEnd result → (image : Image) → MayBeFound result image
        → StandsForOne (state log).page_size (state log).may_leave image }
{
    let mut log = log;
    match log.recover() {
        Ok(()) => finish(log),
        Err(_) => parted(log),
    }
}

// Copies a log that was read.
fn finish<D: Disk>(log: Log<D>) -> Ended<D>
    requires open { IsTrue (state log).is_ready }
    requires clean { committed_frames log ≡ frames log }
    ensures clean { IsCleanEnd result → IsTrue (state log).is_clean }
    ensures found { IsCleanEnd result → (image : Image) → MayBeFound result image
        → StandsForOne (state log).page_size (state log).may_leave image }
{
    let mut log = log;
    match log.finish() {
        Ok(()) => whole(log),
        Err(_) => parted(log),
    }
}

// The end with a log that is copied.
fn whole<D: Disk>(log: Log<D>) -> Ended<D>
    requires open { IsTrue (state log).is_ready }
    requires empty { frames log ≡ 0 }
    ensures clean { IsCleanEnd result → IsTrue (state log).is_clean }
    ensures found { IsCleanEnd result → (image : Image) → MayBeFound result image
        → StandsForOne (state log).page_size (state log).may_leave image }
{
    Ended::whole(log.into_files())
}

// The end with one that isn't.
fn parted<D: Disk>(log: Log<D>) -> Ended<D>
    ensures clean { IsCleanEnd result → IsTrue (state log).is_clean }
    ensures found { IsCleanEnd result → (image : Image) → MayBeFound result image
        → StandsForOne (state log).page_size (state log).may_leave image }
{
    Ended::parted(log.into_files())
}

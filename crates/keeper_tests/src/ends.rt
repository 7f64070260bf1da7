use crate::operations::over;
use crate::stops::{COMMITS, Fused, OPTIONS, are_after, commit_all, fused, reopened};
use file_ends::end_files;
use sqlite::{Connection, Files};
use sqlite_disk::{Fuse, Memory};
use std::alloc::Global;
use tracker_keeper::Keeper;

/// What is left of files that stop after so many calls, once all commits were acknowledged and the run was ended; and whether all was
/// copied.
fn ended_after(rt: &HostRuntime, calls: u64) -> Option<(Files<Fused>, bool)> {
    let alloc = rt.alloc();
    let files = fused(alloc, calls);
    if !files.may_be_used() {
        return None;
    }
    let conn = match Connection::open_files(alloc, files, OPTIONS) {
        Ok(conn) => conn,
        Err(_) => return None,
    };
    let mut keeper = over(alloc, conn)?;
    let (done, _) = commit_all(alloc, &mut keeper, COMMITS.len())?;
    if done < COMMITS.len() {
        return None;
    }
    let end = end_files(rt, keeper.release());
    let is_whole = end.is_whole();
    Some((end.into_files(), is_whole))
}

/// The database file beside a log that is empty.
fn alone(alloc: Global, files: Files<Fused>) -> Files<Fused> {
    Files {
        log: Fuse::new(Memory::new(alloc), 1_000),
        db: files.db,
    }
}

fn hold_all(alloc: Global, files: Files<Fused>) -> Option<bool> {
    let found = reopened(alloc, files)?.rows().ok()?;
    are_after(alloc, &found, COMMITS.len())
}

/// Whether files that stop after so many calls hold all rows, the database file by itself where all was copied; and whether it was.
fn ends_after(rt: &HostRuntime, calls: u64) -> Option<(bool, bool)> {
    let alloc = rt.alloc();
    let (files, is_whole) = ended_after(rt, calls)?;
    if is_whole {
        let files = alone(alloc, files);
        return Some((hold_all(alloc, files)?, true));
    }
    Some((hold_all(alloc, files)?, false))
}

#[test]
fn a_disk_that_stops_while_its_log_is_copied(rt: HostRuntime) {
    let mut right = true;
    for calls in 48..72 {
        match ends_after(&rt, calls) {
            Some((true, _)) => {}
            _ => right = false,
        }
    }
    assert!(rt; right);
}

#[test]
fn one_whole_file_is_left(rt: HostRuntime) {
    let passes = ends_after(&rt, 1_000) == Some((true, true));
    assert!(rt; passes);
}

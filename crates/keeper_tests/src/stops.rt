ghost use Rattle.std.specs.Prelude.{IsTrue};
ghost use Rattle.sqlite_disk.specs.Fuse.{IsFresh};

use crate::operations::{commit_three, operation, over};
use keeper_told::ToldKeeper;
use sqlite::{Connection, FileStore, Files, Options};
use sqlite_disk::{Crash, Fuse, Memory};
use std::alloc::Global;
use tracker_keeper::{Keeper, NeverFails, Row};

pub(crate) type Fused = Fuse<Memory>;

pub(crate) type Over = ToldKeeper<FileStore<Fused>>;

pub(crate) const OPTIONS: Options = Options {
    cache_pages: 8,
    spill_pages: 8,
    checkpoint_frames: 1000,
    seed: 7,
};

/// What an opening, a tick and two new issues put, three rows a commit.
pub(crate) const COMMITS: [[(u8, u32, &str); 3]; 4] = [
    [(1, 0, "users = []"), (2, 0, "{\"moment\":0}"), (9, 9, "")],
    [(2, 0, "{\"moment\":1709251200}"), (9, 9, ""), (9, 8, "")],
    [
        (2, 0, "{\"change\":1}"),
        (3, 1, "{\"key\":\"OPS-1\"}"),
        (5, 1, "0|i00000:"),
    ],
    [
        (2, 0, "{\"change\":2}"),
        (3, 2, "{\"key\":\"OPS-2\"}"),
        (5, 2, "0|i006bk:"),
    ],
];

fn commit_at<K: Keeper>(alloc: Global, keeper: &mut K, at: usize) -> Option<bool> {
    let [one, two, three] = COMMITS.get(at)?;
    let one = operation(alloc, one.0, one.1, one.2)?;
    let two = operation(alloc, two.0, two.1, two.2)?;
    let three = operation(alloc, three.0, three.1, three.2)?;
    Some(commit_three(keeper, one, two, three))
}

/// How many commits are acknowledged, of so many, and whether none is after one that failed.
pub(crate) fn commit_all<K: Keeper>(
    alloc: Global,
    keeper: &mut K,
    most: usize,
) -> Option<(usize, bool)> {
    let mut done = 0;
    let mut stays = true;
    for at in 0..most {
        if commit_at(alloc, keeper, at)? {
            if done < at {
                stays = false;
            }
            done = at + 1;
        }
    }
    Some((done, stays))
}

/// The rows after so many commits.
fn rows_after(alloc: Global, commits: usize) -> Option<Vec<Row>> {
    let mut keeper = NeverFails::new(alloc, &[]).ok()?;
    let _ = commit_all(alloc, &mut keeper, commits)?;
    keeper.rows().ok()
}

fn is_same(one: &Row, other: &Row) -> bool {
    one.kind == other.kind && one.no == other.no && one.body.is_same(&other.body)
}

fn are_same(one: &[Row], other: &[Row]) -> bool {
    if one.len() != other.len() {
        return false;
    }
    for (one, other) in one.iter().zip(other.iter()) {
        if !is_same(one, other) {
            return false;
        }
    }
    true
}

/// Whether these are the rows after so many commits, or after all.
pub(crate) fn are_after(alloc: Global, found: &[Row], commits: usize) -> Option<bool> {
    let rows = rows_after(alloc, COMMITS.len().min(commits))?;
    Some(are_same(found, &rows))
}

pub(crate) fn fused(alloc: Global, calls: u64) -> Files<Fused> {
    Files {
        log: Fuse::new(Memory::new(alloc), calls),
        db: Fuse::new(Memory::new(alloc), calls),
    }
}

/// A keeper that tells its rows tells those that were acknowledged. It may fail once its disk has stopped.
fn tells_what_was_done(alloc: Global, keeper: &mut Over, done: usize) -> Option<bool> {
    match keeper.rows() {
        Ok(told) => are_after(alloc, &told, done),
        Err(_) => Some(done < COMMITS.len()),
    }
}

/// What is left of the files once all commits were tried, how many were acknowledged, and whether the keeper told them and acknowledged
/// none after one that failed.
fn left_after(alloc: Global, files: Files<Fused>) -> Option<(Files<Fused>, usize, bool)> {
    if !files.may_be_used() {
        return None;
    }
    let conn = match Connection::open_files(alloc, files, OPTIONS) {
        Ok(conn) => conn,
        Err((_, left)) => return Some((left.into_files(), 0, true)),
    };
    let mut keeper = over(alloc, conn)?;
    let (done, stays) = commit_all(alloc, &mut keeper, COMMITS.len())?;
    let tells = tells_what_was_done(alloc, &mut keeper, done)?;
    Some((keeper.release().into_store().close(), done, stays && tells))
}

pub(crate) fn reopened(alloc: Global, mut files: Files<Fused>) -> Option<Over> {
    files.log.crash();
    files.db.crash();
    over(alloc, Connection::open_files(alloc, files, OPTIONS).ok()?)
}

/// Whether a disk that stops after so many calls leaves just what was acknowledged, or that with the commit that was under way; and how
/// many commits were acknowledged.
fn stops_after(alloc: Global, calls: u64) -> Option<(bool, usize)> {
    let (files, done, stays) = left_after(alloc, fused(alloc, calls))?;
    let found = reopened(alloc, files)?.rows().ok()?;
    let right = are_after(alloc, &found, done)?
        || are_after(alloc, &found, done.saturating_add(1))?;
    Some((right && stays, done))
}

fn all_are_right(alloc: Global, from: u64, upto: u64) -> bool {
    for calls in from..upto {
        match stops_after(alloc, calls) {
            Some((true, _)) => {}
            _ => return false,
        }
    }
    true
}

#[test]
fn a_disk_that_stops_while_it_is_opened(rt: HostRuntime) {
    let passes = all_are_right(rt.alloc(), 0, 16);
    assert!(rt; passes);
}

#[test]
fn a_disk_that_stops_in_an_early_commit(rt: HostRuntime) {
    let passes = all_are_right(rt.alloc(), 16, 32);
    assert!(rt; passes);
}

#[test]
fn a_disk_that_stops_in_a_later_commit(rt: HostRuntime) {
    let passes = all_are_right(rt.alloc(), 32, 48);
    assert!(rt; passes);
}

#[test]
fn a_disk_that_does_not_stop(rt: HostRuntime) {
    let passes = stops_after(rt.alloc(), 48) == Some((true, COMMITS.len()));
    assert!(rt; passes);
}

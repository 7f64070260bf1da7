ghost use Rattle.std.specs.Prelude.{IsTrue};
ghost use Rattle.sqlite_disk.specs.Fuse.{IsFresh};

use crate::day::{DAY, FAILED};
use crate::runs::{Left, Ran, are_same, exec_over, left_in_memory, rows_of};
use keeper_told::ToldKeeper;
use sqlite::{Connection, FileStore, Files, Options};
use sqlite_disk::{Crash, Fuse, Memory};
use std::alloc::{AllocError, Global};
use std::test::Fail;
use tracker_keeper::Row;

/// A disk in memory that stops after a number of calls.
type Fused = Fuse<Memory>;

type Over = ToldKeeper<FileStore<Fused>>;

const OPTIONS: Options = Options {
    cache_pages: 8,
    spill_pages: 8,
    checkpoint_frames: 1000,
    seed: 7,
};

/// No run has so many calls of a disk.
const MOST: u64 = 1_000;

fn fused(alloc: Global, calls: u64) -> Files<Fused> {
    Files {
        log: Fuse::new(Memory::new(alloc), calls),
        db: Fuse::new(Memory::new(alloc), calls),
    }
}

// The lines of the day, each with its line feed.
fn day(alloc: Global) -> Result<Vec<u8>, AllocError> {
    lines_but(alloc, &[], 0)
}

// The keeper of a connection with no transaction open.
fn over(alloc: Global, conn: Connection<FileStore<Fused>>) -> Option<Over> {
    if !conn.is_autocommit() {
        return None;
    }
    Some(ToldKeeper::adopt(alloc, conn))
}

/// What a run over files left of them, its status and what was written.
#[derive(Drop)]
struct Stopped {
    status: u8,
    out: Vec<u8>,
    files: Files<Fused>,
}

// What a run of the day leaves of files whose disks stop after so many calls.
fn left_after(alloc: Global, calls: u64) -> Result<Stopped, AllocError> {
    let files = fused(alloc, calls);
    if !files.may_be_used() {
        return Err(AllocError);
    }
    match Connection::open_files(alloc, files, OPTIONS) {
        Ok(conn) => left_by(alloc, conn),
        Err((_, left)) => Ok(Stopped {
            status: 4,
            out: Vec::new(alloc),
            files: left.into_files(),
        }),
    }
}

fn left_by(alloc: Global, conn: Connection<FileStore<Fused>>) -> Result<Stopped, AllocError> {
    let Some(keeper) = over(alloc, conn) else {
        return Err(AllocError);
    };
    let Ran {
        status,
        out,
        keeper,
    } = exec_over(alloc, &day(alloc)?, keeper)?;
    Ok(Stopped {
        status,
        out,
        files: keeper.release().into_store().close(),
    })
}

// The keeper of what is found once the machine has stopped.
fn reopened(alloc: Global, mut files: Files<Fused>) -> Option<Over> {
    files.log.crash();
    files.db.crash();
    over(alloc, Connection::open_files(alloc, files, OPTIONS).ok()?)
}

// The rows that are found then.
fn found(alloc: Global, files: Files<Fused>) -> Result<Vec<Row>, AllocError> {
    match reopened(alloc, files) {
        Some(mut keeper) => rows_of(&mut keeper),
        None => Err(AllocError),
    }
}

/// Which lines were answered that the keeper failed, and the replies to the others.
#[derive(Drop)]
struct Answers {
    failed: Vec<bool>,
    others: Vec<u8>,
}

fn answers_in(alloc: Global, out: &[u8]) -> Result<Answers, AllocError> {
    let mut answers = Answers {
        failed: Vec::new(alloc),
        others: Vec::new(alloc),
    };
    let mut line = Vec::new(alloc);
    for byte in out {
        line.push(*byte)?;
        if *byte == b'\n' {
            let has_failed = line.as_slice() == FAILED;
            answers.failed.push(has_failed)?;
            if !has_failed {
                answers.others.extend_from_slice(&line)?;
            }
            line.clear();
        }
    }
    Ok(answers)
}

// The lines of the day but those that were answered that the keeper failed, and the first so many of these.
fn lines_but(alloc: Global, failed: &[bool], more: usize) -> Result<Vec<u8>, AllocError> {
    let mut text = Vec::new(alloc);
    let mut added: usize = 0;
    for (place, line) in DAY.iter().enumerate() {
        let has_failed = failed.get(place) == Some(&true);
        if !has_failed || added < more {
            text.extend_from_slice(line.as_bytes())?;
            text.push(b'\n')?;
        }
        if has_failed {
            added = added.saturating_add(1);
        }
    }
    Ok(text)
}

/// What has to be found where these lines were answered that the keeper failed: the others were acknowledged, and the first of these may
/// have been under way.
#[derive(Drop)]
struct Due {
    failed: Vec<bool>,
    acknowledged: Left,
    under_way: Left,
    is_whole: bool,
}

fn due_of(alloc: Global, failed: Vec<bool>) -> Result<Due, AllocError> {
    let some = lines_but(alloc, &failed, 0)?;
    let more = lines_but(alloc, &failed, 1)?;
    let is_whole = some.len() == more.len();
    Ok(Due {
        failed,
        acknowledged: left_in_memory(alloc, &some)?,
        under_way: left_in_memory(alloc, &more)?,
        is_whole,
    })
}

// The same where the lines are those of before; else it is worked out anew.
fn due_next(alloc: Global, failed: Vec<bool>, before: Due) -> Result<Due, AllocError> {
    if failed.as_slice() == before.failed.as_slice() {
        return Ok(before);
    }
    due_of(alloc, failed)
}

// Whether a run that a disk stopped before its first line wrote nothing, and kept nothing or a new tracker.
fn is_unopened(out: &[u8], rows: &[Row], opened: &Left) -> bool {
    out.is_empty() && (rows.is_empty() || are_same(rows, &opened.rows))
}

// Whether a run answered each line, and what is found is due.
fn is_due(status: u8, others: &[u8], rows: &[Row], due: &Due) -> bool {
    status == 0
        && due.failed.len() == DAY.len()
        && others == due.acknowledged.out.as_slice()
        && (are_same(rows, &due.acknowledged.rows) || are_same(rows, &due.under_way.rows))
}

// Whether disks that stop after each number of calls, from one on and below another one, leave just what was acknowledged, or that with the
// line that was under way; up to the run in which none fails.
fn stops(alloc: Global, from: u64, to: u64) -> Result<bool, AllocError> {
    let opened = left_in_memory(alloc, b"")?;
    let mut due = due_of(alloc, Vec::new(alloc))?;
    for calls in from..to {
        let Stopped { status, out, files } = left_after(alloc, calls)?;
        let rows = found(alloc, files)?;
        if status == 4 {
            if !is_unopened(&out, &rows, &opened) {
                return Ok(false);
            }
        } else {
            let Answers { failed, others } = answers_in(alloc, &out)?;
            due = due_next(alloc, failed, due)?;
            if !is_due(status, &others, &rows, &due) {
                return Ok(false);
            }
            if due.is_whole {
                return Ok(calls > 50);
            }
        }
    }
    Ok(to < MOST)
}

#[test]
fn a_day_whose_disk_stops_early(rt: HostRuntime) -> Result<(), Fail> {
    let right = stops(rt.alloc(), 0, 60)?;
    assert!(rt; right);
    Ok(())
}

#[test]
fn a_day_whose_disk_stops_late(rt: HostRuntime) -> Result<(), Fail> {
    let right = stops(rt.alloc(), 60, MOST)?;
    assert!(rt; right);
    Ok(())
}

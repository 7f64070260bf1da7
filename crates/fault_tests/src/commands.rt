use crate::fakes::{Ended, Fails, NOTHING, are_same, line_feeds, puts, text_of, tried};
use crate::stories::{
    DAY, IMPORT, NONE, Story, behind, first_of, is_cut_short, is_done, is_failed_at,
};
use fields::BUILT_IN;
use std::alloc::{AllocError, Global};
use std::test::Fail;
use tracker_keeper::RowOp;

/// No run has more calls.
const MOST: u64 = 1_000;

// The story, where this fails.
fn told(alloc: Global, story: Story, fails: Fails) -> Result<Ended, AllocError> {
    let input = text_of(alloc, story.lines, NONE, NONE)?;
    tried(alloc, story.words, &input, &[], fails)
}

// Whether each read that fails leaves the replies to the whole lines before, and the rows behind them, up to the run in which none fails.
fn reads_of_lines(alloc: Global, story: Story) -> Result<bool, AllocError> {
    let input = text_of(alloc, story.lines, NONE, NONE)?;
    let mut before: usize = 0;
    for read in 1..MOST {
        let ended = told(alloc, story, Fails { read, ..NOTHING })?;
        if is_done(alloc, story, &ended)? {
            return Ok(before > input.len());
        }
        let whole = line_feeds(&input, before);
        let due = first_of(alloc, story, whole, NONE)?;
        if ended.status != 2
            || ended.out.as_slice() != text_of(alloc, story.replies, whole, NONE)?.as_slice()
            || !are_same(&ended.rows, &due.rows)
        {
            return Ok(false);
        }
        before = before.saturating_add(NOTHING.piece);
    }
    Ok(false)
}

// Whether each read that fails leaves a tracker as it was opened, and nothing written.
fn reads_of_whole(alloc: Global, story: Story) -> Result<bool, AllocError> {
    let opened = tried(alloc, &["exec"], b"", &[], NOTHING)?;
    for read in 1..MOST {
        let ended = told(alloc, story, Fails { read, ..NOTHING })?;
        if is_done(alloc, story, &ended)? {
            return Ok(read > 2);
        }
        if ended.status != 2 || !ended.out.is_empty() || !are_same(&ended.rows, &opened.rows) {
            return Ok(false);
        }
    }
    Ok(false)
}

// Whether each write that fails leaves a front of the replies, and the rows behind the last call, up to the run in which none fails.
fn writes(alloc: Global, story: Story) -> Result<bool, AllocError> {
    let replies = text_of(alloc, story.replies, NONE, NONE)?;
    for write in 1..MOST {
        let ended = told(alloc, story, Fails { write, ..NOTHING })?;
        if is_done(alloc, story, &ended)? {
            return Ok(write > 2);
        }
        let due = behind(alloc, story, line_feeds(&ended.out, NONE))?;
        if !is_cut_short(&replies, &ended, &due) {
            return Ok(false);
        }
    }
    Ok(false)
}

// The same of each size of the sink from one on, below another one and below that of all replies.
fn rooms(alloc: Global, story: Story, from: usize, to: usize) -> Result<bool, AllocError> {
    let replies = text_of(alloc, story.replies, NONE, NONE)?;
    let mut whole = line_feeds(&replies, from);
    let mut due = behind(alloc, story, whole)?;
    for room in from..to.min(replies.len()) {
        let ended = told(alloc, story, Fails { room, ..NOTHING })?;
        let lines = line_feeds(&ended.out, NONE);
        if lines != whole {
            whole = lines;
            due = behind(alloc, story, whole)?;
        }
        if ended.out.len() != room || !is_cut_short(&replies, &ended, &due) {
            return Ok(false);
        }
    }
    Ok(true)
}

// Whether a sink that just takes all replies is enough.
fn takes_all(alloc: Global, story: Story) -> Result<bool, AllocError> {
    let room = text_of(alloc, story.replies, NONE, NONE)?.len();
    let ended = told(alloc, story, Fails { room, ..NOTHING })?;
    is_done(alloc, story, &ended)
}

// Whether each call of the keeper that fails ends the run before any line, or has one line refused, later ones at later calls, up to the
// run in which none fails.
fn keeps(alloc: Global, story: Story) -> Result<bool, AllocError> {
    let mut from: usize = 0;
    for keep in 1..MOST {
        let ended = told(alloc, story, Fails { keep, ..NOTHING })?;
        if is_done(alloc, story, &ended)? {
            return Ok(keep > 3);
        }
        if keep < 3 {
            if ended.status != 4 || !ended.out.is_empty() || !ended.rows.is_empty() {
                return Ok(false);
            }
        } else {
            match failed_from(alloc, story, &ended, from)? {
                Some(place) => from = place.saturating_add(1),
                None => return Ok(false),
            }
        }
    }
    Ok(false)
}

// The place of the one line at which the keeper failed, from a place on.
fn failed_from(
    alloc: Global,
    story: Story,
    ended: &Ended,
    from: usize,
) -> Result<Option<usize>, AllocError> {
    for place in from..story.replies.len() {
        if is_failed_at(alloc, story, ended, place)? {
            return Ok(Some(place));
        }
    }
    Ok(None)
}

#[test]
fn a_day_whose_reads_fail(rt: HostRuntime) -> Result<(), Fail> {
    let right = reads_of_lines(rt.alloc(), DAY)?;
    assert!(rt; right);
    Ok(())
}

#[test]
fn a_day_whose_writes_fail(rt: HostRuntime) -> Result<(), Fail> {
    let right = writes(rt.alloc(), DAY)? && takes_all(rt.alloc(), DAY)?;
    assert!(rt; right);
    Ok(())
}

#[test]
fn a_day_whose_sink_is_short(rt: HostRuntime) -> Result<(), Fail> {
    let right = rooms(rt.alloc(), DAY, 0, 400)?;
    assert!(rt; right);
    Ok(())
}

#[test]
fn a_day_whose_sink_is_longer(rt: HostRuntime) -> Result<(), Fail> {
    let right = rooms(rt.alloc(), DAY, 400, 700)?;
    assert!(rt; right);
    Ok(())
}

#[test]
fn a_day_whose_sink_is_nearly_long_enough(rt: HostRuntime) -> Result<(), Fail> {
    let right = rooms(rt.alloc(), DAY, 700, NONE)?;
    assert!(rt; right);
    Ok(())
}

#[test]
fn a_day_whose_keeper_fails(rt: HostRuntime) -> Result<(), Fail> {
    let right = keeps(rt.alloc(), DAY)?;
    assert!(rt; right);
    Ok(())
}

#[test]
fn an_import_in_which_a_call_fails(rt: HostRuntime) -> Result<(), Fail> {
    let alloc = rt.alloc();
    let right = reads_of_whole(alloc, IMPORT)?
        && writes(alloc, IMPORT)?
        && rooms(alloc, IMPORT, 0, NONE)?
        && takes_all(alloc, IMPORT)?
        && keeps(alloc, IMPORT)?;
    assert!(rt; right);
    Ok(())
}

// Whether words that write in the end alone do all else where a write fails or the sink is short: the rows are the same, and a front is
// written.
fn writes_alone(
    alloc: Global,
    words: &[&str],
    input: &[u8],
    before: &[RowOp],
) -> Result<bool, AllocError> {
    let whole = tried(alloc, words, input, before, NOTHING)?;
    for write in 1..MOST {
        let ended = tried(alloc, words, input, before, Fails { write, ..NOTHING })?;
        if ended.status == whole.status {
            if write == 1 || ended.out.as_slice() != whole.out.as_slice() {
                return Ok(false);
            }
            break;
        }
        if ended.status != 3
            || !whole.out.starts_with(&ended.out)
            || !are_same(&ended.rows, &whole.rows)
        {
            return Ok(false);
        }
    }
    for room in 0..whole.out.len() {
        let ended = tried(alloc, words, input, before, Fails { room, ..NOTHING })?;
        if ended.status != 3
            || ended.out.len() != room
            || !whole.out.starts_with(&ended.out)
            || !are_same(&ended.rows, &whole.rows)
        {
            return Ok(false);
        }
    }
    Ok(true)
}

// Whether words end with status 4, nothing written and the rows as they were, where the keeper fails at one of its first so many calls, and
// as ever where it would fail at the next one.
fn keeps_alone(
    alloc: Global,
    words: &[&str],
    input: &[u8],
    before: &[RowOp],
    calls: u64,
) -> Result<bool, AllocError> {
    let whole = tried(alloc, words, input, before, NOTHING)?;
    for keep in 1..calls.saturating_add(1) {
        let ended = tried(alloc, words, input, before, Fails { keep, ..NOTHING })?;
        if ended.status != 4 || !ended.out.is_empty() || !are_same(&ended.rows, &whole.rows) {
            return Ok(false);
        }
    }
    let keep = calls.saturating_add(1);
    let ended = tried(alloc, words, input, before, Fails { keep, ..NOTHING })?;
    Ok(
        ended.status == whole.status
            && ended.out.as_slice() == whole.out.as_slice()
            && are_same(&ended.rows, &whole.rows),
    )
}

#[test]
fn an_export_in_which_a_call_fails(rt: HostRuntime) -> Result<(), Fail> {
    let alloc = rt.alloc();
    let before = puts(alloc, told(alloc, DAY, NOTHING)?.rows)?;
    let whole = tried(alloc, &["export"], b"", &before, NOTHING)?;
    assert!(rt; whole.status == 0 && line_feeds(&whole.out, NONE) == 5);
    let right = writes_alone(alloc, &["export"], b"", &before)?
        && keeps_alone(alloc, &["export"], b"", &before, 1)?;
    assert!(rt; right);
    Ok(())
}

// Whether an `init` whose reads or calls of the keeper fail makes nothing, up to the run in which none fails.
fn inits(alloc: Global) -> Result<bool, AllocError> {
    let text = BUILT_IN.as_bytes();
    let whole = tried(alloc, &["init"], text, &[], NOTHING)?;
    let opened = tried(alloc, &["exec"], b"", &[], NOTHING)?;
    if whole.status != 0 || !whole.out.is_empty() || !are_same(&whole.rows, &opened.rows) {
        return Ok(false);
    }
    let mut reads = false;
    for read in 1..MOST {
        let ended = tried(alloc, &["init"], text, &[], Fails { read, ..NOTHING })?;
        if ended.status == 0 {
            reads = read > 2 && are_same(&ended.rows, &whole.rows);
            break;
        }
        if ended.status != 2 || !ended.out.is_empty() || !ended.rows.is_empty() {
            return Ok(false);
        }
    }
    for keep in 1..MOST {
        let ended = tried(alloc, &["init"], text, &[], Fails { keep, ..NOTHING })?;
        if ended.status == 0 {
            return Ok(reads && keep == 3 && are_same(&ended.rows, &whole.rows));
        }
        if ended.status != 4 || !ended.out.is_empty() || !ended.rows.is_empty() {
            return Ok(false);
        }
    }
    Ok(false)
}

#[test]
fn an_init_in_which_a_call_fails(rt: HostRuntime) -> Result<(), Fail> {
    let alloc = rt.alloc();
    let right = inits(alloc)?;
    assert!(rt; right);
    // What it writes where it makes nothing.
    let before = puts(alloc, told(alloc, DAY, NOTHING)?.rows)?;
    let text = BUILT_IN.as_bytes();
    let held = writes_alone(alloc, &["init"], text, &before)?
        && keeps_alone(alloc, &["init"], text, &before, 1)?
        && writes_alone(alloc, &["init"], b"users = 3", &[])?
        && keeps_alone(alloc, &["init"], b"users = 3", &[], 0)?;
    assert!(rt; held);
    Ok(())
}

// Whether a load in which the keeper fails writes nothing and leaves a tracker, or no row where it fails before, up to the run in which it
// doesn't.
fn loads(alloc: Global) -> Result<bool, AllocError> {
    let words = ["generate", "4"];
    let whole = tried(alloc, &words, b"", &[], NOTHING)?;
    let mut rows: usize = 0;
    for keep in 1..MOST {
        let ended = tried(alloc, &words, b"", &[], Fails { keep, ..NOTHING })?;
        if ended.status == 0 {
            return Ok(keep > 10 && are_same(&ended.rows, &whole.rows));
        }
        if ended.status != 4 || !ended.out.is_empty() || ended.rows.len() < rows {
            return Ok(false);
        }
        rows = ended.rows.len();
        if keep < 3 && rows > 0 {
            return Ok(false);
        }
        if keep > 2 && !is_opened(alloc, ended)? {
            return Ok(false);
        }
    }
    Ok(false)
}

// Whether rows are a tracker's, by a run that makes no call.
fn is_opened(alloc: Global, ended: Ended) -> Result<bool, AllocError> {
    let count = ended.rows.len();
    let before = puts(alloc, ended.rows)?;
    let opened = tried(alloc, &["exec"], b"", &before, NOTHING)?;
    Ok(opened.status == 0 && opened.rows.len() == count)
}

#[test]
fn a_load_in_which_a_call_fails(rt: HostRuntime) -> Result<(), Fail> {
    let alloc = rt.alloc();
    let right = writes_alone(alloc, &["generate", "4"], b"", &[])? && loads(alloc)?;
    assert!(rt; right);
    Ok(())
}

use request_lines::{MemorySink, MemorySource};
use std::alloc::{AllocError, Global};
use tracker_cli::run;
use tracker_keeper::{Keeper, MemoryKeeper, Row, RowOp};

/// At which call each of the outside fails, counted from 1, or at none where it is 0; how many bytes a read gives; and how many the sink
/// takes in all.
#[derive(Clone, Copy)]
pub(crate) struct Fails {
    pub(crate) read: u64,
    pub(crate) write: u64,
    pub(crate) keep: u64,
    pub(crate) piece: usize,
    pub(crate) room: usize,
}

/// Nothing fails.
pub(crate) const NOTHING: Fails = Fails {
    read: 0,
    write: 0,
    keep: 0,
    piece: 50,
    room: 10_000,
};

/// How a run ended: its status, what was written, and the rows that are kept.
#[derive(Drop)]
pub(crate) struct Ended {
    pub(crate) status: u8,
    pub(crate) out: Vec<u8>,
    pub(crate) rows: Vec<Row>,
}

/// Bytes that come in pieces of this length, one of which fails to be read.
pub(crate) fn source_of(
    alloc: Global,
    bytes: &[u8],
    piece: usize,
    failing: u64,
) -> Result<MemorySource, AllocError> {
    let mut pieces = Vec::new(alloc);
    for _ in 0..bytes.len() {
        pieces.push(piece)?;
    }
    Ok(MemorySource::new(bytes.to_vec(alloc)?, pieces, [failing].to_vec(alloc)?))
}

/// What a run reads and writes.
#[derive(Drop)]
struct Streams {
    words: Vec<String>,
    source: MemorySource,
    sink: MemorySink,
}

fn streams_of(
    alloc: Global,
    words: &[&str],
    input: &[u8],
    fails: Fails,
) -> Result<Streams, AllocError> {
    let mut all = Vec::new(alloc);
    for word in words {
        all.push(String::from_str(alloc, word)?)?;
    }
    let sink = MemorySink::new(alloc, fails.room, [fails.write].to_vec(alloc)?)?;
    Ok(Streams {
        words: all,
        source: source_of(alloc, input, fails.piece, fails.read)?,
        sink,
    })
}

/// A keeper of the rows that these operations leave, one of whose calls fails.
pub(crate) fn in_memory(
    alloc: Global,
    before: &[RowOp],
    failing: u64,
) -> Result<MemoryKeeper, AllocError> {
    match MemoryKeeper::new(alloc, before, [failing].to_vec(alloc)?) {
        Ok(keeper) => Ok(keeper),
        Err(_) => Err(AllocError),
    }
}

/// A run's status, what was written, and what keeps the rows.
#[derive(Drop)]
pub(crate) struct Ran {
    pub(crate) status: u8,
    pub(crate) out: MemorySink,
    pub(crate) kept: MemoryKeeper,
}

/// Runs these words over an input and a keeper, where one call of the streams fails.
pub(crate) fn run_over(
    alloc: Global,
    words: &[&str],
    input: &[u8],
    fails: Fails,
    kept: MemoryKeeper,
) -> Result<Ran, AllocError> {
    let Ok(mut streams) = streams_of(alloc, words, input, fails) else {
        return Err(AllocError);
    };
    let (status, kept) = run(
        alloc,
        &streams.words,
        &mut streams.source,
        &mut streams.sink,
        kept,
    );
    let Streams {
        words: _,
        source: _,
        sink,
    } = streams;
    Ok(Ran {
        status,
        out: sink,
        kept,
    })
}

/// The rows that are kept. The one call that fails may be this one.
pub(crate) fn rows_of<K: Keeper>(keeper: &mut K) -> Result<Vec<Row>, AllocError> {
    match keeper.rows() {
        Ok(rows) => Ok(rows),
        Err(_) => match keeper.rows() {
            Ok(rows) => Ok(rows),
            Err(_) => Err(AllocError),
        },
    }
}

/// Operations that put these rows.
pub(crate) fn puts(alloc: Global, rows: Vec<Row>) -> Result<Vec<RowOp>, AllocError> {
    let mut ops = Vec::new(alloc);
    for row in rows {
        ops.push(RowOp::Put(row))?;
    }
    Ok(ops)
}

/// How a run that left this ended.
pub(crate) fn end_of(alloc: Global, ran: Ran) -> Result<Ended, AllocError> {
    let Ran {
        status,
        out,
        mut kept,
    } = ran;
    let rows = rows_of(&mut kept);
    drop(kept);
    Ok(Ended {
        status,
        out: out.taken().to_vec(alloc)?,
        rows: rows?,
    })
}

/// Runs these words over an input and a keeper of these rows, where one call fails.
pub(crate) fn tried(
    alloc: Global,
    words: &[&str],
    input: &[u8],
    before: &[RowOp],
    fails: Fails,
) -> Result<Ended, AllocError> {
    let kept = in_memory(alloc, before, fails.keep)?;
    let ran = run_over(alloc, words, input, fails, kept)?;
    end_of(alloc, ran)
}

fn is_same(one: &Row, other: &Row) -> bool {
    one.kind == other.kind && one.no == other.no && one.body.is_same(&other.body)
}

/// Whether both are the same rows.
pub(crate) fn are_same(one: &[Row], other: &[Row]) -> bool {
    if one.len() != other.len() {
        return false;
    }
    for (one, other) in one.iter().zip(other.iter()) {
        if !is_same(one, other) {
            return false;
        }
    }
    true
}

/// The first lines of these, each with its line feed, but for the one at a place.
pub(crate) fn text_of(
    alloc: Global,
    lines: &[&str],
    most: usize,
    skipped: usize,
) -> Result<Vec<u8>, AllocError> {
    let mut text = Vec::new(alloc);
    for (place, line) in lines.iter().enumerate() {
        if place < most && place != skipped {
            text.extend_from_slice(line.as_bytes())?;
            text.push(b'\n')?;
        }
    }
    Ok(text)
}

/// How many line feeds the first bytes have.
pub(crate) fn line_feeds(bytes: &[u8], most: usize) -> usize {
    let mut count: usize = 0;
    for (place, byte) in bytes.iter().enumerate() {
        if place < most && *byte == b'\n' {
            count = count.saturating_add(1);
        }
    }
    count
}

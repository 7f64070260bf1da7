use request_lines::{MemorySink, MemorySource};
use std::alloc::{AllocError, Global};
use tracker_cli::run;
use tracker_keeper::{Keeper, NeverFails, Row};

/// How a run ended: its status, what was written, and what keeps the rows.
#[derive(Drop)]
pub(crate) struct Ran<K: Keeper> {
    pub(crate) status: u8,
    pub(crate) out: Vec<u8>,
    pub(crate) keeper: K,
}

/// Runs `exec` over these lines and a keeper.
pub(crate) fn exec_over<K: Keeper + Drop>(
    alloc: Global,
    lines: &[u8],
    keeper: K,
) -> Result<Ran<K>, AllocError> {
    let mut words = Vec::new(alloc);
    words.push(String::from_str(alloc, "exec")?)?;
    let mut source = MemorySource::new(lines.to_vec(alloc)?, Vec::new(alloc), Vec::new(alloc));
    let mut sink = MemorySink::new(alloc, 10_000, Vec::new(alloc))?;
    let (status, keeper) = run(alloc, &words, &mut source, &mut sink, keeper);
    Ok(Ran {
        status,
        out: sink.taken().to_vec(alloc)?,
        keeper,
    })
}

/// What a run leaves: what was written, and the rows that are kept.
#[derive(Drop)]
pub(crate) struct Left {
    pub(crate) out: Vec<u8>,
    pub(crate) rows: Vec<Row>,
}

pub(crate) fn rows_of<K: Keeper>(keeper: &mut K) -> Result<Vec<Row>, AllocError> {
    match keeper.rows() {
        Ok(rows) => Ok(rows),
        Err(_) => Err(AllocError),
    }
}

/// What a run over these lines leaves where nothing fails.
pub(crate) fn left_in_memory(alloc: Global, lines: &[u8]) -> Result<Left, AllocError> {
    let Ok(keeper) = NeverFails::new(alloc, &[]) else {
        return Err(AllocError);
    };
    let Ran {
        status: _,
        out,
        mut keeper,
    } = exec_over(alloc, lines, keeper)?;
    Ok(Left {
        out,
        rows: rows_of(&mut keeper)?,
    })
}

fn is_same(one: &Row, other: &Row) -> bool {
    one.kind == other.kind && one.no == other.no && one.body.is_same(&other.body)
}

/// Whether both are the same rows.
pub(crate) fn are_same(one: &[Row], other: &[Row]) -> bool {
    if one.len() != other.len() {
        return false;
    }
    for (one, other) in one.iter().zip(other.iter()) {
        if !is_same(one, other) {
            return false;
        }
    }
    true
}

// Kept rows, and operations on them.
ghost use Rattle.std.specs.Prelude.{◌≡◌, IfOk};

use field_values::{Memory, Text};
use std::alloc::Global;

/// A row that is kept: what it is a part of, by its kind and its number, and its text.
#[derive(Drop)]
pub struct Row {
    pub kind: u8,
    pub no: u64,
    pub body: Text,
}

/// An operation on kept rows.
#[derive(Drop)]
pub enum RowOp {
    /// Puts a row in the place of the one that has its kind and number, where there is one.
    Put(Row),
    /// Takes out the row of that kind and number, where there is one.
    Drop { kind: u8, no: u64 },
}

impl Row {
    /// Another row that is the same.
    pub fn copy(&self, alloc: Global) -> Result<Row, Memory>
        ensures { IfOk result (λ row. row ≡ self.now) }
    {
        Ok(Row {
            kind: self.kind,
            no: self.no,
            body: self.body.copy(alloc)?,
        })
    }
}

impl RowOp {
    /// The kind and the number of the row that it is on.
    pub(crate) fn place(&self) -> (u8, u64) {
        match self {
            RowOp::Put(row) => (row.kind, row.no),
            RowOp::Drop { kind, no } => (*kind, *no),
        }
    }

    /// Another operation that is the same.
    pub fn copy(&self, alloc: Global) -> Result<RowOp, Memory>
        ensures { IfOk result (λ op. op ≡ self.now) }
    {
        match self {
            RowOp::Put(row) => Ok(RowOp::Put(row.copy(alloc)?)),
            RowOp::Drop { kind, no } => Ok(RowOp::Drop {
                kind: *kind,
                no: *no,
            }),
        }
    }
}

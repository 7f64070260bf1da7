// Rows as lines, written some kilobytes at a time.
ghost use Rattle.std.specs.Prelude.{◌≡◌, ◌≤◌};
ghost use Rattle.request_lines.specs.Causes.{HasCause, Rose};
ghost use Rattle.row_lines.specs.RowText.{rows_text};
ghost use Rattle.row_lines.specs.Writing.{Ends, PassesOn};

use crate::line::push_line;
use request_lines::{Failed, Sink, write_all};
use std::alloc::Global;
use tracker_keeper::Row;

/// As many bytes are written at a time, or a little more.
const PIECE: usize = 65_536;

/// How the writing of rows ends.
#[derive(Clone, Copy, PartialEq, Eq)]
pub enum WriteEnd {
    /// All rows were written.
    Done,
    /// The sink failed.
    WriteFault,
    Memory,
}

/// Writes the lines of these rows.
pub fn write_rows<T: Sink>(alloc: Global, rows: &[Row], out: &mut T) -> WriteEnd
    ensures bytes { Ends (rows_text rows.now) (T.taken out.old) (T.taken out.new) result }
    ensures write_cause { result ≡ WriteEnd.WriteFault
        → Rose (T.faults out.old) (T.faults out.new) }
    ensures write_later { T.faults out.old ≤ T.faults out.new }
{
    let mut pending = Vec::new(alloc);
    for row in rows {
        let Ok(more) = push_line(pending, row) else {
            return WriteEnd::Memory;
        };
        pending = more;
        let Ok(()) = pass_on(&mut pending, out) else {
            return WriteEnd::WriteFault;
        };
    }
    match write_all(out, &pending) {
        Ok(()) => WriteEnd::Done,
        Err(Failed) => WriteEnd::WriteFault,
    }
}

// Writes what is pending, where that is a piece.
fn pass_on<T: Sink>(pending: &mut Vec<u8>, out: &mut T) -> Result<(), Failed>
    ensures bytes { PassesOn (T.taken out.old) (T.taken out.new) pending.old.items
        pending.new.items result }
    ensures cause { HasCause (T.faults out.old) (T.faults out.new) result }
{
    if pending.len() < PIECE {
        return Ok(());
    }
    write_all(out, pending)?;
    pending.clear();
    Ok(())
}

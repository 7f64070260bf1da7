// The rows of all lines, or the first bad line.
ghost use Rattle.std.specs.Prelude.{◌≡◌, ◌<◌, ◌+◌, ◌∷◌, ◌↔◌, length, IfOk, IfErr, IsTrue, MatchOption, AllPairs};
ghost use Rattle.std.specs.List.{All};
ghost use Rattle.request_lines.specs.Lines.{lines};
ghost use Rattle.request_lines.specs.Bytes.{IsLineEnd};
ghost use Rattle.tracker_keeper.specs.Rows.{IsBelow};
ghost use Rattle.tracker_keeper.specs.declared.row.Row.{Row};
ghost use Rattle.row_lines.specs.RowText.{IsLineOf};
ghost use Rattle.row_lines.specs.Telling.{IsLinesFault, Tells};

use crate::line::read_line;
use field_values::Memory;
use json::Scratch;
use memchr::memchr;
use std::alloc::Global;
use tracker_keeper::Row;

/// Why lines tell no rows.
#[derive(Clone, Copy, PartialEq, Eq)]
pub enum LinesFault {
    /// The line of this number, from 1, is the first bad one.
    BadLine(u64),
    Memory,
}

/// The rows that the lines of these bytes tell, by kind and then number, or which line is the first bad one.
pub fn read_rows(alloc: Global, bytes: &[u8]) -> Result<Vec<Row>, LinesFault>
    ensures rows { IfOk result (λ rows. Tells bytes.now rows.items) }
    ensures fault { IfErr result (IsLinesFault bytes.now) }
{
    let mut scratch = Scratch::new(alloc);
    let mut rows = Vec::new(alloc);
    let mut rest = bytes;
    while !rest.is_empty() {
        let (line, later) = cut(rest);
        let told = rows.as_slice();
        let Ok(found) = next_row(alloc, &mut scratch, told, line) else {
            return Err(LinesFault::Memory);
        };
        let Some(row) = found else {
            return Err(LinesFault::BadLine(number_behind(told)));
        };
        let Ok(()) = rows.push(row) else {
            return Err(LinesFault::Memory);
        };
        rest = later;
    }
    Ok(rows)
}

// The number of the line behind those that tell these rows.
fn number_behind(rows: &[Row]) -> u64
    ensures { result ≡ length rows.now + 1 }
{
    rows.len() as u64 + 1
}

// The row that a line is, where it stands behind all of these; `None` exactly where it is no such row's.
fn next_row(
    alloc: Global,
    scratch: &mut Scratch,
    rows: &[Row],
    line: &[u8],
) -> Result<Option<Row>, Memory>
    requires { AllPairs IsBelow rows.now }
    ensures { IfOk result (λ found. MatchOption found
        ((row : Row) → IsLineOf row line.now → ¬ All (λ before. IsBelow before row) rows.now)
        (λ row. IsLineOf row line.now × All (λ before. IsBelow before row) rows.now)) }
{
    match read_line(alloc, scratch, line) {
        Ok(Some(row)) => {
            if is_behind(rows, &row) {
                Ok(Some(row))
            } else {
                Ok(None)
            }
        }
        Ok(None) => Ok(None),
        Err(fault) => Err(fault),
    }
}

// The first line, and what stands behind its line feed.
fn cut(bytes: &[u8]) -> (&[u8], &[u8])
    requires { 0 < length bytes.now }
    ensures lines { lines bytes.now ≡ result.0.now ∷ lines result.1.now }
    ensures shorter { length result.1.now < length bytes.now }
{
    match line_end(bytes) {
        Some(end) => (&bytes[..end], &bytes[end + 1..]),
        None => (bytes, &[]),
    }
}

// The place of the first line feed.
fn line_end(bytes: &[u8]) -> Option<usize>
    ensures { IsLineEnd bytes.now result }
{
    memchr(b'\n', bytes)
}

// Whether the row stands behind all of these, which stand in order.
fn is_behind(rows: &[Row], row: &Row) -> bool
    requires { AllPairs IsBelow rows.now }
    ensures { IsTrue result ↔ All (λ before. IsBelow before row.now) rows.now }
{
    if rows.is_empty() {
        return true;
    }
    is_below(&rows[rows.len() - 1], row)
}

fn is_below(one: &Row, other: &Row) -> bool
    ensures { IsTrue result ↔ IsBelow one.now other.now }
{
    one.kind < other.kind || (one.kind == other.kind && one.no < other.no)
}

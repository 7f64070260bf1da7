// A row as a line, and a line as a row.
ghost use Rattle.std.specs.Prelude.{◌≡◌, ◌<◌, ◌^◌, ◌++◌, ◌∷◌, [], ℕ, Some, decimal, codes, IfOk, MatchOption};
ghost use Rattle.json.specs.Json.{number};
ghost use Rattle.json.specs.Find.{get};
ghost use Rattle.json.specs.Value.{value_view};
ghost use Rattle.tracker_keeper.specs.declared.row.Row.{Row};
ghost use Rattle.row_lines.specs.RowText.{IsLineOf, SaysRow, row_line};

use crate::members::{member_count, number_at, text_at};
use field_values::{Memory, Text};
use json::{Error, Scratch, Value, Writer};
use std::alloc::Global;
use tracker_keeper::Row;

/// A row's number is less: a table of signed numbers can hold it.
const NUMBERS: u64 = 9_223_372_036_854_775_808;

/// Puts the line of a row, with its line feed, behind what is there.
#[tactic(auto, unfolding(crate::specs::RowText::row_json))]
pub fn push_line(bytes: Vec<u8>, row: &Row) -> Result<Vec<u8>, Memory>
    ensures { IfOk result (λ out. out.items ≡ (bytes.items ++ row_line row.now) ++ 10 ∷ []) }
{
    let mut writer = Writer::new(bytes);
    writer.begin_object()?;
    writer.key("body")?;
    writer.string(row.body.as_str())?;
    writer.key("kind")?;
    writer.u64(u64::from(row.kind))?;
    writer.key("no")?;
    writer.u64(row.no)?;
    writer.end_object()?;
    let mut out = writer.into_inner();
    out.push(b'\n')?;
    Ok(out)
}

/// The row that a line is, with the memory that reading needs; `None` exactly where it is no row's.
pub fn read_line(alloc: Global, scratch: &mut Scratch, line: &[u8]) -> Result<Option<Row>, Memory>
    ensures { IfOk result (λ found. MatchOption found
        ((row : Row) → ¬ IsLineOf row line.now) (λ row. IsLineOf row line.now)) }
{
    match Value::from_slice(alloc, line, scratch) {
        Ok(value) => row_in(alloc, &value),
        Err(Error::Invalid) => Ok(None),
        Err(_) => Err(Memory),
    }
}

// The row that its JSON says.
fn row_in(alloc: Global, value: &Value<'_>) -> Result<Option<Row>, Memory>
    ensures { IfOk result (λ found. MatchOption found
        ((row : Row) → ¬ SaysRow row (value_view value.now))
        (λ row. SaysRow row (value_view value.now))) }
{
    if member_count(value) != 3 {
        return Ok(None);
    }
    let Some(body) = text_at(value, "body") else {
        return Ok(None);
    };
    let Some(kind) = kind_at(value) else {
        return Ok(None);
    };
    let Some(no) = row_number_at(value) else {
        return Ok(None);
    };
    let body = Text::copy_of(alloc, body)?;
    Ok(Some(Row { kind, no, body }))
}

fn kind_at(value: &Value<'_>) -> Option<u8>
    ensures { MatchOption result
        ((n : ℕ) → n < 2 ^ 8
        → ¬ (get (codes "kind") (value_view value.now) ≡ Some (number (decimal n))))
        (λ n. get (codes "kind") (value_view value.now) ≡ Some (number (decimal n))) }
{
    let Some(number) = number_at(value, "kind") else {
        return None;
    };
    if number < 256 {
        Some(number as u8)
    } else {
        None
    }
}

fn row_number_at(value: &Value<'_>) -> Option<u64>
    ensures { MatchOption result
        ((n : ℕ) → n < 2 ^ 63
        → ¬ (get (codes "no") (value_view value.now) ≡ Some (number (decimal n))))
        (λ n. (n < 2 ^ 63) × (get (codes "no") (value_view value.now) ≡ Some (number (decimal n)))) }
{
    let Some(number) = number_at(value, "no") else {
        return None;
    };
    if number < NUMBERS { Some(number) } else { None }
}

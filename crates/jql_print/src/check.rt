// The reply to a line.
ghost use Rattle.std.specs.Prelude.{◌≡◌, ◌++◌, List, ℕ, OnOk, IfOk, option_map};
ghost use Rattle.jql_syntax.specs.View.{view};
ghost use Rattle.jql_print.specs.Spelling.{query_text};
ghost use Rattle.jql_print.specs.Check.{shown, ok_reply, fault_reply, Replies, IsReply, IsAnswered};

use crate::whole::print;
use field_values::{Memory, Text};
use jql_syntax::{JqlFault, MOST_BYTES, Query, parse};
use std::alloc::Global;
use std::str;

// A fault, as it is told.
fn write_fault(alloc: Global, out: &mut Vec<u8>, place: usize, kind: u8) -> Result<(), Memory>
    ensures { OnOk result (out.new.items ≡ out.old.items ++ fault_reply place kind) }
{
    let text = format!(in alloc; "fault {place} {kind}\n")?;
    out.extend_from_slice(text.as_bytes())?;
    Ok(())
}

// A space and the text, where there is one.
fn write_shown(out: &mut Vec<u8>, text: &[u8]) -> Result<(), Memory>
    ensures { OnOk result (out.new.items ≡ out.old.items ++ shown text.now) }
{
    if text.is_empty() {
        return Ok(());
    }
    out.push(b' ')?;
    out.extend_from_slice(text)?;
    Ok(())
}

// A query's spelling, as it is told.
fn write_ok(out: &mut Vec<u8>, spelling: &Text) -> Result<(), Memory>
    ensures { OnOk result (out.new.items ≡ out.old.items ++ ok_reply spelling.now) }
{
    out.extend_from_slice(b"ok")?;
    write_shown(out, spelling.as_str().as_bytes())?;
    out.push(b'\n')?;
    Ok(())
}

// The spelling of a query, which ends here.
fn spelling_of(alloc: Global, query: Query) -> Result<Text, Memory>
    ensures { IfOk result (λ t. t ≡ query_text (option_map view query.0) query.1) }
{
    print(alloc, &query)
}

// The reply to a text.
fn check_text(alloc: Global, text: &str, out: &mut Vec<u8>) -> Result<(), Memory>
    ensures { OnOk result (Replies text.now out.old.items out.new.items) }
{
    match parse(alloc, text) {
        Ok(query) => {
            let spelling = spelling_of(alloc, query)?;
            write_ok(out, &spelling)
        }
        Err(JqlFault::Bad { place, kind }) => write_fault(alloc, out, place, kind),
        Err(JqlFault::Memory) => Err(Memory),
    }
}

/// Writes the reply to a line: `ok` and the spelling of its query, or `fault`, the place of its first fault and that fault's kind.
pub fn check_line(alloc: Global, line: &[u8], out: &mut Vec<u8>) -> Result<(), Memory>
    ensures { OnOk result (Replies line.now out.old.items out.new.items) }
{
    match str::from_utf8(line) {
        Ok(text) => check_text(alloc, text, out),
        Err(error) => {
            if line.len() > MOST_BYTES {
                write_fault(alloc, out, MOST_BYTES, 5)
            } else {
                write_fault(alloc, out, error.valid_up_to(), 1)
            }
        }
    }
}

/// Each line has a reply.
pub fn some_reply()
    ensures { (line : List ℕ) → IsAnswered line }
{}

/// No line has two.
pub fn one_reply()
    ensures { (line a b : List ℕ) → IsReply line a → IsReply line b → a ≡ b }
{}

// A line that comes in.
ghost use Rattle.std.specs.Prelude.{List, ℕ, Result};
ghost use Rattle.serde_json.specs.View.{view};
ghost use Rattle.call_lines.specs.Asked.{line_of, call_of, UnlessMemory};
ghost use Rattle.call_lines.specs.Lent.{AsksUnlessMemory};
ghost use Rattle.call_lines.specs.Taken.{object_of};

use crate::asked::asked_in;
use crate::kind::kind_named;
use crate::members::{misses, text_at};
use crate::plain_line::plain_line;
use field_values::Memory;
use json::Scratch;
use serde_json::{Map, Value};
use std::alloc::Global;
use std::str;
use tracker_calls::{Call, Cause, Refusal, ToldText, UserName};

/// What a line asks for, and who asks.
#[derive(Drop)]
pub enum AskedLine<'a> {
    /// To be told an issue's present values. These names lie in the line, or in the memory that reading needs.
    Show { user: &'a str, issue: &'a str },

    /// Any call.
    Call { user: UserName, call: Call },
}

/// The user and the call of a line, which is one JSON object with the members `user`, `call` and the
/// call's own, or the first fault of its form.
pub fn read_line(alloc: Global, bytes: &[u8]) -> Result<(UserName, Call), Refusal>
    ensures { UnlessMemory result (line_of bytes.now) }
{
    let mut scratch = Scratch::new(alloc);
    match read_line_in(alloc, &mut scratch, bytes)? {
        AskedLine::Show { user, issue } => {
            let user = UserName::copy_of(alloc, user)?;
            let issue = ToldText::copy_of(alloc, issue)?;
            Ok((user, Call::Show { issue }))
        }
        AskedLine::Call { user, call } => Ok((user, call)),
    }
}

/// The same, with the memory that reading needs, which whoever reads many lines keeps from line to line.
pub fn read_line_in<'a>(
    alloc: Global,
    scratch: &'a mut Scratch,
    bytes: &'a [u8],
) -> Result<AskedLine<'a>, Refusal>
    ensures { AsksUnlessMemory result (line_of bytes.now) }
{
    match str::from_utf8(bytes) {
        Ok(text) => read_text(alloc, scratch, text),
        Err(_) => unlent(misses(alloc, "line")),
    }
}

fn read_text<'a>(
    alloc: Global,
    scratch: &'a mut Scratch,
    text: &'a str,
) -> Result<AskedLine<'a>, Refusal>
    ensures { AsksUnlessMemory result (line_of text.now) }
{
    match plain_line(alloc, scratch, text) {
        Ok(Some(asked)) => Ok(asked),
        Ok(None) => unlent(read_tree(alloc, text)),
        Err(Memory) => Err(Refusal::Memory),
    }
}

// What is asked for, of which nothing is lent.
fn unlent<'a>(asked: Result<(UserName, Call), Refusal>) -> Result<AskedLine<'a>, Refusal>
    ensures { (expected : Result (List ℕ × Call) Cause) → UnlessMemory asked expected
        → AsksUnlessMemory result expected }
{
    match asked {
        Ok((user, call)) => Ok(AskedLine::Call { user, call }),
        Err(refusal) => Err(refusal),
    }
}

fn read_tree(alloc: Global, text: &str) -> Result<(UserName, Call), Refusal>
    ensures { UnlessMemory result (line_of text.now) }
{
    match Value::from_str(alloc, text) {
        Ok(value) => call_of(alloc, value),
        Err(e) => {
            if e.is_memory() {
                Err(Refusal::Memory)
            } else {
                misses(alloc, "line")
            }
        }
    }
}

fn call_of(alloc: Global, value: Value) -> Result<(UserName, Call), Refusal>
    ensures { UnlessMemory result (call_of (view value)) }
{
    match value {
        Value::Object(members) => object_call(alloc, members),
        _ => misses(alloc, "line"),
    }
}

// What isn't taken out of the object is let go here.
fn object_call(alloc: Global, members: Map<String, Value>) -> Result<(UserName, Call), Refusal>
    ensures { UnlessMemory result (call_of (object_of members)) }
{
    let mut members = members;
    let asked = members_call(alloc, &mut members);
    drop(members);
    asked
}

fn members_call(
    alloc: Global,
    members: &mut Map<String, Value>,
) -> Result<(UserName, Call), Refusal>
    ensures { UnlessMemory result (call_of (object_of members.old)) }
{
    let Some(_) = text_at(members, "user") else {
        return misses(alloc, "user");
    };
    let Some(kind) = text_at(members, "call").and_then(kind_named) else {
        return misses(alloc, "call");
    };
    asked_in(alloc, kind, members)
}

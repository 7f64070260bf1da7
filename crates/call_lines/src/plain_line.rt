// Plain lines: their members are texts, and `set` is an object of texts, as in most lines. They are read without a tree of values
// that owns its texts, so that no text is copied but those of the call. Any other line, and each that has a fault, is left to `line`.
ghost use Rattle.std.specs.Prelude.{◌≡◌, true, Ok, IfOk, IfSome, codes, option_map};
ghost use Rattle.std.specs.Prelude.{option_and_then};
ghost use Rattle.std.specs.List.{list_all};
ghost use Rattle.json.specs.Json.{if_last};
ghost use Rattle.json.specs.Value.{value_view, members_view};
ghost use Rattle.serde_json.specs.Data.{object, no_members};
ghost use Rattle.serde_json.specs.Read.{of_json, of_members};
ghost use Rattle.call_lines.specs.Asked.{line_of, call_of, need};
ghost use Rattle.call_lines.specs.Lent.{asked_of};
ghost use Rattle.call_lines.specs.Plain.{is_plain, values_of, IsTextOf};

use crate::kind::{CallKind, kind_named};
use crate::line::AskedLine;
use crate::plain_calls::kind_call;
use crate::plain_members::{are_texts, has_no_other, text_member};
use field_values::Memory;
use json::{Error, Reader, Scratch, Value};
use memchr::memchr;
use short_texts::is_same;
use std::alloc::Global;
use tracker_calls::UserName;

// How deep the JSON of a line may nest.
const MAX_DEPTH: usize = 127;

/// What a plain line asks for whose members are those of its call; `None` where it isn't known to be such a line.
pub fn plain_line<'a>(
    alloc: Global,
    scratch: &'a mut Scratch,
    text: &'a str,
) -> Result<Option<AskedLine<'a>>, Memory>
    ensures { IfOk result (λ found. IfSome found (λ asked. line_of text.now ≡ Ok (asked_of asked))) }
{
    if has_list(text) {
        return Ok(None);
    }
    let Ok(mut reader) = Reader::new(text, scratch) else {
        return Err(Memory);
    };
    match Value::read(alloc, &mut reader, MAX_DEPTH) {
        Ok(value) => last_value_call(alloc, &mut reader, &value),
        Err(Error::OutOfMemory) => Err(Memory),
        Err(_) => Ok(None),
    }
}

// So that a line with a list isn't read twice.
fn has_list(text: &str) -> bool {
    memchr(b'[', text.as_bytes()).is_some()
}

// That of a value behind which nothing is left.
fn last_value_call<'a>(
    alloc: Global,
    reader: &mut Reader<'_>,
    value: &Value<'a>,
) -> Result<Option<AskedLine<'a>>, Memory>
    ensures { IfOk result (λ found. IfSome found (λ asked.
        need (option_and_then of_json (if_last (value_view value.now) reader.old))
        (codes "line") call_of
        ≡ Ok (asked_of asked))) }
{
    if reader.next().is_some() {
        return Ok(None);
    }
    value_call(alloc, value)
}

fn value_call<'a>(alloc: Global, value: &Value<'a>) -> Result<Option<AskedLine<'a>>, Memory>
    ensures { IfOk result (λ found. IfSome found (λ asked.
        need (of_json (value_view value.now)) (codes "line") call_of ≡ Ok (asked_of asked))) }
{
    match value {
        Value::Object(members) => members_call(alloc, members),
        _ => Ok(None),
    }
}

#[tactic(auto, using(crate::proofs::PlainLines::values_are_read))]
fn members_call<'a>(
    alloc: Global,
    members: &[(&'a str, Value<'a>)],
) -> Result<Option<AskedLine<'a>>, Memory>
    ensures { IfOk result (λ found. IfSome found (λ asked.
        need (option_map object (of_members (members_view members.now) no_members))
        (codes "line") call_of
        ≡ Ok (asked_of asked))) }
{
    if let Some((user, issue)) = plain_show(members) {
        return Ok(Some(AskedLine::Show { user, issue }));
    }
    if !are_plain(members) {
        return Ok(None);
    }
    plain_call(alloc, members)
}

// Who asks for which issue, where the members are those of a show as nearly all lines have them: in this order, each once.
fn plain_show<'a>(members: &[(&'a str, Value<'a>)]) -> Option<(&'a str, &'a str)>
    ensures { IfSome result (λ show.
        need (option_map object (of_members (members_view members.now) no_members))
        (codes "line") call_of
        ≡ Ok (asked_of (AskedLine.Show show.0 show.1))) }
{
    let [user, call, issue] = members else {
        return None;
    };
    let user = text_named("user", user)?;
    let call = text_named("call", call)?;
    let issue = text_named("issue", issue)?;
    if !is_same("show", call) {
        return None;
    }
    Some((user, issue))
}

// The text of a member of that name.
fn text_named<'a>(name: &str, member: &(&'a str, Value<'a>)) -> Option<&'a str>
    ensures { IfSome result (λ text. IsTextOf name.now text.now member.now) }
{
    if !is_same(name, member.0) {
        return None;
    }
    member.1.as_str()
}

// Whether the value is known to be a text or an object of texts.
#[tactic(auto, using(crate::proofs::PlainLines::text_is_plain))]
fn is_plain(value: &Value<'_>) -> bool
    ensures { result ≡ true → is_plain (value_view value.now) ≡ true }
{
    if value.as_str().is_some() {
        return true;
    }
    match value {
        Value::Object(members) => are_texts(members),
        _ => false,
    }
}

fn are_plain<'a>(members: &[(&'a str, Value<'a>)]) -> bool
    ensures { result ≡ true → list_all (λ m. is_plain (value_view m.1)) members.now ≡ true }
{
    for member in members {
        if !is_plain(&member.1) {
            return false;
        }
    }
    true
}

fn plain_call<'a>(
    alloc: Global,
    members: &[(&'a str, Value<'a>)],
) -> Result<Option<AskedLine<'a>>, Memory>
    ensures { IfOk result (λ found. IfSome found (λ asked.
        call_of (object (values_of members.now)) ≡ Ok (asked_of asked))) }
{
    let Some(user) = text_member(members, "user") else {
        return Ok(None);
    };
    let Some(call) = text_member(members, "call") else {
        return Ok(None);
    };
    let Some(kind) = kind_named(call) else {
        return Ok(None);
    };
    if !has_no_other(kind, members) {
        return Ok(None);
    }
    // Nothing of a show is copied.
    if let CallKind::Show = kind {
        return match text_member(members, "issue") {
            Some(issue) => Ok(Some(AskedLine::Show { user, issue })),
            None => Ok(None),
        };
    }
    let user = UserName::copy_of(alloc, user)?;
    match kind_call(alloc, kind, members) {
        Ok(Some(call)) => Ok(Some(AskedLine::Call { user, call })),
        Ok(None) => Ok(None),
        Err(Memory) => Err(Memory),
    }
}

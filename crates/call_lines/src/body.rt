// The body of a request that asks for a call.
ghost use Rattle.std.specs.Prelude.{◌≡◌, ℕ, List, None, Err, IfOk, option_map, codes};
ghost use Rattle.serde_json.specs.Find.{as_object};
ghost use Rattle.serde_json.specs.View.{view, members_view};
ghost use Rattle.call_lines.specs.Asked.{Asked, UnlessMemory, ErrUnlessMemory, need, names_of};
ghost use Rattle.call_lines.specs.Body.{body_kind, is_body_member, first_unknown, asked_alone};
ghost use Rattle.call_lines.specs.Body.{asked_beside, members_in, members_call, body_of};
ghost use Rattle.call_lines.specs.Body.{misses_other, fault_beside, with_fault, of_line};
ghost use Rattle.tracker_calls.specs.declared.call.Call.{Call};

use crate::asked::asked_in;
use crate::kind::{CallKind, kind_named};
use crate::members::{is_member, misses, text_at};
use field_values::{Memory, Text};
use serde_json::{Map, Value};
use std::alloc::Global;
use std::str;
use tracker_calls::{Call, Cause, Refusal, UserName};

/// The user and the call of the body of a request, which is one JSON object with the member `call`, other than `tick`, and the
/// call's own, or the first fault of its form. The user stands beside it, and a member `user` is an unknown one.
#[tactic(auto, unfolding(crate::specs::Body::body_of))]
pub fn read_body(
    alloc: Global,
    bytes: &[u8],
    user: Option<&str>,
) -> Result<(UserName, Call), Refusal>
    ensures { UnlessMemory result (body_of bytes.now (option_map (λ u. u.now) user.entry)) }
{
    let Some(members) = members_in(alloc, bytes)? else {
        return misses(alloc, "line");
    };
    object_call(alloc, members, user)
}

// The members of the object that the bytes are.
fn members_in(alloc: Global, bytes: &[u8]) -> Result<Option<Map<String, Value>>, Memory>
    ensures { IfOk result
        (λ found. option_map (λ m. members_view m.entries) found ≡ members_in bytes.now) }
{
    match str::from_utf8(bytes) {
        Ok(text) => members_of(alloc, text),
        Err(_) => Ok(None),
    }
}

fn members_of(alloc: Global, text: &str) -> Result<Option<Map<String, Value>>, Memory>
    ensures { IfOk result
        (λ found. option_map (λ m. members_view m.entries) found ≡ members_in text.now) }
{
    match Value::from_str(alloc, text) {
        Ok(value) => Ok(object_of(value)),
        Err(e) => { if e.is_memory() { Err(Memory) } else { Ok(None) } }
    }
}

fn object_of(value: Value) -> Option<Map<String, Value>>
    ensures { option_map (λ m. members_view m.entries) result ≡ as_object (view value) }
{
    match value {
        Value::Object(members) => Some(members),
        _ => None,
    }
}

// What isn't taken out of the object is let go here.
fn object_call(
    alloc: Global,
    members: Map<String, Value>,
    user: Option<&str>,
) -> Result<(UserName, Call), Refusal>
    ensures { UnlessMemory result (need (option_map (λ u. u.now) user.entry) (codes "user")
        (members_call (members_view members.entries))) }
{
    let mut members = members;
    let asked = user_call(alloc, &mut members, user);
    drop(members);
    asked
}

fn user_call(
    alloc: Global,
    members: &mut Map<String, Value>,
    user: Option<&str>,
) -> Result<(UserName, Call), Refusal>
    ensures { UnlessMemory result (need (option_map (λ u. u.now) user.entry) (codes "user")
        (members_call (members_view members.old.entries))) }
{
    match user {
        Some(user) => members_call(alloc, members, user),
        None => misses(alloc, "user"),
    }
}

fn members_call(
    alloc: Global,
    members: &mut Map<String, Value>,
    user: &str,
) -> Result<(UserName, Call), Refusal>
    ensures { UnlessMemory result (members_call (members_view members.old.entries) user.now) }
{
    let Some(kind) = text_at(members, "call").and_then(body_kind) else {
        return misses(alloc, "call");
    };
    kind_call(alloc, kind, members, user)
}

// The call of that name, other than `tick`.
fn body_kind(name: &str) -> Option<CallKind>
    ensures { result ≡ body_kind name.now }
{
    if name == "tick" {
        return None;
    }
    kind_named(name)
}

// A line has the same call, by its own member `user`.
fn kind_call(
    alloc: Global,
    kind: CallKind,
    members: &mut Map<String, Value>,
    user: &str,
) -> Result<(UserName, Call), Refusal>
    ensures { UnlessMemory result
        (asked_beside (first_unknown kind (names_of (members_view members.old.entries))) user.now
        (asked_alone kind (members_view members.old.entries))) }
{
    let unknown = first_unknown(alloc, kind, members)?;
    let asked = asked_in(alloc, kind, members);
    of_line(alloc, kind, unknown, user, asked)
}

// The first name in byte order that is no member of a body with the call.
fn first_unknown(
    alloc: Global,
    kind: CallKind,
    members: &Map<String, Value>,
) -> Result<Option<Text>, Memory>
    ensures { IfOk result
        (λ name. name ≡ first_unknown kind (names_of (members_view members.now.entries))) }
{
    match unknown_among(kind, members) {
        Some(name) => Ok(Some(Text::copy_of(alloc, name)?)),
        None => Ok(None),
    }
}

#[tactic(auto, using(crate::proofs::AskedLines::names_of_members))]
fn unknown_among<'v>(kind: CallKind, members: &'v Map<String, Value>) -> Option<&'v str>
    ensures { option_map (λ name. name.now) result
        ≡ first_unknown kind (names_of (members_view members.now.entries)) }
{
    for name in members.keys() {
        if !is_body_member(kind, name.as_str()) {
            return Some(name.as_str());
        }
    }
    None
}

fn is_body_member(kind: CallKind, name: &str) -> bool
    ensures { result ≡ is_body_member kind name.now }
{
    is_member(kind, name) && name != "user"
}

// What is answered of the body, where a line of the same members is answered so.
fn of_line(
    alloc: Global,
    kind: CallKind,
    unknown: Option<Text>,
    user: &str,
    asked: Result<(UserName, Call), Refusal>,
) -> Result<(UserName, Call), Refusal>
    ensures { (expected : Asked) → UnlessMemory asked expected
        → UnlessMemory result (of_line kind unknown user.now expected) }
{
    match unknown {
        Some(other) => Err(with_fault(kind, other, asked)),
        None => by_user(alloc, user, asked),
    }
}

#[tactic(auto, using(crate::proofs::Bodies::refused_beside))]
fn by_user(
    alloc: Global,
    user: &str,
    asked: Result<(UserName, Call), Refusal>,
) -> Result<(UserName, Call), Refusal>
    ensures { (expected : Asked) → UnlessMemory asked expected
        → UnlessMemory result (asked_beside None user.now expected) }
{
    match asked {
        Ok((_, call)) => {
            let user = UserName::copy_of(alloc, user)?;
            Ok((user, call))
        }
        Err(refusal) => Err(refusal),
    }
}

fn with_fault(kind: CallKind, other: Text, asked: Result<(UserName, Call), Refusal>) -> Refusal
    ensures { (expected : Asked) → UnlessMemory asked expected
        → ErrUnlessMemory {T = List ℕ × Call} result (Err (with_fault kind other expected)) }
{
    match asked {
        Ok(_) => Refusal::Cause(Cause::Form { member: other }),
        Err(Refusal::Cause(cause)) => Refusal::Cause(fault_beside(kind, other, cause)),
        Err(Refusal::Keeper) => Refusal::Keeper,
        Err(Refusal::Memory) => Refusal::Memory,
    }
}

// A fault of the call's members is told before one of an unknown member.
fn fault_beside(kind: CallKind, other: Text, cause: Cause) -> Cause
    ensures { result ≡ fault_beside kind other cause }
{
    if misses_other(kind, &cause) {
        return Cause::Form { member: other };
    }
    cause
}

fn misses_other(kind: CallKind, cause: &Cause) -> bool
    ensures { result ≡ misses_other kind cause.now }
{
    match cause {
        Cause::Form { member } => !is_member(kind, member.as_str()),
        _ => false,
    }
}

// The members of a line's object, looked up one by one.
ghost use Rattle.std.specs.Prelude.{◌≡◌, map, option_map, Err};
ghost use Rattle.serde_json.specs.Find.{get_member};
ghost use Rattle.serde_json.specs.View.{view, members_view};
ghost use Rattle.call_lines.specs.Asked.{number_at, moment_at, other_than};
ghost use Rattle.json_texts.specs.JsonMembers.{text_at, title_at};
ghost use Rattle.call_lines.specs.Asked.{first_other, is_among, is_member, call_members};
ghost use Rattle.call_lines.specs.Asked.{names_of, UnlessMemory};
ghost use Rattle.call_lines.specs.Taken.{object_of};
ghost use Rattle.call_lines.specs.Part.{whole_within, whole_or, from_if_there, count_if_there};
ghost use Rattle.call_lines.specs.Part.{count_at};

use crate::kind::{CallKind, call_members};
use field_forms::name_form::is_title;
use field_values::{Moment, Text};
use serde_json::{Map, Value};
use short_texts::is_same;
use std::alloc::Global;
use tracker_calls::{Cause, MOST_FROM, Refusal};

/// The refusal that names a member.
pub fn misses<T>(alloc: Global, member: &str) -> Result<T, Refusal>
    ensures { UnlessMemory result (Err (Cause.Form member.now)) }
{
    match Text::copy_of(alloc, member) {
        Ok(member) => Err(Refusal::Cause(Cause::Form { member })),
        Err(_) => Err(Refusal::Memory),
    }
}

/// The member of that name.
fn member<'v>(members: &'v Map<String, Value>, name: &str) -> Option<&'v Value>
    ensures { option_map (λ v. view v.now) result
        ≡ get_member name.now (members_view members.now.entries) }
{
    members.get(name)
}

pub fn text_at<'v>(members: &'v Map<String, Value>, name: &str) -> Option<&'v str>
    ensures { option_map (λ text. text.now) result ≡ text_at name.now (object_of members.now) }
{
    member(members, name).and_then(Value::as_str)
}

/// The text of that name, where it has the form of a name of a saved filter, a board or a sprint.
pub fn title_at<'v>(members: &'v Map<String, Value>, name: &str) -> Option<&'v str>
    ensures { option_map (λ text. text.now) result ≡ title_at name.now (object_of members.now) }
{
    let text = text_at(members, name)?;
    if is_title(text) { Some(text) } else { None }
}

/// The number of a saved filter, a board or a sprint.
pub fn number_at(members: &Map<String, Value>, name: &str) -> Option<u32>
    ensures { result ≡ number_at name.now (object_of members.now) }
{
    whole_within(member(members, name)?, 0, u32::MAX)
}

/// The member `other`, where it is a text and not this one.
pub fn other_than<'v>(members: &'v Map<String, Value>, issue: &str) -> Option<&'v str>
    ensures { option_map (λ text. text.now) result ≡ other_than issue.now (object_of members.now) }
{
    let other = text_at(members, "other")?;
    if other == issue { None } else { Some(other) }
}

pub fn moment_at(members: &Map<String, Value>, name: &str) -> Option<Moment>
    ensures { result ≡ moment_at name.now (object_of members.now) }
{
    member(members, name)
        .and_then(Value::as_u64)
        .and_then(Moment::new)
}

// A whole number between bounds.
fn whole_within(value: &Value, least: u32, most: u32) -> Option<u32>
    ensures { result ≡ whole_within least most (view value.now) }
{
    let number = value.as_u64()?;
    if u64::from(least) <= number && number <= u64::from(most) {
        return Some(number as u32);
    }
    None
}

// The same of a member that may be absent, and then is that number.
fn whole_or(value: Option<&Value>, absent: u32, least: u32, most: u32) -> Option<u32>
    ensures { result ≡ whole_or absent least most (option_map (λ v. view v.now) value.entry) }
{
    match value {
        None => Some(absent),
        Some(value) => whole_within(value, least, most),
    }
}

/// Where a part begins, which is at 0 where the member `from` is absent; `None` where it is out of range.
pub fn from_if_there(members: &Map<String, Value>) -> Option<u32>
    ensures { result ≡ from_if_there (object_of members.now) }
{
    whole_or(member(members, "from"), 0, 0, MOST_FROM)
}

/// How many a part has at most, which is `most` where the member `count` is absent; `None` where it is out of range.
pub fn count_if_there(members: &Map<String, Value>, most: u32) -> Option<u32>
    ensures { result ≡ count_if_there most (object_of members.now) }
{
    whole_or(member(members, "count"), most, 1, most)
}

/// How many are asked for; `None` where the member `count` is absent or out of range.
pub fn count_at(members: &Map<String, Value>, most: u32) -> Option<u32>
    ensures { result ≡ count_at most (object_of members.now) }
{
    whole_within(member(members, "count")?, 1, most)
}

/// The first name in byte order that is no member of the call.
#[tactic(auto, using(crate::proofs::AskedLines::names_of_members))]
pub fn first_other<'v>(kind: CallKind, members: &'v Map<String, Value>) -> Option<&'v str>
    ensures { option_map (λ name. name.now) result
        ≡ first_other kind (names_of (members_view members.now.entries)) }
{
    for name in members.keys() {
        if !is_member(kind, name.as_str()) {
            return Some(name.as_str());
        }
    }
    None
}

/// Whether the call has a member of that name.
pub fn is_member(kind: CallKind, name: &str) -> bool
    ensures { result ≡ is_member kind name.now }
{
    is_among(name, call_members(kind))
}

/// Whether the name is one of these.
pub fn is_among(name: &str, names: &[&str]) -> bool
    ensures { result ≡ is_among name.now (map (λ other. other.now) names.now) }
{
    for other in names {
        if is_same(name, *other) {
            return true;
        }
    }
    false
}

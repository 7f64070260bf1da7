// The calls that tell what there is, with their members, in the order in which a fault is told.
ghost use Rattle.call_lines.specs.Asked.{UnlessMemory};
ghost use Rattle.call_lines.specs.Taken.{asked_in};

use crate::kind::CallKind;
use crate::members::{count_if_there, first_other, from_if_there, misses, text_at};
use crate::named::take_fields;
use crate::taken::{take_text, take_user};
use serde_json::{Map, Value};
use std::alloc::Global;
use tracker_calls::{Call, MOST_LISTED, MOST_SHOWN, Part, Refusal, UserName};

#[tactic(auto, using(crate::proofs::Taking::text_at_without, crate::proofs::Taking::from_without, crate::proofs::Taking::count_without, crate::proofs::Taking::first_other_without))]
pub fn list_of(alloc: Global, members: &mut Map<String, Value>) -> Result<(UserName, Call), Refusal>
    ensures { UnlessMemory result (asked_in CallKind.List members.old) }
{
    let Some(_) = text_at(members, "jql") else {
        return misses(alloc, "jql");
    };
    let Some(fields) = take_fields(alloc, members)? else {
        return misses(alloc, "fields");
    };
    let Some(from) = from_if_there(members) else {
        return misses(alloc, "from");
    };
    let Some(count) = count_if_there(members, MOST_SHOWN) else {
        return misses(alloc, "count");
    };
    if let Some(other) = first_other(CallKind::List, members) {
        return misses(alloc, other);
    }
    let jql = take_text(alloc, members, "jql");
    let user = take_user(alloc, members);
    Ok((
        user,
        Call::List {
            jql,
            fields,
            part: Part { from, count },
        },
    ))
}

pub fn filters_of(
    alloc: Global,
    members: &mut Map<String, Value>,
) -> Result<(UserName, Call), Refusal>
    ensures { UnlessMemory result (asked_in CallKind.Filters members.old) }
{
    let Some(from) = from_if_there(members) else {
        return misses(alloc, "from");
    };
    let Some(count) = count_if_there(members, MOST_LISTED) else {
        return misses(alloc, "count");
    };
    if let Some(other) = first_other(CallKind::Filters, members) {
        return misses(alloc, other);
    }
    let user = take_user(alloc, members);
    Ok((
        user,
        Call::Filters {
            part: Part { from, count },
        },
    ))
}

pub fn boards_of(
    alloc: Global,
    members: &mut Map<String, Value>,
) -> Result<(UserName, Call), Refusal>
    ensures { UnlessMemory result (asked_in CallKind.Boards members.old) }
{
    let Some(from) = from_if_there(members) else {
        return misses(alloc, "from");
    };
    let Some(count) = count_if_there(members, MOST_LISTED) else {
        return misses(alloc, "count");
    };
    if let Some(other) = first_other(CallKind::Boards, members) {
        return misses(alloc, other);
    }
    let user = take_user(alloc, members);
    Ok((
        user,
        Call::Boards {
            part: Part { from, count },
        },
    ))
}

pub fn sprints_of(
    alloc: Global,
    members: &mut Map<String, Value>,
) -> Result<(UserName, Call), Refusal>
    ensures { UnlessMemory result (asked_in CallKind.Sprints members.old) }
{
    let Some(from) = from_if_there(members) else {
        return misses(alloc, "from");
    };
    let Some(count) = count_if_there(members, MOST_LISTED) else {
        return misses(alloc, "count");
    };
    if let Some(other) = first_other(CallKind::Sprints, members) {
        return misses(alloc, other);
    }
    let user = take_user(alloc, members);
    Ok((
        user,
        Call::Sprints {
            part: Part { from, count },
        },
    ))
}

pub fn describe_of(
    alloc: Global,
    members: &mut Map<String, Value>,
) -> Result<(UserName, Call), Refusal>
    ensures { UnlessMemory result (asked_in CallKind.Describe members.old) }
{
    if let Some(other) = first_other(CallKind::Describe, members) {
        return misses(alloc, other);
    }
    let user = take_user(alloc, members);
    Ok((user, Call::Describe))
}

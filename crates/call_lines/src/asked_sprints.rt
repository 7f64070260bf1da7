// The calls of sprints with their members, in the order in which a fault is told.
ghost use Rattle.call_lines.specs.Asked.{UnlessMemory};
ghost use Rattle.call_lines.specs.Taken.{asked_in};

use crate::kind::CallKind;
use crate::members::{count_if_there, first_other, from_if_there, misses, number_at, title_at};
use crate::taken::{take_text, take_user};
use field_values::SprintNo;
use serde_json::{Map, Value};
use std::alloc::Global;
use tracker_calls::{Call, MOST_LISTED, Part, Refusal, UserName};

#[tactic(auto, using(crate::proofs::Taking::text_at_without))]
pub fn make_sprint_of(
    alloc: Global,
    members: &mut Map<String, Value>,
) -> Result<(UserName, Call), Refusal>
    ensures { UnlessMemory result (asked_in CallKind.MakeSprint members.old) }
{
    let Some(_) = title_at(members, "name") else {
        return misses(alloc, "name");
    };
    if let Some(other) = first_other(CallKind::MakeSprint, members) {
        return misses(alloc, other);
    }
    let name = take_text(alloc, members, "name");
    let user = take_user(alloc, members);
    Ok((user, Call::MakeSprint { name }))
}

pub fn start_sprint_of(
    alloc: Global,
    members: &mut Map<String, Value>,
) -> Result<(UserName, Call), Refusal>
    ensures { UnlessMemory result (asked_in CallKind.StartSprint members.old) }
{
    let Some(number) = number_at(members, "sprint") else {
        return misses(alloc, "sprint");
    };
    if let Some(other) = first_other(CallKind::StartSprint, members) {
        return misses(alloc, other);
    }
    let user = take_user(alloc, members);
    Ok((
        user,
        Call::StartSprint {
            sprint: SprintNo(number),
        },
    ))
}

pub fn close_sprint_of(
    alloc: Global,
    members: &mut Map<String, Value>,
) -> Result<(UserName, Call), Refusal>
    ensures { UnlessMemory result (asked_in CallKind.CloseSprint members.old) }
{
    let Some(number) = number_at(members, "sprint") else {
        return misses(alloc, "sprint");
    };
    if let Some(other) = first_other(CallKind::CloseSprint, members) {
        return misses(alloc, other);
    }
    let user = take_user(alloc, members);
    Ok((
        user,
        Call::CloseSprint {
            sprint: SprintNo(number),
        },
    ))
}

pub fn burndown_of(
    alloc: Global,
    members: &mut Map<String, Value>,
) -> Result<(UserName, Call), Refusal>
    ensures { UnlessMemory result (asked_in CallKind.Burndown members.old) }
{
    let Some(number) = number_at(members, "sprint") else {
        return misses(alloc, "sprint");
    };
    let Some(from) = from_if_there(members) else {
        return misses(alloc, "from");
    };
    let Some(count) = count_if_there(members, MOST_LISTED) else {
        return misses(alloc, "count");
    };
    if let Some(other) = first_other(CallKind::Burndown, members) {
        return misses(alloc, other);
    }
    let user = take_user(alloc, members);
    Ok((
        user,
        Call::Burndown {
            sprint: SprintNo(number),
            part: Part { from, count },
        },
    ))
}

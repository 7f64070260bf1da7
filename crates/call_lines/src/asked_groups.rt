// The call of groups with its members, in the order in which a fault is told.
ghost use Rattle.call_lines.specs.Asked.{UnlessMemory};
ghost use Rattle.call_lines.specs.Taken.{asked_in};

use crate::kind::CallKind;
use crate::members::{first_other, misses, text_at};
use crate::named::take_names;
use crate::taken::{take_text, take_user};
use serde_json::{Map, Value};
use std::alloc::Global;
use tracker_calls::{Call, Refusal, UserName};

#[tactic(auto, using(crate::proofs::Taking::text_at_without, crate::proofs::Taking::first_other_without))]
pub fn set_group_of(
    alloc: Global,
    members: &mut Map<String, Value>,
) -> Result<(UserName, Call), Refusal>
    ensures { UnlessMemory result (asked_in CallKind.SetGroup members.old) }
{
    let Some(_) = text_at(members, "group") else {
        return misses(alloc, "group");
    };
    let Some(names) = take_names(alloc, members, "members")? else {
        return misses(alloc, "members");
    };
    if let Some(other) = first_other(CallKind::SetGroup, members) {
        return misses(alloc, other);
    }
    let group = take_text(alloc, members, "group");
    let user = take_user(alloc, members);
    Ok((
        user,
        Call::SetGroup {
            group,
            members: names,
        },
    ))
}

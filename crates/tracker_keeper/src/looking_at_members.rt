// The members of a group that a body tells.
ghost use Rattle.std.specs.Prelude.{◌≡◌, option_map, IfOk};
ghost use Rattle.field_values.specs.GroupMembers.{is_user_list};
ghost use Rattle.fields.specs.SetupParts.{names};
ghost use Rattle.serde_json.specs.View.{view, items_view};
ghost use Rattle.tracker_keeper.specs.LookingAtValues.{group_in, user_of, users_in, listed_users};
ghost use Rattle.tracker_keeper.specs.LookingAtValues.{items_at, members_at, members_like};

use crate::part::Part;
use field_values::{GroupNo, Memory, Sequence, UserNo};
use fields::Setup;
use serde_json::Value as Json;
use std::alloc::Global;

fn group_in(count: usize, no: u64) -> Option<u16>
    ensures { result ≡ group_in count no }
{
    if 1 <= no && no <= count as u64 && no < 65_536 {
        Some(no as u16)
    } else {
        None
    }
}

#[tactic(auto, using(crate::proofs::Found::user_of))]
fn user_of(setup: &Setup, value: &Json) -> Option<UserNo>
    ensures { result ≡ user_of setup.now.users (view value.now) }
{
    let name = value.as_str()?;
    setup.user_named(name)
}

fn users_in(
    alloc: Global,
    setup: &Setup,
    items: &[Json],
) -> Result<Option<Sequence<UserNo>>, Memory>
    ensures { IfOk result (λ users. users ≡ users_in setup.now.users (items_view items.now)) }
{
    let mut users = Sequence::new(alloc);
    for item in items {
        let Some(user) = user_of(setup, item) else {
            return Ok(None);
        };
        users.push(user)?;
    }
    Ok(Some(users))
}

// Whether each is one of so many users, and they rise.
fn is_user_list(count: usize, users: &[UserNo]) -> bool
    ensures { result ≡ is_user_list count users.now }
{
    for (place, user) in users.iter().enumerate() {
        if place + 1 == users.len() {
            return usize::from(user.0) < count;
        }
        if users[place + 1].0 <= user.0 {
            return false;
        }
    }
    true
}

fn listed_users(
    alloc: Global,
    setup: &Setup,
    items: &[Json],
) -> Result<Option<Sequence<UserNo>>, Memory>
    ensures { IfOk result (λ users. users ≡ listed_users setup.now.users (items_view items.now)) }
{
    let Some(users) = users_in(alloc, setup, items)? else {
        return Ok(None);
    };
    if is_user_list(setup.users.as_slice().len(), users.as_slice()) {
        Ok(Some(users))
    } else {
        Ok(None)
    }
}

pub(crate) fn items_at<'v>(value: &'v Json, name: &str) -> Option<&'v [Json]>
    ensures { option_map (λ items. items_view items.now) result
        ≡ items_at name.now (view value.now) }
{
    match value.get(name)?.as_array() {
        Some(items) => Some(items.as_slice()),
        None => None,
    }
}

fn members_at(
    alloc: Global,
    setup: &Setup,
    value: &Json,
) -> Result<Option<Sequence<UserNo>>, Memory>
    ensures { IfOk result (λ users. users ≡ members_at setup.now.users (view value.now)) }
{
    match items_at(value, "members") {
        Some(items) => listed_users(alloc, setup, items),
        None => Ok(None),
    }
}

#[tactic(auto, unfolding(crate::specs::LookingAtValues::members_like))]
pub(crate) fn members_like(
    alloc: Global,
    setup: &Setup,
    no: u64,
    value: &Json,
) -> Result<Option<Part>, Memory>
    ensures { IfOk result (λ part. part ≡ members_like (names setup.now) no (view value.now)) }
{
    let Some(group) = group_in(setup.group.as_slice().len(), no) else {
        return Ok(None);
    };
    let Some(members) = members_at(alloc, setup, value)? else {
        return Ok(None);
    };
    Ok(Some(Part::Members {
        group: GroupNo(group),
        members,
    }))
}

// The call `set_group`: a group comes to other members.
ghost use Rattle.std.specs.Prelude.{◌≡◌, ◌≤◌, ◌-◌, ◌∷◌, [], Some, true, length, IfOk};
ghost use Rattle.field_forms.specs.Names.{place_named};
ghost use Rattle.field_values.specs.GroupMembers.{is_user_list};
ghost use Rattle.fields.specs.Naming.{name_at};
ghost use Rattle.setup_reading.specs.Resolving.{members_in};
ghost use Rattle.tracker_machine.specs.Checks.{unless_known};
ghost use Rattle.tracker_machine.specs.Members.{group_names, has_members, regroups, set_group_meaning, set_group_refusal, stranger_refusal, users_named};
ghost use Rattle.tracker_state.specs.Check.{Checks};
ghost use Rattle.tracker_state.specs.Plan.{IsPrepared};
ghost use Rattle.tracker_state.specs.Rows.{members_op};

use crate::check::known_group;
use field_forms::name_form::is_among;
use fields::{GroupNo, Memory, Permission, Sequence, Text, UserNo};
use std::alloc::Global;
use tracker_calls::{Answer, Cause, Refusal, Thing};
use tracker_keeper::RowOp;
use tracker_setting::copy_members;
use tracker_state::{MembersPlan, Plan, Prepared, State, check_permission, members_op, unknown};

/// Prepares that the group has these members and no others, or says why not.
#[tactic(auto, unfolding(tracker_machine::specs::Members::set_group_meaning))]
pub fn set_group(
    alloc: Global,
    state: &mut State,
    caller: UserNo,
    group: &str,
    members: &[Text],
) -> Result<Prepared, Refusal>
    ensures same { state.new.machine ≡ state.old.machine }
    ensures watched { state.new.watched ≡ state.old.watched }
    ensures prepared { IsPrepared
        (set_group_meaning state.old.machine caller.0 group.now members.now) state.new result }
{
    let group = check_set_group(alloc, state, caller, group, members)?;
    regrouped(alloc, state, group, members)
}

// The number of the group, where each member is a user, and the caller may administer the tracker.
fn check_set_group(
    alloc: Global,
    state: &State,
    caller: UserNo,
    group: &str,
    members: &[Text],
) -> Result<GroupNo, Refusal>
    ensures check { Checks
        (set_group_refusal state.now.machine caller.0 group.now members.now) result }
    ensures place { IfOk result (λ no.
        place_named group.now (group_names state.now.machine.setup) ≡ Some (no.0 - 1)) }
    ensures from_one { IfOk result (λ no. 1 ≤ no.0) }
    ensures there { IfOk result (λ no. no.0 ≤ length state.now.machine.setup.group) }
{
    let group = known_group(alloc, state, group)?;
    check_users(alloc, state, members)?;
    check_permission(alloc, state, caller, Permission::Administer, None)?;
    Ok(group)
}

// Each of these names is a user's.
fn check_users(alloc: Global, state: &State, names: &[Text]) -> Result<(), Refusal>
    ensures { Checks (stranger_refusal state.now.machine.setup.users names.now) result }
{
    for name in names {
        check_user(alloc, state, name.as_str())?;
    }
    Ok(())
}

fn check_user(alloc: Global, state: &State, name: &str) -> Result<(), Refusal>
    ensures { Checks (unless_known (place_named name.now state.now.machine.setup.users)
        (Cause.Unknown Thing.User name.now)) result }
{
    match state.user_named(name) {
        Some(_) => Ok(()),
        None => Err(unknown(alloc, Thing::User, name)),
    }
}

// The group with the users of these names, ready to come; its answer alone where it has them already.
fn regrouped(
    alloc: Global,
    state: &State,
    group: GroupNo,
    names: &[Text],
) -> Result<Prepared, Refusal>
    requires from_one { 1 ≤ group.0 }
    requires there { group.0 ≤ length state.now.machine.setup.group }
    ensures { IsPrepared (regroups state.now.machine.setup (group.0 - 1)
        (users_named state.now.machine.setup names.now)) state.now result }
{
    let name = group_name(alloc, state, group)?;
    let new = members_plan(alloc, state, group, names)?;
    let answer = Answer::SetGroup {
        group: name,
        members: new.members.as_slice().len() as u64,
    };
    if has_members(state, group, new.members.as_slice()) {
        return Ok(Prepared::Tell(answer));
    }
    let rows = members_ops(alloc, state, group, new.members.as_slice())?;
    Ok(Prepared::Make {
        plan: Plan::Members(new),
        answer,
        rows,
    })
}

// The name of the group as the setup spells it.
fn group_name(alloc: Global, state: &State, group: GroupNo) -> Result<Text, Memory>
    requires from_one { 1 ≤ group.0 }
    requires there { group.0 ≤ length state.now.machine.setup.group }
    ensures { IfOk result (λ name. name
        ≡ name_at (group_names state.now.machine.setup) (group.0 - 1)) }
{
    let groups = state.setup().group.as_slice();
    groups[usize::from(group.0) - 1].name.copy(alloc)
}

// Whether the group has these members already.
fn has_members(state: &State, group: GroupNo, members: &[UserNo]) -> bool
    requires from_one { 1 ≤ group.0 }
    requires there { group.0 ≤ length state.now.machine.setup.group }
    ensures { result ≡ has_members state.now.machine.setup (group.0 - 1) members.now }
{
    let groups = state.setup().group.as_slice();
    groups[usize::from(group.0) - 1].members.as_slice() == members
}

// The plan by which the group has the users of these names.
#[tactic(auto, using(fields::proofs::ResolveFacts::members_inside))]
fn members_plan(
    alloc: Global,
    state: &State,
    group: GroupNo,
    names: &[Text],
) -> Result<MembersPlan, Memory>
    ensures group { IfOk result (λ new. new.group ≡ group) }
    ensures members { IfOk result (λ new.
        new.members ≡ users_named state.now.machine.setup names.now) }
    ensures listed { IfOk result (λ new.
        is_user_list (length state.now.machine.setup.users) new.members ≡ true) }
    ensures asked { IfOk result (λ new. new.asked ≡ new.members) }
{
    let members = members_in(alloc, state.setup().users.as_slice(), names)?;
    let asked = copy_members(alloc, members.as_slice())?;
    Ok(MembersPlan {
        group,
        members,
        asked,
    })
}

// The users of these names, each once, in the order of all users.
fn members_in(alloc: Global, users: &[Text], names: &[Text]) -> Result<Sequence<UserNo>, Memory>
    requires { length users.now ≤ 200 }
    ensures { IfOk result (λ members. members ≡ members_in 0 users.now names.now) }
{
    let mut members = Sequence::new(alloc);
    for (place, user) in users.iter().enumerate() {
        if is_among(names, user.as_str()) {
            members.push(UserNo(place as u16))?;
        }
    }
    Ok(members)
}

// The operation that keeps the members of the group.
fn members_ops(
    alloc: Global,
    state: &State,
    group: GroupNo,
    members: &[UserNo],
) -> Result<Vec<RowOp>, Memory>
    requires from_one { 1 ≤ group.0 }
    requires there { group.0 ≤ length state.now.machine.setup.group }
    requires listed { is_user_list (length state.now.machine.setup.users) members.now ≡ true }
    ensures { IfOk result (λ ops. ops.items
        ≡ members_op state.now.machine.setup group members.now ∷ []) }
{
    let op = members_op(alloc, state.setup(), group, members)?;
    let mut ops = Vec::new(alloc);
    ops.push(op)?;
    Ok(ops)
}

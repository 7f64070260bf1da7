// Who is in the groups of a setup that takes the place of another one.
ghost use Rattle.std.specs.Prelude.{◌≡◌, ◌≤◌, ◌<◌, true, length, option_map, slice_get, IfOk, OnOk, IfSome};
ghost use Rattle.field_values.specs.GroupMembers.{is_user_list, with_members};
ghost use Rattle.fields.specs.SetupParts.{parts};
ghost use Rattle.setup_reading.specs.Resolving.{members_in};
ghost use Rattle.tracker_keeper.specs.Bodies.{user_names};
ghost use Rattle.amended_rows.specs.Amended.{group_named, members_kept, users_still, with_kept_members};

use field_forms::name_form::is_among;
use fields::laws::keeps_what_was_read;
use fields::{Group, GroupNo, Memory, Sequence, Setup, Text, UserNo, name_at};
use std::alloc::Global;
use tracker_setting::copy_members;

/// The setup, each of whose groups has the members that it comes to have: where the old setup has a group of its name, that group's, but
/// for users who are gone.
#[tactic(auto, using(crate::proofs::KeptMembers::next_kept, crate::proofs::KeptMembers::setup_kept))]
pub(crate) fn with_kept_members(alloc: Global, setup: Setup, old: &Setup) -> Result<Setup, Memory>
    ensures parts { IfOk result (λ new. parts new ≡ with_kept_members (parts old.now) (parts setup)) }
    ensures text { IfOk result (λ new. new.text ≡ setup.text) }
{
    let mut setup = setup;
    for place in 0..setup.group.as_slice().len() {
        keep_members(alloc, &mut setup, old, place)?;
    }
    Ok(setup)
}

// Gives the group at a place the members that it comes to have.
fn keep_members(alloc: Global, setup: &mut Setup, old: &Setup, place: usize) -> Result<(), Memory>
    requires { place < length setup.old.group }
    ensures parts { IfSome (slice_get setup.old.group place) (λ g. OnOk result (parts setup.new
        ≡ record (parts setup.old) {
          group = with_members setup.old.group place
              (members_kept (parts old.now) (parts setup.old) g);
        })) }
    ensures text { setup.new.text ≡ setup.old.text }
{
    let members = kept_at(alloc, old, setup, place)?;
    setup.set_members(GroupNo(place as u16 + 1), members);
    Ok(())
}

// The members that the group at a place comes to have.
#[tactic(auto, using(crate::proofs::KeptMembers::listed_at))]
fn kept_at(
    alloc: Global,
    old: &Setup,
    setup: &Setup,
    place: usize,
) -> Result<Sequence<UserNo>, Memory>
    requires { place < length setup.now.group }
    ensures members { IfSome (slice_get setup.now.group place) (λ g. IfOk result
        (λ members. members ≡ members_kept (parts old.now) (parts setup.now) g)) }
    ensures listed { IfOk result (λ members.
        is_user_list (length setup.now.users) members ≡ true) }
{
    keeps_what_was_read(setup);
    let group = &setup.group.as_slice()[place];
    members_kept(alloc, old, setup, group)
}

// The members that a group of the setup comes to have.
fn members_kept(
    alloc: Global,
    old: &Setup,
    setup: &Setup,
    group: &Group,
) -> Result<Sequence<UserNo>, Memory>
    requires { is_user_list (length setup.now.users) group.now.members ≡ true }
    ensures members { IfOk result (λ members.
        members ≡ members_kept (parts old.now) (parts setup.now) group.now) }
    ensures listed { IfOk result (λ members.
        is_user_list (length setup.now.users) members ≡ true) }
{
    match group_named(old, group.name.as_str()) {
        Some(was) => users_still(alloc, old, setup, was.members.as_slice()),
        None => copy_members(alloc, group.members.as_slice()),
    }
}

// The setup's group of that name.
fn group_named<'a>(setup: &'a Setup, name: &str) -> Option<&'a Group>
    ensures { option_map (λ g. g.now) result ≡ group_named name.now (parts setup.now) }
{
    match setup.group_named(name) {
        Some(no) => group_at(setup.group.as_slice(), usize::from(no.0) - 1),
        None => None,
    }
}

fn group_at(groups: &[Group], place: usize) -> Option<&Group>
    ensures { option_map (λ g. g.now) result ≡ slice_get groups.now place }
{
    groups.get(place)
}

// Those users of the old setup whom the new one has, too.
#[tactic(auto, using(fields::proofs::ResolveFacts::members_inside))]
fn users_still(
    alloc: Global,
    old: &Setup,
    setup: &Setup,
    members: &[UserNo],
) -> Result<Sequence<UserNo>, Memory>
    ensures members { IfOk result (λ still.
        still ≡ users_still (parts old.now) (parts setup.now) members.now) }
    ensures listed { IfOk result (λ still. is_user_list (length setup.now.users) still ≡ true) }
{
    let names = user_names(alloc, old.users.as_slice(), members)?;
    members_in(alloc, setup.users.as_slice(), &names)
}

// The names of some users.
fn user_names(alloc: Global, users: &[Text], members: &[UserNo]) -> Result<Vec<Text>, Memory>
    ensures { IfOk result (λ names. names.items ≡ user_names users.now members.now) }
{
    let mut names = Vec::new(alloc);
    for member in members {
        names.push(name_at(alloc, users, member.0)?)?;
    }
    Ok(names)
}

// The users of these names, each once, in the order of all users.
fn members_in(alloc: Global, users: &[Text], names: &[Text]) -> Result<Sequence<UserNo>, Memory>
    requires { length users.now ≤ 200 }
    ensures { IfOk result (λ members. members ≡ members_in 0 users.now names.now) }
{
    let mut members = Sequence::new(alloc);
    for (place, user) in users.iter().enumerate() {
        if is_among(names, user.as_str()) {
            members.push(UserNo(place as u16))?;
        }
    }
    Ok(members)
}

// Groups with their members.
ghost use Rattle.std.specs.Prelude.{◌≡◌, IfOk, map};
ghost use Rattle.fields.specs.Naming.{name_at};
ghost use Rattle.told_setups.specs.Told.{user_names, told_group};

use fields::{Group, Memory, Names, Setup, Text, UserNo};
use std::alloc::Global;
use tracker_calls::{ToldGroup, ToldGroups, ToldText};

/// What a user is called; an empty text where there is none of that number.
pub fn user_name(setup: &Setup, user: UserNo) -> &str
    ensures { result.now ≡ name_at setup.now.users user.0 }
{
    match setup.users.as_slice().get(usize::from(user.0)) {
        Some(name) => name.as_str(),
        None => "",
    }
}

/// The groups with their members.
pub fn told_groups(alloc: Global, setup: &Setup) -> Result<ToldGroups, Memory>
    ensures { IfOk result
        (λ told. told ≡ map (told_group setup.now.users) setup.now.group) }
{
    each_group(alloc, setup, setup.group.as_slice())
}

fn each_group(alloc: Global, setup: &Setup, groups: &[Group]) -> Result<ToldGroups, Memory>
    ensures { IfOk result (λ told. told ≡ map (told_group setup.now.users) groups.now) }
{
    let mut told = ToldGroups::new(alloc);
    for group in groups {
        told.push(told_group(alloc, setup, group)?)?;
    }
    Ok(told)
}

fn told_group(alloc: Global, setup: &Setup, group: &Group) -> Result<ToldGroup, Memory>
    ensures { IfOk result (λ told. told ≡ told_group setup.now.users group.now) }
{
    let members = user_names(alloc, setup, group.members.as_slice())?;
    let name = ToldText::copy_of(alloc, group.name.as_str())?;
    Ok(ToldGroup {
        group: name,
        members,
    })
}

fn user_names(alloc: Global, setup: &Setup, users: &[UserNo]) -> Result<Names, Memory>
    ensures { IfOk result (λ told. told ≡ user_names setup.now.users users.now) }
{
    let mut told = Names::new(alloc);
    for user in users {
        told.push(Text::copy_of(alloc, user_name(setup, *user))?)?;
    }
    Ok(told)
}

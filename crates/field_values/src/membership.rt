// Who is in a group.
ghost use Rattle.std.specs.Prelude.{◌≡◌};
ghost use Rattle.field_values.specs.GroupMembers.{AreRising, HaveRising, is_member, has_member};

use crate::numbers::{GroupNo, UserNo};
use crate::parts::Group;

/// Whether the user is one of these, who stand in the setup's order.
pub fn is_member(members: &[UserNo], user: UserNo) -> bool
    requires { AreRising members.now }
    ensures { result ≡ is_member members.now user.0 }
{
    members
        .binary_search_by_key(&user.0, |member| member.0)
        .is_ok()
}

/// Whether the group has the user.
pub fn has_member(groups: &[Group], user: UserNo, group: GroupNo) -> bool
    requires { HaveRising groups.now }
    ensures { result ≡ has_member groups.now user.0 group }
{
    match groups.get(usize::from(group.0.saturating_sub(1))) {
        Some(group) => is_member(group.members.as_slice(), user),
        None => false,
    }
}

// Who may do what, and who is in a group.
ghost use Rattle.std.specs.Prelude.{◌≡◌, ◌≤◌, ◌-◌, true, length, option_map, Some};
ghost use Rattle.std.specs.List.{list_any};
ghost use Rattle.field_values.specs.GroupMembers.{with_members, is_user_list, HaveRising, has_member};
ghost use Rattle.fields.specs.SetupParts.{parts, groups_in, groups_with, may};

use crate::setup::Setup;
use field_values::membership::has_member;
use field_values::numbers::{GroupNo, ProjectNo, UserNo};
use field_values::parts::{Group, Project};
use field_values::rules::Permission;
use field_values::sequence::Sequence;

/// Whether one of these groups has the user.
fn has_member_in(groups: &[Group], user: UserNo, wanted: &[GroupNo]) -> bool
    requires { HaveRising groups.now }
    ensures { result ≡ list_any (has_member groups.now user.0) wanted.now }
{
    wanted.iter().any(|group| has_member(groups, user, *group))
}

/// The groups that have a permission in a project.
fn groups_in(permission: Permission, project: &Project) -> &[GroupNo]
    ensures { result.now ≡ groups_in permission (Some project.now) }
{
    match permission {
        Permission::Browse => project.browse.as_slice(),
        Permission::Create => project.create.as_slice(),
        Permission::Edit => project.edit.as_slice(),
        Permission::Transition => project.transition.as_slice(),
        Permission::Rank => project.rank.as_slice(),
        Permission::Plan | Permission::Administer => &[],
    }
}

impl Setup {
    /// Whether one of the groups that have the permission has the user. The permissions of a project are asked of it; those
    /// of the whole tracker need none.
    pub fn may(&self, user: UserNo, permission: Permission, project: Option<ProjectNo>) -> bool
        ensures { result
            ≡ may (parts self.now) user.0 permission (option_map (λ no. no.0) project) }
    {
        has_member_in(
            self.group.as_slice(),
            user,
            self.groups_with(permission, project),
        )
    }

    /// The groups that have a permission: of the whole tracker, or in the project.
    fn groups_with(&self, permission: Permission, project: Option<ProjectNo>) -> &[GroupNo]
        ensures { result.now
            ≡ groups_with (parts self.now) permission (option_map (λ no. no.0) project) }
    {
        match permission {
            Permission::Plan => self.plan.as_slice(),
            Permission::Administer => self.administer.as_slice(),
            _ => match project {
                Some(no) => match self.project.as_slice().get(usize::from(no.0)) {
                    Some(project) => groups_in(permission, project),
                    None => &[],
                },
                None => &[],
            },
        }
    }

    /// Gives a group other members, in the setup's order of users and each once. All else stays, the text too.
    #[tactic(auto, using(field_values::proofs::Members::same_names, field_values::proofs::Members::same_length, field_values::proofs::Members::same_but_members))]
    pub fn set_members(&mut self, group: GroupNo, members: Sequence<UserNo>)
        requires from_one { 1 ≤ group.0 }
        requires there { group.0 ≤ length self.old.group }
        requires in_order { is_user_list (length self.old.users) members ≡ true }
        ensures parts { parts self.new
            ≡ record (parts self.old) {
              group = with_members self.old.group (group.0 - 1) members;
            } }
        ensures text { self.new.text ≡ self.old.text }
    {
        self.group.set_members(usize::from(group.0) - 1, members);
    }
}

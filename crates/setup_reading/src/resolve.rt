// Names of the setup, resolved to what they name.
ghost use Rattle.std.specs.Prelude.{◌≡◌, ◌≤◌, [], ◌∷◌, length, map, IfOk, OnOk};
ghost use Rattle.setup_drafts.specs.Faults.{Answers, Tells, first_of};
ghost use Rattle.setup_reading.specs.Resolving.{first_over, unknown, user_in, choice_in, group_in};
ghost use Rattle.setup_reading.specs.Resolving.{members_in, group_unknown, group_resolved};
ghost use Rattle.setup_reading.specs.Resolving.{project_unknown, project_resolved};

use field_forms::name_form::{is_among, place_of};
use field_values::memory::Memory;
use field_values::numbers::{ChoiceNo, GroupNo, UserNo};
use field_values::parts::{Group, Project};
use field_values::sequence::Sequence;
use field_values::text::Text;
use setup_drafts::draft::group::GroupDraft;
use setup_drafts::draft::project::ProjectDraft;
use setup_drafts::fault::SetupFault;
use std::alloc::Global;

/// The user of that name.
pub(crate) fn user_in(alloc: Global, names: &[Text], name: &str) -> Result<UserNo, SetupFault>
    requires { length names.now ≤ 65_534 }
    ensures { Answers (unknown names.now name.now) (user_in names.now name.now) result }
{
    match place_of(names, name) {
        Some(place) => Ok(UserNo(place as u16)),
        None => Err(SetupFault::unknown(alloc, name)),
    }
}

/// The choice of that name.
pub(crate) fn choice_in(alloc: Global, names: &[Text], name: &str) -> Result<ChoiceNo, SetupFault>
    requires { length names.now ≤ 65_534 }
    ensures { Answers (unknown names.now name.now) (choice_in names.now name.now) result }
{
    match place_of(names, name) {
        Some(place) => Ok(ChoiceNo(place as u16)),
        None => Err(SetupFault::unknown(alloc, name)),
    }
}

fn group_in(alloc: Global, names: &[Text], name: &str) -> Result<GroupNo, SetupFault>
    requires { length names.now ≤ 65_534 }
    ensures { Answers (unknown names.now name.now) (group_in names.now name.now) result }
{
    match place_of(names, name) {
        Some(place) => Ok(GroupNo(place as u16 + 1)),
        None => Err(SetupFault::unknown(alloc, name)),
    }
}

/// The groups of these names.
pub(crate) fn groups_in(
    alloc: Global,
    names: &[Text],
    list: &[Text],
) -> Result<Sequence<GroupNo>, SetupFault>
    requires { length names.now ≤ 65_534 }
    ensures { Answers (first_over (unknown names.now) list.now)
        (map (group_in names.now) list.now) result }
{
    let mut resolved = Sequence::new(alloc);
    for name in list {
        resolved.push(group_in(alloc, names, name.as_str())?)?;
    }
    Ok(resolved)
}

/// The statuses of these names.
pub(crate) fn choices_in(
    alloc: Global,
    names: &[Text],
    list: &[Text],
) -> Result<Sequence<ChoiceNo>, SetupFault>
    requires { length names.now ≤ 65_534 }
    ensures { Answers (first_over (unknown names.now) list.now)
        (map (choice_in names.now) list.now) result }
{
    let mut resolved = Sequence::new(alloc);
    for name in list {
        resolved.push(choice_in(alloc, names, name.as_str())?)?;
    }
    Ok(resolved)
}

fn all_known(alloc: Global, names: &[Text], list: &[Text]) -> Result<(), SetupFault>
    ensures { Tells (first_over (unknown names.now) list.now) result }
{
    for name in list {
        if place_of(names, name.as_str()).is_none() {
            return Err(SetupFault::unknown(alloc, name.as_str()));
        }
    }
    Ok(())
}

fn members_in(alloc: Global, users: &[Text], texts: &[Text]) -> Result<Sequence<UserNo>, Memory>
    requires { length users.now ≤ 65_534 }
    ensures { IfOk result (λ members. members ≡ members_in 0 users.now texts.now) }
{
    let mut members = Sequence::new(alloc);
    for (place, user) in users.iter().enumerate() {
        if is_among(texts, user.as_str()) {
            members.push(UserNo(place as u16))?;
        }
    }
    Ok(members)
}

#[tactic(auto, unfolding(crate::specs::Resolving::group_unknown, crate::specs::Resolving::group_resolved))]
fn resolve_group(alloc: Global, users: &[Text], draft: &GroupDraft) -> Result<Group, SetupFault>
    requires { length users.now ≤ 65_534 }
    ensures { Answers (group_unknown users.now draft.now)
        (group_resolved users.now draft.now) result }
{
    all_known(alloc, users, draft.members.as_slice())?;
    let members = members_in(alloc, users, draft.members.as_slice())?;
    Ok(Group {
        name: draft.name.copy(alloc)?,
        members,
    })
}

/// The groups with the numbers of their members.
pub(crate) fn resolve_groups(
    alloc: Global,
    users: &[Text],
    drafts: &[GroupDraft],
) -> Result<Sequence<Group>, SetupFault>
    requires { length users.now ≤ 65_534 }
    ensures told { Answers (first_over (group_unknown users.now) drafts.now)
        (map (group_resolved users.now) drafts.now) result }
    ensures all { IfOk result (λ groups. length groups ≡ length drafts.now) }
{
    let mut groups = Sequence::new(alloc);
    for draft in drafts {
        groups.push(resolve_group(alloc, users, draft)?)?;
    }
    Ok(groups)
}

/// Resolving the names of the groups that have each permission.
fn resolve_permissions(
    alloc: Global,
    groups: &[Text],
    draft: &ProjectDraft,
    project: &mut Project,
) -> Result<(), SetupFault>
    requires { length groups.now ≤ 65_534 }
    ensures told { Tells (first_of (first_over (unknown groups.now) draft.now.browse
        ∷ first_over (unknown groups.now) draft.now.create
        ∷ first_over (unknown groups.now) draft.now.edit
        ∷ first_over (unknown groups.now) draft.now.transition
        ∷ first_over (unknown groups.now) draft.now.rank
        ∷ [])) result }
    ensures resolved { OnOk result (project.new ≡ record project.old {
      browse = map (group_in groups.now) draft.now.browse;
      create = map (group_in groups.now) draft.now.create;
      edit = map (group_in groups.now) draft.now.edit;
      transition = map (group_in groups.now) draft.now.transition;
      rank = map (group_in groups.now) draft.now.rank;
    }) }
{
    project.browse = groups_in(alloc, groups, draft.browse.as_slice())?;
    project.create = groups_in(alloc, groups, draft.create.as_slice())?;
    project.edit = groups_in(alloc, groups, draft.edit.as_slice())?;
    project.transition = groups_in(alloc, groups, draft.transition.as_slice())?;
    project.rank = groups_in(alloc, groups, draft.rank.as_slice())?;
    Ok(())
}

#[tactic(auto, unfolding(crate::specs::Resolving::project_unknown, crate::specs::Resolving::project_resolved))]
fn resolve_project(
    alloc: Global,
    users: &[Text],
    groups: &[Text],
    draft: &ProjectDraft,
) -> Result<Project, SetupFault>
    requires users { length users.now ≤ 65_534 }
    requires groups { length groups.now ≤ 65_534 }
    ensures { Answers (project_unknown users.now groups.now draft.now)
        (project_resolved users.now groups.now draft.now) result }
{
    let lead = user_in(alloc, users, draft.lead.as_str())?;
    let mut project = Project {
        key: draft.key.copy(alloc)?,
        lead,
        browse: Sequence::new(alloc),
        create: Sequence::new(alloc),
        edit: Sequence::new(alloc),
        transition: Sequence::new(alloc),
        rank: Sequence::new(alloc),
    };
    resolve_permissions(alloc, groups, draft, &mut project)?;
    Ok(project)
}

/// The projects with the numbers of their leads and groups.
pub(crate) fn resolve_projects(
    alloc: Global,
    users: &[Text],
    groups: &[Text],
    drafts: &[ProjectDraft],
) -> Result<Sequence<Project>, SetupFault>
    requires users { length users.now ≤ 65_534 }
    requires groups { length groups.now ≤ 65_534 }
    ensures told { Answers (first_over (project_unknown users.now groups.now) drafts.now)
        (map (project_resolved users.now groups.now) drafts.now) result }
    ensures all { IfOk result (λ projects. length projects ≡ length drafts.now) }
{
    let mut projects = Sequence::new(alloc);
    for draft in drafts {
        projects.push(resolve_project(alloc, users, groups, draft)?)?;
    }
    Ok(projects)
}

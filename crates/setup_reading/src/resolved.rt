// The parts of a setup that have numbers in place of names.
ghost use Rattle.std.specs.Prelude.{◌≡◌, map, length, IfOk};
ghost use Rattle.setup_drafts.specs.Faults.{Answers};
ghost use Rattle.setup_drafts.specs.Drafts.{IsSmall};
ghost use Rattle.field_forms.specs.Known.{names_of, AreFew};
ghost use Rattle.setup_reading.specs.Resolving.{draft_names, rights_unknown, rights_resolved};
ghost use Rattle.setup_reading.specs.Resolving.{tables_unknown, tables_resolved, resolve_fault};
ghost use Rattle.setup_reading.specs.Resolving.{resolved, resolve_fault_by, resolved_by};

use crate::name_lists::status_names;
use crate::resolve::{choice_in, groups_in, resolve_groups, resolve_projects, user_in};
use crate::resolve_transition::resolve_transitions;
use field_forms::known::Known;
use field_values::memory::Memory;
use field_values::names::Names;
use field_values::numbers::{ChoiceNo, GroupNo, UserNo};
use field_values::parts::{Group, Project, Transition};
use field_values::sequence::Sequence;
use field_values::text::Text;
use setup_drafts::draft::Draft;
use setup_drafts::draft::group::GroupDraft;
use setup_drafts::fault::SetupFault;
use std::alloc::Global;

/// What names outside tables name.
#[derive(Drop)]
pub struct ResolvedRights {
    pub rebalancer: UserNo,
    pub first_status: ChoiceNo,
    pub plan: Sequence<GroupNo>,
    pub administer: Sequence<GroupNo>,
}

/// Tables with numbers in place of names.
#[derive(Drop)]
pub struct ResolvedTables {
    pub groups: Sequence<Group>,
    pub projects: Sequence<Project>,
    pub transitions: Sequence<Transition>,
}

/// What names of the setup name.
pub struct Resolved {
    pub rights: ResolvedRights,
    pub tables: ResolvedTables,
}

// Written by hand, so that whoever lets one go makes one call, and its proof takes one step there.
impl Drop for Resolved {
    fn drop(self) {
        let Resolved {
            rights: _,
            tables: _,
        } = self;
    }
}

impl Resolved {
    /// What it is made of.
    pub fn into_parts(self) -> (ResolvedRights, ResolvedTables)
        ensures { result ≡ (self.rights, self.tables) }
    {
        let Resolved { rights, tables } = self;
        (rights, tables)
    }
}

fn group_names(alloc: Global, groups: &[GroupDraft]) -> Result<Names, Memory>
    ensures { IfOk result (λ names. names ≡ map (λ g. g.name) groups.now) }
{
    let mut names = Names::new(alloc);
    for group in groups {
        names.push(group.name.copy(alloc)?)?;
    }
    Ok(names)
}

/// The lists of names of a draft, lent.
fn known_by<'a>(draft: &'a Draft, statuses: &'a [Text], groups: &'a [Text]) -> Known<'a>
    requires small { IsSmall draft.now }
    requires statuses { statuses.now ≡ map (λ s. s.name) draft.now.tables.statuses }
    requires groups { groups.now ≡ map (λ g. g.name) draft.now.tables.groups }
    ensures names { names_of result ≡ draft_names draft.now }
    ensures few { AreFew (names_of result) }
{
    Known {
        users: draft.lists.users.as_slice(),
        types: draft.lists.types.as_slice(),
        statuses,
        priorities: draft.lists.priorities.as_slice(),
        resolutions: draft.lists.resolutions.as_slice(),
        versions: draft.lists.versions.as_slice(),
        groups,
        fields: draft.tables.fields.as_slice(),
    }
}

#[tactic(auto, unfolding(crate::specs::Resolving::rights_unknown, crate::specs::Resolving::rights_resolved))]
fn resolve_rights(
    alloc: Global,
    draft: &Draft,
    known: &Known<'_>,
) -> Result<ResolvedRights, SetupFault>
    requires { AreFew (names_of known.now) }
    ensures { Answers (rights_unknown (names_of known.now) draft.now)
        (rights_resolved (names_of known.now) draft.now) result }
{
    let rebalancer = user_in(alloc, known.users, draft.head.rebalancer.as_str())?;
    let first_status = choice_in(alloc, known.statuses, draft.rights.first_status.as_str())?;
    let plan = groups_in(alloc, known.groups, draft.rights.plan.as_slice())?;
    let administer = groups_in(alloc, known.groups, draft.rights.administer.as_slice())?;
    Ok(ResolvedRights {
        rebalancer,
        first_status,
        plan,
        administer,
    })
}

#[tactic(auto, unfolding(crate::specs::Resolving::tables_unknown, crate::specs::Resolving::tables_resolved))]
fn resolve_tables(
    alloc: Global,
    draft: &Draft,
    known: &Known<'_>,
) -> Result<ResolvedTables, SetupFault>
    requires { AreFew (names_of known.now) }
    ensures told { Answers (tables_unknown (names_of known.now) draft.now)
        (tables_resolved (names_of known.now) draft.now) result }
    ensures groups { IfOk result (λ resolved. length resolved.groups
        ≡ length draft.now.tables.groups) }
    ensures projects { IfOk result (λ resolved. length resolved.projects
        ≡ length draft.now.tables.projects) }
{
    let groups = resolve_groups(alloc, known.users, draft.tables.groups.as_slice())?;
    let projects = resolve_projects(
        alloc,
        known.users,
        known.groups,
        draft.tables.projects.as_slice(),
    )?;
    let transitions = resolve_transitions(alloc, known, draft.tables.transitions.as_slice())?;
    Ok(ResolvedTables {
        groups,
        projects,
        transitions,
    })
}

#[tactic(auto, unfolding(crate::specs::Resolving::resolve_fault_by, crate::specs::Resolving::resolved_by))]
fn resolve_by(alloc: Global, draft: &Draft, known: &Known<'_>) -> Result<Resolved, SetupFault>
    requires { AreFew (names_of known.now) }
    ensures told { Answers (resolve_fault_by (names_of known.now) draft.now)
        (resolved_by (names_of known.now) draft.now) result }
    ensures groups { IfOk result (λ resolved. length resolved.tables.groups
        ≡ length draft.now.tables.groups) }
    ensures projects { IfOk result (λ resolved. length resolved.tables.projects
        ≡ length draft.now.tables.projects) }
{
    let rights = resolve_rights(alloc, draft, known)?;
    let tables = resolve_tables(alloc, draft, known)?;
    Ok(Resolved { rights, tables })
}

/// What the names of a draft name, or the first fault among them in the order of the setup.
#[tactic(auto, unfolding(crate::specs::Resolving::resolve_fault, crate::specs::Resolving::resolved))]
pub(crate) fn resolve(alloc: Global, draft: &Draft) -> Result<Resolved, SetupFault>
    requires { IsSmall draft.now }
    ensures told { Answers (resolve_fault draft.now) (resolved draft.now) result }
    ensures groups { IfOk result (λ resolved. length resolved.tables.groups
        ≡ length draft.now.tables.groups) }
    ensures projects { IfOk result (λ resolved. length resolved.tables.projects
        ≡ length draft.now.tables.projects) }
{
    let statuses = status_names(alloc, draft.tables.statuses.as_slice())?;
    let groups = group_names(alloc, draft.tables.groups.as_slice())?;
    let known = known_by(draft, statuses.as_slice(), groups.as_slice());
    resolve_by(alloc, draft, &known)
}

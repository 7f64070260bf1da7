ghost use Rattle.std.specs.Prelude.{◌≡◌, ◌≤◌, true, length, IfOk};
ghost use Rattle.std.specs.List.{list_all};
ghost use Rattle.toml.specs.View.{table_view};
ghost use Rattle.setup_drafts.specs.Faults.{Answers};
ghost use Rattle.field_forms.specs.Known.{has_few_options};
ghost use Rattle.setup_drafts.specs.Drafts.{groups_fault, groups_of, projects_fault, projects_of};
ghost use Rattle.setup_drafts.specs.Drafts.{statuses_fault, statuses_of, transitions_fault};
ghost use Rattle.setup_drafts.specs.Drafts.{transitions_of, fields_fault, fields_of, tables_fault};
ghost use Rattle.setup_drafts.specs.Drafts.{tables_of, AreFewTables};

use crate::cell::tables_at;
use crate::draft::field::read_fields;
use crate::draft::group::{GroupDraft, read_groups};
use crate::draft::project::{ProjectDraft, read_projects};
use crate::draft::status::read_statuses;
use crate::draft::transition::{TransitionDraft, read_transitions};
use crate::fault::SetupFault;
use field_values::field::Field;
use field_values::sequence::Sequence;
use field_values::status::Status;
use std::alloc::Global;
use toml::Table;

/// What the lists of tables of the setup say.
pub struct Tables {
    pub groups: Sequence<GroupDraft>,
    pub projects: Sequence<ProjectDraft>,
    pub statuses: Sequence<Status>,
    pub transitions: Sequence<TransitionDraft>,
    pub fields: Sequence<Field>,
}

// Written by hand, so that whoever lets one go makes one call, and its proof takes one step there.
impl Drop for Tables {
    fn drop(self) {
        let Tables {
            groups: _,
            projects: _,
            statuses: _,
            transitions: _,
            fields: _,
        } = self;
    }
}

impl Tables {
    /// The statuses and the fields. What is written of the others is let go.
    pub fn into_statuses_and_fields(self) -> (Sequence<Status>, Sequence<Field>)
        ensures { result ≡ (self.statuses, self.fields) }
    {
        let Tables {
            groups: _,
            projects: _,
            statuses,
            transitions: _,
            fields,
        } = self;
        (statuses, fields)
    }
}

#[tactic(auto, unfolding(crate::specs::Drafts::groups_fault, crate::specs::Drafts::groups_of))]
fn groups_at(alloc: Global, table: &Table) -> Result<Sequence<GroupDraft>, SetupFault>
    ensures told { Answers (groups_fault (table_view table.now))
        (groups_of (table_view table.now)) result }
    ensures few { IfOk result (λ groups. length groups ≤ 100) }
{
    let entries = tables_at(alloc, table, "group", 0, 100)?;
    read_groups(alloc, entries.as_slice())
}

#[tactic(auto, unfolding(crate::specs::Drafts::projects_fault, crate::specs::Drafts::projects_of))]
fn projects_at(alloc: Global, table: &Table) -> Result<Sequence<ProjectDraft>, SetupFault>
    ensures told { Answers (projects_fault (table_view table.now))
        (projects_of (table_view table.now)) result }
    ensures few { IfOk result (λ projects. length projects ≤ 50) }
{
    let entries = tables_at(alloc, table, "project", 1, 50)?;
    read_projects(alloc, entries.as_slice())
}

#[tactic(auto, unfolding(crate::specs::Drafts::statuses_fault, crate::specs::Drafts::statuses_of))]
fn statuses_at(alloc: Global, table: &Table) -> Result<Sequence<Status>, SetupFault>
    ensures told { Answers (statuses_fault (table_view table.now))
        (statuses_of (table_view table.now)) result }
    ensures few { IfOk result (λ statuses. length statuses ≤ 50) }
{
    let entries = tables_at(alloc, table, "status", 1, 50)?;
    read_statuses(alloc, entries.as_slice())
}

#[tactic(auto, unfolding(crate::specs::Drafts::transitions_fault, crate::specs::Drafts::transitions_of))]
fn transitions_at(alloc: Global, table: &Table) -> Result<Sequence<TransitionDraft>, SetupFault>
    ensures told { Answers (transitions_fault (table_view table.now))
        (transitions_of (table_view table.now)) result }
    ensures few { IfOk result (λ transitions. length transitions ≤ 200) }
{
    let entries = tables_at(alloc, table, "transition", 0, 200)?;
    read_transitions(alloc, entries.as_slice())
}

#[tactic(auto, unfolding(crate::specs::Drafts::fields_fault, crate::specs::Drafts::fields_of))]
fn fields_at(alloc: Global, table: &Table) -> Result<Sequence<Field>, SetupFault>
    ensures told { Answers (fields_fault (table_view table.now))
        (fields_of (table_view table.now)) result }
    ensures few { IfOk result (λ fields. length fields ≤ 30) }
    ensures options { IfOk result (λ fields. list_all has_few_options fields ≡ true) }
{
    let entries = tables_at(alloc, table, "field", 0, 30)?;
    read_fields(alloc, entries.as_slice())
}

#[tactic(auto, unfolding(crate::specs::Drafts::tables_fault, crate::specs::Drafts::tables_of))]
pub(crate) fn read_tables(alloc: Global, table: &Table) -> Result<Tables, SetupFault>
    ensures told { Answers (tables_fault (table_view table.now))
        (tables_of (table_view table.now)) result }
    ensures few { IfOk result AreFewTables }
{
    let groups = groups_at(alloc, table)?;
    let projects = projects_at(alloc, table)?;
    let statuses = statuses_at(alloc, table)?;
    let transitions = transitions_at(alloc, table)?;
    let fields = fields_at(alloc, table)?;
    Ok(Tables {
        groups,
        projects,
        statuses,
        transitions,
        fields,
    })
}

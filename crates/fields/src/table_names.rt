// The names of what a setup's tables hold.
ghost use Rattle.std.specs.Prelude.{◌≡◌, map, IfOk};

use field_values::field::Field;
use field_values::memory::Memory;
use field_values::names::Names;
use field_values::parts::{Group, Project, Transition};
use field_values::sequence::Sequence;
use field_values::status::Status;
use name_index::IndexedNames;
use setup_reading::name_lists;
use setup_reading::resolved::ResolvedTables;
use std::alloc::Global;

/// The names of what the tables hold, in the tables' order, and the options of each field.
pub(crate) struct TableNames {
    pub(crate) statuses: IndexedNames,
    pub(crate) groups: IndexedNames,
    pub(crate) projects: IndexedNames,
    pub(crate) transitions: IndexedNames,
    pub(crate) fields: IndexedNames,
    pub(crate) options: Sequence<IndexedNames>,
}

// Written by hand, so that whoever lets one go makes one call, and its proof takes one step there.
impl Drop for TableNames {
    fn drop(self) {
        let TableNames {
            statuses: _,
            groups: _,
            projects: _,
            transitions: _,
            fields: _,
            options: _,
        } = self;
    }
}

impl TableNames {
    /// Those of these statuses, fields and other tables.
    pub(crate) fn of(
        alloc: Global,
        statuses: &[Status],
        fields: &[Field],
        tables: &ResolvedTables,
    ) -> Result<TableNames, Memory>
        // Names stand as their tables do, so that the place of a name is that of what it names.
        // Projects go by their keys.
        ensures statuses { IfOk result (λ names. names.statuses ≡ map (λ s. s.name) statuses.now) }
        ensures groups { IfOk result (λ names. names.groups ≡ map (λ g. g.name) tables.now.groups) }
        ensures projects { IfOk result
            (λ names. names.projects ≡ map (λ p. p.key) tables.now.projects) }
        ensures transitions { IfOk result
            (λ names. names.transitions ≡ map (λ t. t.name) tables.now.transitions) }
        // Of fields there are two: their own names, and for each the names of its options.
        ensures fields { IfOk result (λ names. names.fields ≡ map (λ f. f.name) fields.now) }
        ensures options { IfOk result (λ names. names.options ≡ map (λ f. f.options) fields.now) }
    {
        Ok(TableNames {
            statuses: status_names(alloc, statuses)?,
            groups: group_names(alloc, tables.groups.as_slice())?,
            projects: project_keys(alloc, tables.projects.as_slice())?,
            transitions: transition_names(alloc, tables.transitions.as_slice())?,
            fields: field_names(alloc, fields)?,
            options: options(alloc, fields)?,
        })
    }
}

fn status_names(alloc: Global, statuses: &[Status]) -> Result<IndexedNames, Memory>
    ensures { IfOk result (λ names. names ≡ map (λ s. s.name) statuses.now) }
{
    IndexedNames::of(alloc, name_lists::status_names(alloc, statuses)?)
}

fn group_names(alloc: Global, groups: &[Group]) -> Result<IndexedNames, Memory>
    ensures { IfOk result (λ names. names ≡ map (λ g. g.name) groups.now) }
{
    IndexedNames::of(alloc, name_lists::group_names(alloc, groups)?)
}

fn project_keys(alloc: Global, projects: &[Project]) -> Result<IndexedNames, Memory>
    ensures { IfOk result (λ keys. keys ≡ map (λ p. p.key) projects.now) }
{
    IndexedNames::of(alloc, name_lists::project_keys(alloc, projects)?)
}

fn transition_names(alloc: Global, transitions: &[Transition]) -> Result<IndexedNames, Memory>
    ensures { IfOk result (λ names. names ≡ map (λ t. t.name) transitions.now) }
{
    IndexedNames::of(alloc, name_lists::transition_names(alloc, transitions)?)
}

fn field_names(alloc: Global, fields: &[Field]) -> Result<IndexedNames, Memory>
    ensures { IfOk result (λ names. names ≡ map (λ f. f.name) fields.now) }
{
    IndexedNames::of(alloc, names_of_fields(alloc, fields)?)
}

fn names_of_fields(alloc: Global, fields: &[Field]) -> Result<Names, Memory>
    ensures { IfOk result (λ names. names ≡ map (λ f. f.name) fields.now) }
{
    let mut names = Names::new(alloc);
    for field in fields {
        names.push(field.name.copy(alloc)?)?;
    }
    Ok(names)
}

// The options of each field.
fn options(alloc: Global, fields: &[Field]) -> Result<Sequence<IndexedNames>, Memory>
    ensures { IfOk result (λ options. options ≡ map (λ f. f.options) fields.now) }
{
    let mut options = Sequence::new(alloc);
    for field in fields {
        options.push(options_of(alloc, field)?)?;
    }
    Ok(options)
}

fn options_of(alloc: Global, field: &Field) -> Result<IndexedNames, Memory>
    ensures { IfOk result (λ names. names ≡ field.now.options) }
{
    IndexedNames::of(alloc, field.options.copy(alloc)?)
}

ghost use Rattle.std.specs.Prelude.{◌≡◌, [], ◌∷◌, length, map, IfOk, OnOk, codes};
ghost use Rattle.toml.specs.Data.{get_member};
ghost use Rattle.toml.specs.View.{table_view};
ghost use Rattle.setup_drafts.specs.Cells.{cell_names};
ghost use Rattle.setup_drafts.specs.Faults.{Answers, Tells, first_of};
ghost use Rattle.setup_drafts.specs.Entries.{entries_fault, with_name};
ghost use Rattle.setup_drafts.specs.Projects.{groups_fault, project_fault, project_draft};

use crate::cell::{names_at, new_name_at, put_copy, text_at};
use crate::fault::SetupFault;
use field_forms::name_form::NameForm;
use field_values::names::Names;
use field_values::sequence::Sequence;
use field_values::text::Text;
use std::alloc::Global;
use toml::Table;

/// A project with the names of its lead and of the groups of each permission as they are written.
pub struct ProjectDraft {
    pub key: Text,
    pub lead: Text,
    pub browse: Names,
    pub create: Names,
    pub edit: Names,
    pub transition: Names,
    pub rank: Names,
}

// Written by hand, so that whoever lets one go makes one call, and its proof takes one step there.
impl Drop for ProjectDraft {
    fn drop(self) {
        let ProjectDraft {
            key: _,
            lead: _,
            browse: _,
            create: _,
            edit: _,
            transition: _,
            rank: _,
        } = self;
    }
}

/// Reads into the draft which groups have each permission.
fn read_permissions(
    alloc: Global,
    entry: &Table,
    project: &mut ProjectDraft,
) -> Result<(), SetupFault>
    ensures told { let e = table_view entry.now in
        Tells (first_of (groups_fault (codes "browse") e
        ∷ groups_fault (codes "create") e
        ∷ groups_fault (codes "edit") e
        ∷ groups_fault (codes "transition") e
        ∷ groups_fault (codes "rank") e
        ∷ [])) result }
    ensures read { let e = table_view entry.now in
        OnOk result (project.new ≡ record project.old {
          browse = cell_names (get_member (codes "browse") e);
          create = cell_names (get_member (codes "create") e);
          edit = cell_names (get_member (codes "edit") e);
          transition = cell_names (get_member (codes "transition") e);
          rank = cell_names (get_member (codes "rank") e);
        }) }
{
    project.browse = names_at(alloc, entry, "browse", NameForm::AnyText, 0, None)?;
    project.create = names_at(alloc, entry, "create", NameForm::AnyText, 0, None)?;
    project.edit = names_at(alloc, entry, "edit", NameForm::AnyText, 0, None)?;
    project.transition = names_at(alloc, entry, "transition", NameForm::AnyText, 0, None)?;
    project.rank = names_at(alloc, entry, "rank", NameForm::AnyText, 0, None)?;
    Ok(())
}

#[tactic(auto, unfolding(crate::specs::Projects::project_fault, crate::specs::Projects::project_draft))]
fn read_project(alloc: Global, entry: &Table, earlier: &[Text]) -> Result<ProjectDraft, SetupFault>
    ensures { Answers (project_fault earlier.now (table_view entry.now))
        (project_draft (table_view entry.now)) result }
{
    let key = new_name_at(alloc, entry, "key", NameForm::ProjectKey, earlier)?;
    let lead = text_at(alloc, entry, "lead")?;
    let mut project = ProjectDraft {
        key,
        lead,
        browse: Names::new(alloc),
        create: Names::new(alloc),
        edit: Names::new(alloc),
        transition: Names::new(alloc),
        rank: Names::new(alloc),
    };
    read_permissions(alloc, entry, &mut project)?;
    Ok(project)
}

/// The projects of these tables.
pub(crate) fn read_projects(
    alloc: Global,
    entries: &[&Table],
) -> Result<Sequence<ProjectDraft>, SetupFault>
    ensures told { let tables = map (λ t. table_view t.now) entries.now in
        Answers (entries_fault project_fault (with_name (λ e. (project_draft e).key)) [] tables)
        (map project_draft tables) result }
    ensures all { IfOk result (λ projects. length projects ≡ length entries.now) }
{
    let mut names = Names::new(alloc);
    let mut projects = Sequence::new(alloc);
    for entry in entries {
        let project = read_project(alloc, entry, names.as_slice())?;
        put_copy(alloc, &mut names, &project.key)?;
        projects.push(project)?;
    }
    Ok(projects)
}

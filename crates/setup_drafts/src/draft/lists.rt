ghost use Rattle.std.specs.Prelude.{◌≡◌, IfOk};
ghost use Rattle.toml.specs.View.{table_view};
ghost use Rattle.setup_drafts.specs.Faults.{Answers};
ghost use Rattle.setup_drafts.specs.Drafts.{lists_fault, lists_of, AreFewNames};

use crate::cell::{names_at, optional_names_at};
use crate::fault::SetupFault;
use field_forms::name_form::NameForm;
use field_values::names::Names;
use std::alloc::Global;
use toml::Table;

/// The lists of names that the setup begins with.
pub struct Lists {
    pub users: Names,
    pub types: Names,
    pub priorities: Names,
    pub resolutions: Names,
    pub versions: Names,
}

// Written by hand, so that whoever lets one go makes one call, and its proof takes one step there.
impl Drop for Lists {
    fn drop(self) {
        let Lists {
            users: _,
            types: _,
            priorities: _,
            resolutions: _,
            versions: _,
        } = self;
    }
}

impl Lists {
    /// The users, types, priorities, resolutions and versions.
    pub fn into_names(self) -> (Names, Names, Names, Names, Names)
        ensures { result
            ≡ (self.users, self.types, self.priorities, self.resolutions, self.versions) }
    {
        let Lists {
            users,
            types,
            priorities,
            resolutions,
            versions,
        } = self;
        (users, types, priorities, resolutions, versions)
    }
}

/// The lists of names of the top table, or the first fault among them.
#[tactic(auto, unfolding(crate::specs::Drafts::lists_fault, crate::specs::Drafts::lists_of))]
pub fn read_lists(alloc: Global, table: &Table) -> Result<Lists, SetupFault>
    ensures told { Answers (lists_fault (table_view table.now))
        (lists_of (table_view table.now)) result }
    ensures few { IfOk result AreFewNames }
{
    let users = names_at(alloc, table, "users", NameForm::User, 1, Some(200))?;
    let types = names_at(alloc, table, "types", NameForm::Plain, 1, Some(30))?;
    let priorities = names_at(alloc, table, "priorities", NameForm::Plain, 1, Some(20))?;
    let resolutions = names_at(
        alloc,
        table,
        "resolutions",
        NameForm::Resolution,
        1,
        Some(50),
    )?;
    let versions = optional_names_at(alloc, table, "versions", NameForm::Plain, 0, Some(500))?;
    Ok(Lists {
        users,
        types,
        priorities,
        resolutions,
        versions,
    })
}

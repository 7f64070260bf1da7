ghost use Rattle.std.specs.Prelude.{◌≡◌, [], length, map, IfOk};
ghost use Rattle.toml.specs.View.{table_view};
ghost use Rattle.setup_drafts.specs.Faults.{Answers};
ghost use Rattle.setup_drafts.specs.Entries.{entries_fault, with_name};
ghost use Rattle.setup_drafts.specs.Groups.{group_fault, group_draft};
ghost use Rattle.setup_drafts.specs.declared.draft.group.GroupDraft.{GroupDraft};

use crate::cell::{names_at, new_name_at, put_copy};
use crate::fault::SetupFault;
use field_forms::name_form::NameForm;
use field_values::names::Names;
use field_values::sequence::Sequence;
use field_values::text::Text;
use std::alloc::Global;
use toml::Table;

/// A group with the names of its members as they are written.
pub struct GroupDraft {
    pub name: Text,
    pub members: Names,
}

// Written by hand, so that whoever lets one go makes one call, and its proof takes one step there.
impl Drop for GroupDraft {
    fn drop(self) {
        let GroupDraft {
            name: _,
            members: _,
        } = self;
    }
}

#[tactic(auto, unfolding(crate::specs::Groups::group_fault, crate::specs::Groups::group_draft))]
fn read_group(alloc: Global, entry: &Table, earlier: &[Text]) -> Result<GroupDraft, SetupFault>
    ensures { Answers (group_fault earlier.now (table_view entry.now))
        (group_draft (table_view entry.now)) result }
{
    let name = new_name_at(alloc, entry, "name", NameForm::Plain, earlier)?;
    let members = names_at(alloc, entry, "members", NameForm::AnyText, 0, None)?;
    Ok(GroupDraft { name, members })
}

/// The groups of these tables.
pub(crate) fn read_groups(
    alloc: Global,
    entries: &[&Table],
) -> Result<Sequence<GroupDraft>, SetupFault>
    ensures told { let tables = map (λ t. table_view t.now) entries.now in
        Answers (entries_fault group_fault (with_name (λ e. (group_draft e).name)) [] tables)
        (map group_draft tables) result }
    ensures all { IfOk result (λ groups. length groups ≡ length entries.now) }
{
    let mut names = Names::new(alloc);
    let mut groups = Sequence::new(alloc);
    for entry in entries {
        let group = read_group(alloc, entry, names.as_slice())?;
        put_copy(alloc, &mut names, &group.name)?;
        groups.push(group)?;
    }
    Ok(groups)
}

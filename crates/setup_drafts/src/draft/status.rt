ghost use Rattle.std.specs.Prelude.{◌≡◌, [], length, map, IfOk};
ghost use Rattle.toml.specs.Data.{get_member};
ghost use Rattle.toml.specs.View.{table_view};
ghost use Rattle.setup_drafts.specs.Faults.{Answers};
ghost use Rattle.setup_drafts.specs.Cells.{word_fault, word_in};
ghost use Rattle.setup_drafts.specs.Entries.{entries_fault, with_name};
ghost use Rattle.field_values.specs.Words.{category_of};
ghost use Rattle.setup_drafts.specs.Statuses.{status_fault, status_of};

use crate::cell::{new_name_at, put_copy, value_at};
use crate::fault::SetupFault;
use field_forms::name_form::NameForm;
use field_values::names::Names;
use field_values::sequence::Sequence;
use field_values::status::Status;
use field_values::text::Text;
use field_values::words::{Category, category_of};
use std::alloc::Global;
use toml::Table;

fn category_at(alloc: Global, table: &Table, key: &str) -> Result<Category, SetupFault>
    ensures { Answers (word_fault category_of key.now (get_member key.now (table_view table.now)))
        (word_in category_of Category.ToDo (get_member key.now (table_view table.now))) result }
{
    match value_at(table, key) {
        None => Err(SetupFault::missing(alloc, key)),
        Some(value) => match value.as_str() {
            Some(word) => match category_of(word) {
                Some(category) => Ok(category),
                None => Err(SetupFault::bad_value(alloc, key)),
            },
            None => Err(SetupFault::bad_value(alloc, key)),
        },
    }
}

#[tactic(auto, unfolding(crate::specs::Statuses::status_fault, crate::specs::Statuses::status_of))]
fn read_status(alloc: Global, entry: &Table, earlier: &[Text]) -> Result<Status, SetupFault>
    ensures { Answers (status_fault earlier.now (table_view entry.now))
        (status_of (table_view entry.now)) result }
{
    let name = new_name_at(alloc, entry, "name", NameForm::Plain, earlier)?;
    let category = category_at(alloc, entry, "category")?;
    Ok(Status { name, category })
}

/// The statuses of these tables.
pub(crate) fn read_statuses(
    alloc: Global,
    entries: &[&Table],
) -> Result<Sequence<Status>, SetupFault>
    ensures told { let tables = map (λ t. table_view t.now) entries.now in
        Answers (entries_fault status_fault (with_name (λ e. (status_of e).name)) [] tables)
        (map status_of tables) result }
    ensures all { IfOk result (λ statuses. length statuses ≡ length entries.now) }
{
    let mut names = Names::new(alloc);
    let mut statuses = Sequence::new(alloc);
    for entry in entries {
        let status = read_status(alloc, entry, names.as_slice())?;
        put_copy(alloc, &mut names, &status.name)?;
        statuses.push(status)?;
    }
    Ok(statuses)
}

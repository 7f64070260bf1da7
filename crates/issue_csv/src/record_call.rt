// The call that a record asks for.
ghost use Rattle.std.specs.Prelude.{◌≡◌, ◌++◌, IfOk, OnOk};
ghost use Rattle.csv.specs.Records.{fields_of};
ghost use Rattle.issue_csv.specs.Reading.{call_of, external_of, given_by, given_text};

use crate::columns::column;
use csv::StringRecord;
use field_values::{Memory, Text};
use std::alloc::Global;
use tracker_calls::{Call, Given, GivenField, GivenFields, ToldText};

/// A new issue, as the record has it.
#[tactic(auto, unfolding(crate::specs::Reading::call_of))]
pub fn call_of(alloc: Global, row: &StringRecord) -> Result<Call, Memory>
    ensures { IfOk result (λ call. call ≡ call_of (fields_of row.now)) }
{
    let project = ToldText::copy_of(alloc, column(row, 1))?;
    let issue_type = ToldText::copy_of(alloc, column(row, 2))?;
    let summary = Text::copy_of(alloc, column(row, 3))?;
    let set = given_by(alloc, row)?;
    let external = external_of(alloc, column(row, 0))?;
    Ok(Call::Create {
        project,
        issue_type,
        summary,
        set,
        external,
    })
}

fn external_of(alloc: Global, text: &str) -> Result<Option<Text>, Memory>
    ensures { IfOk result (λ external. external ≡ external_of text.now) }
{
    if text.is_empty() {
        return Ok(None);
    }
    Ok(Some(Text::copy_of(alloc, text)?))
}

fn given_by(alloc: Global, row: &StringRecord) -> Result<GivenFields, Memory>
    ensures { IfOk result (λ set. set ≡ given_by (fields_of row.now)) }
{
    let mut set = GivenFields::new(alloc);
    put_given(alloc, "assignee", column(row, 4), &mut set)?;
    put_given(alloc, "due", column(row, 8), &mut set)?;
    put_given(alloc, "points", column(row, 7), &mut set)?;
    put_given(alloc, "priority", column(row, 6), &mut set)?;
    put_given(alloc, "reporter", column(row, 5), &mut set)?;
    Ok(set)
}

// Puts the text for the field of that name behind the others, unless it is empty.
fn put_given(alloc: Global, name: &str, text: &str, set: &mut GivenFields) -> Result<(), Memory>
    ensures { OnOk result (set.new ≡ set.old ++ given_text name.now text.now) }
{
    if text.is_empty() {
        return Ok(());
    }
    let name = ToldText::copy_of(alloc, name)?;
    let given = Given::Text(ToldText::copy_of(alloc, text)?);
    set.push(GivenField { name, given })
}

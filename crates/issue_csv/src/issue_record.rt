// The records of an export.
ghost use Rattle.std.specs.Prelude.{◌≡◌, ◌++◌, ◌∷◌, [], map, option_map, IfOk, OnErr, OnOk};
ghost use Rattle.fields.specs.SetupParts.{names};
ghost use Rattle.issue_csv.specs.Writing.{HoldsFitting, column_of, columns_of, export_header};
ghost use Rattle.issue_csv.specs.Writing.{exported_fields, header_text, issue_text};

use crate::record_text::write_record;
use crate::told::column_text;
use change_history::{Issue, project_of};
use fields::{FieldNo, Memory, Names, Setup, Text};
use std::alloc::Global;

fn header() -> &'static [&'static str]
    ensures { map (λ name. name.now) result.now ≡ export_header }
{
    &[
        "key",
        "external",
        "project",
        "type",
        "summary",
        "status",
        "assignee",
        "reporter",
        "priority",
        "resolution",
        "points",
        "due",
    ]
}

fn copies(alloc: Global, names: &[&str]) -> Result<Names, Memory>
    ensures { IfOk result (λ copies. copies ≡ map (λ name. name.now) names.now) }
{
    let mut copies = Names::new(alloc);
    for name in names {
        copies.push(Text::copy_of(alloc, name)?)?;
    }
    Ok(copies)
}

/// Writes the header of an export behind what stands there, or leaves all as it is.
pub fn write_header(alloc: Global, out: &mut Vec<u8>) -> Result<(), Memory>
    ensures ok { OnOk result (out.new.items ≡ out.old.items ++ header_text) }
    ensures err { OnErr result (out.new.items ≡ out.old.items) }
{
    let names = copies(alloc, header())?;
    write_record(alloc, names.as_slice(), out)
}

/// Writes the record of an issue behind what stands there, or leaves all as it is. The issue may have no external id.
pub fn write_issue(
    alloc: Global,
    setup: &Setup,
    issue: &Issue,
    external: Option<&str>,
    out: &mut Vec<u8>,
) -> Result<(), Memory>
    requires { HoldsFitting (names setup.now) issue.now.history }
    ensures ok { OnOk result (out.new.items ≡ out.old.items
        ++ issue_text (names setup.now) issue.now.history
        (option_map (λ id. id.now) external.entry)) }
    ensures err { OnErr result (out.new.items ≡ out.old.items) }
{
    let columns = columns_of(alloc, setup, issue, external.unwrap_or(""))?;
    write_record(alloc, columns.as_slice(), out)
}

fn columns_of(alloc: Global, setup: &Setup, issue: &Issue, external: &str) -> Result<Names, Memory>
    requires { HoldsFitting (names setup.now) issue.now.history }
    ensures { IfOk result (λ columns. columns
        ≡ columns_of (names setup.now) issue.now.history external.now) }
{
    let mut columns = Names::new(alloc);
    put_text(alloc, issue.key().as_str(), &mut columns)?;
    put_text(alloc, external, &mut columns)?;
    put_text(alloc, project_of(issue.key().as_str()), &mut columns)?;
    put_fields(alloc, setup, issue, exported_fields(), &mut columns)?;
    Ok(columns)
}

fn exported_fields() -> &'static [FieldNo]
    ensures { result.now ≡ exported_fields }
{
    &[
        FieldNo::TYPE,
        FieldNo::SUMMARY,
        FieldNo::STATUS,
        FieldNo::ASSIGNEE,
        FieldNo::REPORTER,
        FieldNo::PRIORITY,
        FieldNo::RESOLUTION,
        FieldNo::POINTS,
        FieldNo::DUE,
    ]
}

fn put_text(alloc: Global, text: &str, columns: &mut Names) -> Result<(), Memory>
    ensures { OnOk result (columns.new ≡ columns.old ++ text.now ∷ []) }
{
    columns.push(Text::copy_of(alloc, text)?)
}

// Puts what the fields hold behind the others.
fn put_fields(
    alloc: Global,
    setup: &Setup,
    issue: &Issue,
    fields: &[FieldNo],
    columns: &mut Names,
) -> Result<(), Memory>
    requires { HoldsFitting (names setup.now) issue.now.history }
    ensures { OnOk result (columns.new
        ≡ columns.old ++ map (column_of (names setup.now) issue.now.history) fields.now) }
{
    for field in fields {
        columns.push(column_text(alloc, setup, *field, issue.value(*field))?)?;
    }
    Ok(())
}

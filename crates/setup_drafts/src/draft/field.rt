ghost use Rattle.std.specs.Prelude.{◌≡◌, ◌==◌, ◌≤◌, [], true, length, map, IfOk};
ghost use Rattle.std.specs.List.{list_any, list_all};
ghost use Rattle.toml.specs.Data.{get_member};
ghost use Rattle.toml.specs.View.{table_view};
ghost use Rattle.setup_drafts.specs.Faults.{Answers};
ghost use Rattle.setup_drafts.specs.Cells.{word_fault, word_in};
ghost use Rattle.setup_drafts.specs.Entries.{entries_fault};
ghost use Rattle.field_values.specs.Words.{field_kind_of};
ghost use Rattle.setup_drafts.specs.Fields.{number_fault, number_in, options_fault, options_in};
ghost use Rattle.setup_drafts.specs.Fields.{field_fault, field_of, with_field};
ghost use Rattle.field_forms.specs.Known.{has_few_options};

use crate::cell::{names_at, new_name_at, put_copy, value_at, whole_at};
use crate::fault::SetupFault;
use field_forms::name_form::NameForm;
use field_values::field::Field;
use field_values::names::Names;
use field_values::numbers::FieldNo;
use field_values::sequence::Sequence;
use field_values::text::Text;
use field_values::words::{FieldKind, field_kind_of};
use std::alloc::Global;
use toml::Table;

fn has_number(fields: &[Field], number: u16) -> bool
    ensures { result ≡ list_any (λ f. f.number.0 == number) fields.now }
{
    fields.iter().any(|field| field.number.0 == number)
}

fn number_at(
    alloc: Global,
    table: &Table,
    key: &str,
    earlier: &[Field],
) -> Result<FieldNo, SetupFault>
    ensures { Answers (number_fault key.now earlier.now (get_member key.now (table_view table.now)))
        (record { 0 = number_in (get_member key.now (table_view table.now)) }) result }
{
    let number = whole_at(alloc, table, key, 10_000, 19_999)? as u16;
    if has_number(earlier, number) {
        return Err(match format!(in alloc; "{number}") {
            Ok(digits) => SetupFault::Duplicate(Text::of(digits)),
            Err(_) => SetupFault::Memory,
        });
    }
    Ok(FieldNo(number))
}

fn kind_at(alloc: Global, table: &Table, key: &str) -> Result<FieldKind, SetupFault>
    ensures { Answers (word_fault field_kind_of key.now (get_member key.now (table_view table.now)))
        (word_in field_kind_of FieldKind.Text (get_member key.now (table_view table.now))) result }
{
    match value_at(table, key) {
        None => Err(SetupFault::missing(alloc, key)),
        Some(value) => match value.as_str() {
            Some(word) => match field_kind_of(word) {
                Some(kind) => Ok(kind),
                None => Err(SetupFault::bad_value(alloc, key)),
            },
            None => Err(SetupFault::bad_value(alloc, key)),
        },
    }
}

fn options_at(alloc: Global, table: &Table, key: &str, kind: FieldKind) -> Result<Names, SetupFault>
    ensures told { Answers (options_fault key.now kind (get_member key.now (table_view table.now)))
        (options_in kind (get_member key.now (table_view table.now))) result }
    ensures few { IfOk result (λ options. length options ≤ 200) }
{
    match kind {
        FieldKind::Choice => names_at(alloc, table, key, NameForm::Plain, 1, Some(200)),
        FieldKind::Text | FieldKind::Number | FieldKind::User | FieldKind::Date => {
            if value_at(table, key).is_some() {
                return Err(SetupFault::bad_value(alloc, key));
            }
            Ok(Names::new(alloc))
        }
    }
}

#[tactic(auto, unfolding(crate::specs::Fields::field_fault, crate::specs::Fields::field_of))]
fn read_field(
    alloc: Global,
    entry: &Table,
    earlier: &[Field],
    names: &[Text],
) -> Result<Field, SetupFault>
    requires { names.now ≡ map (λ f. f.name) earlier.now }
    ensures told { Answers (field_fault earlier.now (table_view entry.now))
        (field_of (table_view entry.now)) result }
    ensures few { IfOk result (λ f. length f.options ≤ 200) }
{
    let number = number_at(alloc, entry, "number", earlier)?;
    let name = new_name_at(alloc, entry, "name", NameForm::OwnField, names)?;
    let kind = kind_at(alloc, entry, "kind")?;
    let options = options_at(alloc, entry, "options", kind)?;
    Ok(Field {
        number,
        name,
        kind,
        options,
    })
}

/// The fields of these tables.
pub(crate) fn read_fields(alloc: Global, entries: &[&Table]) -> Result<Sequence<Field>, SetupFault>
    ensures told { let tables = map (λ t. table_view t.now) entries.now in
        Answers (entries_fault field_fault with_field [] tables) (map field_of tables) result }
    ensures all { IfOk result (λ fields. length fields ≡ length entries.now) }
    ensures few { IfOk result (λ fields. list_all has_few_options fields ≡ true) }
{
    let mut names = Names::new(alloc);
    let mut fields = Sequence::new(alloc);
    for entry in entries {
        let field = read_field(alloc, entry, fields.as_slice(), names.as_slice())?;
        put_copy(alloc, &mut names, &field.name)?;
        fields.push(field)?;
    }
    Ok(fields)
}

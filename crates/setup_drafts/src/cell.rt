// What a table of the setup has at a key, and the first fault there.
ghost use Rattle.std.specs.Prelude.{◌≡◌, ◌≤ℤ◌, ◌≤◌, ◌<◌, [], length, map, option_map, IfOk, OnOk};
ghost use Rattle.std.specs.Prelude.{◌∷◌, ◌++◌};
ghost use Rattle.toml.specs.Data.{get_member};
ghost use Rattle.toml.specs.View.{view, table_view};
ghost use Rattle.setup_drafts.specs.Faults.{Answers, AnswersBy, FaultOf};
ghost use Rattle.setup_drafts.specs.Written.{texts_of, tables_of, has_fewer_than};
ghost use Rattle.setup_drafts.specs.Cells.{IsWithin, whole_fault, whole_in, text_fault, text_in};
ghost use Rattle.setup_drafts.specs.Cells.{new_name_fault, list_fault, names_fault};
ghost use Rattle.setup_drafts.specs.Cells.{optional_names_fault, cell_names, rules_fault};
ghost use Rattle.setup_drafts.specs.Cells.{tables_fault, tables_in, count_fault};

use crate::fault::SetupFault;
use field_forms::name_form::{NameForm, all_have_form, has_form, is_among};
use field_values::memory::Memory;
use field_values::names::Names;
use field_values::text::Text;
use name_index::first_double;
use std::alloc::Global;
use toml::{Table, Value};

/// The value at a key.
pub(crate) fn value_at<'a>(table: &'a Table, key: &str) -> Option<&'a Value>
    ensures { option_map (λ v. view v.now) result ≡ get_member key.now (table_view table.now) }
{
    table.get(key)
}

/// The whole number at a key, from the least to the most.
pub(crate) fn whole_at(
    alloc: Global,
    table: &Table,
    key: &str,
    least: i64,
    most: i64,
) -> Result<i64, SetupFault>
    ensures told { Answers (whole_fault key.now least most
        (get_member key.now (table_view table.now)))
        (whole_in (get_member key.now (table_view table.now))) result }
    ensures within { IfOk result (λ z. (least ≤ℤ z) × (z ≤ℤ most)) }
{
    match value_at(table, key) {
        None => Err(SetupFault::missing(alloc, key)),
        Some(value) => match value.as_integer() {
            Some(number) if least <= number && number <= most => Ok(number),
            _ => Err(SetupFault::bad_value(alloc, key)),
        },
    }
}

/// The text at a key.
pub(crate) fn text_at(alloc: Global, table: &Table, key: &str) -> Result<Text, SetupFault>
    ensures { Answers (text_fault key.now (get_member key.now (table_view table.now)))
        (text_in (get_member key.now (table_view table.now))) result }
{
    match value_at(table, key) {
        None => Err(SetupFault::missing(alloc, key)),
        Some(value) => match value.as_str() {
            Some(text) => Ok(Text::copy_of(alloc, text)?),
            None => Err(SetupFault::bad_value(alloc, key)),
        },
    }
}

/// The name at a key, which is of that form and no earlier entry's.
pub(crate) fn new_name_at(
    alloc: Global,
    table: &Table,
    key: &str,
    form: NameForm,
    earlier: &[Text],
) -> Result<Text, SetupFault>
    ensures { Answers
        (new_name_fault key.now form earlier.now (get_member key.now (table_view table.now)))
        (text_in (get_member key.now (table_view table.now))) result }
{
    match value_at(table, key) {
        None => Err(SetupFault::missing(alloc, key)),
        Some(value) => match value.as_str() {
            Some(name) if has_form(form, name) => {
                if is_among(earlier, name) {
                    return Err(SetupFault::duplicate(alloc, name));
                }
                Ok(Text::copy_of(alloc, name)?)
            }
            _ => Err(SetupFault::bad_value(alloc, key)),
        },
    }
}

/// The texts of an array of texts.
fn texts_in(alloc: Global, value: &Value) -> Result<Option<Names>, Memory>
    ensures { IfOk result (λ texts. texts ≡ texts_of (view value.now)) }
{
    let Some(items) = value.as_array() else {
        return Ok(None);
    };
    let mut texts = Names::new(alloc);
    for item in items {
        let Some(text) = item.as_str() else {
            return Ok(None);
        };
        texts.push(Text::copy_of(alloc, text)?)?;
    }
    Ok(Some(texts))
}

/// Puts a copy of the name behind the names.
pub(crate) fn put_copy(alloc: Global, names: &mut Names, name: &Text) -> Result<(), Memory>
    ensures { OnOk result (names.new ≡ names.old ++ name.now ∷ []) }
{
    names.push(name.copy(alloc)?)
}

/// Whether the value is an array of fewer than so many.
#[tactic(auto, using(crate::proofs::Counts::count_items))]
fn has_fewer_than(least: usize, value: &Value) -> bool
    ensures { result ≡ has_fewer_than least (view value.now) }
{
    match value.as_array() {
        Some(items) => items.len() < least,
        None => false,
    }
}

/// The fault that there are more than so many, if there is a most.
fn count_fault_of(alloc: Global, key: &str, most: Option<usize>, count: usize) -> Option<SetupFault>
    ensures { FaultOf (count_fault key.now most count) result }
{
    match most {
        Some(most) if most < count => Some(SetupFault::too_many(alloc, key, most)),
        _ => None,
    }
}

/// The names of an array of names, each of which stands once.
fn cell_names(
    alloc: Global,
    value: &Value,
    key: &str,
    form: NameForm,
    least: usize,
    most: Option<usize>,
) -> Result<Names, SetupFault>
    ensures told { Answers (list_fault key.now form least most (view value.now))
        (cell_names (Some (view value.now))) result }
    ensures few { IfOk result (λ names. IsWithin most (length names)) }
{
    if has_fewer_than(least, value) {
        return Err(SetupFault::missing(alloc, key));
    }
    let Some(names) = texts_in(alloc, value)? else {
        return Err(SetupFault::bad_value(alloc, key));
    };
    if !all_have_form(form, names.as_slice()) {
        return Err(SetupFault::bad_value(alloc, key));
    }
    if let Some(fault) = count_fault_of(alloc, key, most, names.as_slice().len()) {
        return Err(fault);
    }
    if let Some(double) = first_double(alloc, names.as_slice())? {
        return Err(SetupFault::duplicate(alloc, double.as_str()));
    }
    Ok(names)
}

/// The names at a key that must be there.
pub(crate) fn names_at(
    alloc: Global,
    table: &Table,
    key: &str,
    form: NameForm,
    least: usize,
    most: Option<usize>,
) -> Result<Names, SetupFault>
    ensures told { Answers
        (names_fault key.now form least most (get_member key.now (table_view table.now)))
        (cell_names (get_member key.now (table_view table.now))) result }
    ensures few { IfOk result (λ names. IsWithin most (length names)) }
{
    match value_at(table, key) {
        None => Err(SetupFault::missing(alloc, key)),
        Some(value) => cell_names(alloc, value, key, form, least, most),
    }
}

/// The names at a key that may be absent, which stands for none.
pub(crate) fn optional_names_at(
    alloc: Global,
    table: &Table,
    key: &str,
    form: NameForm,
    least: usize,
    most: Option<usize>,
) -> Result<Names, SetupFault>
    ensures told { Answers
        (optional_names_fault key.now form least most (get_member key.now (table_view table.now)))
        (cell_names (get_member key.now (table_view table.now))) result }
    ensures few { IfOk result (λ names. IsWithin most (length names)) }
{
    match value_at(table, key) {
        None => Ok(Names::new(alloc)),
        Some(value) => cell_names(alloc, value, key, form, least, most),
    }
}

/// The texts at a key that may be absent: at most twenty.
pub(crate) fn rules_at(alloc: Global, table: &Table, key: &str) -> Result<Names, SetupFault>
    ensures { Answers (rules_fault key.now (get_member key.now (table_view table.now)))
        (cell_names (get_member key.now (table_view table.now))) result }
{
    let Some(value) = value_at(table, key) else {
        return Ok(Names::new(alloc));
    };
    let Some(texts) = texts_in(alloc, value)? else {
        return Err(SetupFault::bad_value(alloc, key));
    };
    if let Some(fault) = count_fault_of(alloc, key, Some(20), texts.as_slice().len()) {
        return Err(fault);
    }
    Ok(texts)
}

/// The tables of an array of tables, lent.
fn tables_in<'a>(alloc: Global, value: &'a Value) -> Result<Option<Vec<&'a Table>>, Memory>
    ensures { IfOk result (λ tables. option_map (λ v. map (λ t. table_view t.now) v.items) tables
        ≡ tables_of (view value.now)) }
{
    let Some(items) = value.as_array() else {
        return Ok(None);
    };
    let mut tables = Vec::new(alloc);
    for item in items {
        let Some(table) = item.as_table() else {
            return Ok(None);
        };
        tables.push(table)?;
    }
    Ok(Some(tables))
}

/// The tables at a key, which may be absent where none need be there.
pub(crate) fn tables_at<'a>(
    alloc: Global,
    table: &'a Table,
    key: &str,
    least: usize,
    most: usize,
) -> Result<Vec<&'a Table>, SetupFault>
    ensures told { AnswersBy (λ v. map (λ t. table_view t.now) v.items)
        (tables_fault key.now least most (get_member key.now (table_view table.now)))
        (tables_in (get_member key.now (table_view table.now))) result }
    ensures few { IfOk result (λ v. length v.items ≤ most) }
{
    let Some(value) = value_at(table, key) else {
        if 0 < least {
            return Err(SetupFault::missing(alloc, key));
        }
        return Ok(Vec::new(alloc));
    };
    if has_fewer_than(least, value) {
        return Err(SetupFault::missing(alloc, key));
    }
    let Some(tables) = tables_in(alloc, value)? else {
        return Err(SetupFault::bad_value(alloc, key));
    };
    if most < tables.len() {
        return Err(SetupFault::too_many(alloc, key, most));
    }
    Ok(tables)
}

/// The tables at a key, or none where no list of tables stands there.
pub(crate) fn entries_at<'a>(
    alloc: Global,
    table: &'a Table,
    key: &str,
) -> Result<Vec<&'a Table>, Memory>
    ensures { IfOk result (λ v. map (λ t. table_view t.now) v.items
        ≡ tables_in (get_member key.now (table_view table.now))) }
{
    let Some(value) = value_at(table, key) else {
        return Ok(Vec::new(alloc));
    };
    match tables_in(alloc, value)? {
        Some(tables) => Ok(tables),
        None => Ok(Vec::new(alloc)),
    }
}

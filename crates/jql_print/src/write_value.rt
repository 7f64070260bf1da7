// Fields, calls, values, items and lists.
ghost use Rattle.std.specs.Prelude.{◌≡◌, ◌∷◌, OnOk};
ghost use Rattle.jql_print.specs.Print.{field_text, argument_text, call_text, value_text, item_text, each, keyed, separated, listed, members_text, choice_text};
ghost use Rattle.jql_print.specs.Spelling.{Writes};
ghost use Rattle.jql_syntax.specs.declared.token.Mark.TheVariants.{Comma};

use crate::line::{Line, put, put_field_name, put_field_number, put_name, put_quoted};
use field_values::{Memory, Text};
use jql_syntax::{Call, Choice, Field, Item, Mark, Members, Value};
use std::alloc::Global;

/// A field.
pub(crate) fn write_field(alloc: Global, line: &mut Line, field: &Field) -> Result<(), Memory>
    ensures { OnOk result (Writes line.old line.new (field_text field.now)) }
{
    match field {
        Field::Named(name) => put_field_name(line, name),
        Field::Custom(number) => put_field_number(alloc, line, *number),
    }
}

fn write_argument(line: &mut Line, argument: &Option<Text>) -> Result<(), Memory>
    ensures { OnOk result (Writes line.old line.new (argument_text argument.now)) }
{
    match argument {
        None => Ok(()),
        Some(text) => put_quoted(line, text),
    }
}

fn write_call(line: &mut Line, call: &Call) -> Result<(), Memory>
    ensures { OnOk result (Writes line.old line.new (call_text call.now)) }
{
    put_name(line, &call.name)?;
    put(line, Mark::Open)?;
    write_argument(line, &call.argument)?;
    put(line, Mark::Close)
}

/// A text or a call.
pub(crate) fn write_value(line: &mut Line, value: &Value) -> Result<(), Memory>
    ensures { OnOk result (Writes line.old line.new (value_text value.now)) }
{
    match value {
        Value::Text(text) => put_quoted(line, text),
        Value::Call(call) => write_call(line, call),
    }
}

/// A value or EMPTY.
pub(crate) fn write_item(line: &mut Line, item: &Item) -> Result<(), Memory>
    ensures { OnOk result (Writes line.old line.new (item_text item.now)) }
{
    match item {
        Item::Value(value) => write_value(line, value),
        Item::Empty => put(line, Mark::Empty),
    }
}

// Items, each behind a comma.
fn write_more_items(line: &mut Line, items: &[Item]) -> Result<(), Memory>
    ensures { OnOk result (Writes line.old line.new (each (keyed Comma item_text) items.now)) }
{
    for item in items {
        put(line, Mark::Comma)?;
        write_item(line, item)?;
    }
    Ok(())
}

// Items with commas between them.
fn write_items(line: &mut Line, items: &[Item]) -> Result<(), Memory>
    ensures { OnOk result (Writes line.old line.new (separated item_text items.now)) }
{
    match items.split_first() {
        None => Ok(()),
        Some((first, more)) => {
            write_item(line, first)?;
            write_more_items(line, more)
        }
    }
}

// Items in parentheses.
fn write_list(line: &mut Line, items: &[Item]) -> Result<(), Memory>
    ensures { OnOk result (Writes line.old line.new (listed items.now)) }
{
    put(line, Mark::Open)?;
    write_items(line, items)?;
    put(line, Mark::Close)
}

/// What stands behind IN.
pub(crate) fn write_members(line: &mut Line, members: &Members) -> Result<(), Memory>
    ensures { OnOk result (Writes line.old line.new (members_text members.now)) }
{
    match members {
        Members::Items(items) => write_list(line, items.as_slice()),
        Members::Call(call) => write_call(line, call),
    }
}

/// What stands behind BY, FROM and TO.
pub(crate) fn write_choice(line: &mut Line, choice: &Choice) -> Result<(), Memory>
    ensures { OnOk result (Writes line.old line.new (choice_text choice.now)) }
{
    match choice {
        Choice::One(item) => write_item(line, item),
        Choice::Several(items) => write_list(line, items.as_slice()),
    }
}

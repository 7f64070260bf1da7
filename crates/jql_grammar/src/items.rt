// What a field is compared with: values, EMPTY and lists.
ghost use Rattle.std.specs.Prelude.{◌≡◌, IfOk, IfErr};
ghost use Rattle.jql_grammar.specs.Steps.{Stops};
ghost use Rattle.jql_grammar.specs.Scope.{scope_of};
ghost use Rattle.jql_grammar.specs.Items.{alone, operand_in, item_in, listed_value, listed_item, items_in, members_in, choice_of, authors_in};

use crate::calls::{any_called, list_alone, value_called};
use crate::column::ValueKind;
use crate::fault::Stop;
use crate::scope::Binder;
use crate::values::value_in;
use fields::Sequence;
use jql_bound::Operand;
use jql_syntax::{Choice, Item, Members, Value};
use std::alloc::Global;

/// One value.
pub(crate) fn operand_in(
    binder: &Binder<'_>,
    kind: ValueKind,
    value: &Value,
) -> Result<Operand, Stop>
    ensures ok { IfOk result (λ x. operand_in (scope_of binder.now) kind value.now ≡ Ok x) }
    ensures err { IfErr result (Stops (operand_in (scope_of binder.now) kind value.now)) }
{
    match value {
        Value::Text(text) => value_in(binder, kind, text.as_str()),
        Value::Call(call) => value_called(binder, kind, call),
    }
}

/// One value or EMPTY.
pub(crate) fn item_in(binder: &Binder<'_>, kind: ValueKind, item: &Item) -> Result<Operand, Stop>
    ensures ok { IfOk result (λ x. item_in (scope_of binder.now) kind item.now ≡ Ok x) }
    ensures err { IfErr result (Stops (item_in (scope_of binder.now) kind item.now)) }
{
    match item {
        Item::Empty => Ok(Operand::Empty),
        Item::Value(value) => operand_in(binder, kind, value),
    }
}

// A value of a list, or a function that stands for a list.
fn listed_value(binder: &Binder<'_>, kind: ValueKind, value: &Value) -> Result<Operand, Stop>
    ensures ok { IfOk result (λ x. listed_value (scope_of binder.now) kind value.now ≡ Ok x) }
    ensures err { IfErr result (Stops (listed_value (scope_of binder.now) kind value.now)) }
{
    match value {
        Value::Text(text) => value_in(binder, kind, text.as_str()),
        Value::Call(call) => any_called(binder, kind, call),
    }
}

// An item of a list.
fn listed_item(binder: &Binder<'_>, kind: ValueKind, item: &Item) -> Result<Operand, Stop>
    ensures ok { IfOk result (λ x. listed_item (scope_of binder.now) kind item.now ≡ Ok x) }
    ensures err { IfErr result (Stops (listed_item (scope_of binder.now) kind item.now)) }
{
    match item {
        Item::Empty => Ok(Operand::Empty),
        Item::Value(value) => listed_value(binder, kind, value),
    }
}

// The items of a list.
fn items_in(binder: &Binder<'_>, kind: ValueKind, items: &[Item]) -> Result<Sequence<Operand>, Stop>
    ensures ok { IfOk result (λ xs. items_in (scope_of binder.now) kind items.now ≡ Ok xs) }
    ensures err { IfErr result (Stops (items_in (scope_of binder.now) kind items.now)) }
{
    let mut operands = Sequence::new(binder.alloc);
    for item in items {
        operands.push(listed_item(binder, kind, item)?)?;
    }
    Ok(operands)
}

/// The list of one thing.
pub(crate) fn alone(alloc: Global, operand: Operand) -> Result<Sequence<Operand>, Stop>
    ensures ok { IfOk result (λ xs. xs ≡ alone operand) }
    ensures err { IfErr result (λ stop. stop ≡ Stop.Memory) }
{
    let mut operands = Sequence::new(alloc);
    operands.push(operand)?;
    Ok(operands)
}

/// What stands behind IN.
pub(crate) fn members_in(
    binder: &Binder<'_>,
    kind: ValueKind,
    members: &Members,
) -> Result<Sequence<Operand>, Stop>
    ensures ok { IfOk result (λ xs. members_in (scope_of binder.now) kind members.now ≡ Ok xs) }
    ensures err { IfErr result (Stops (members_in (scope_of binder.now) kind members.now)) }
{
    match members {
        Members::Items(items) => items_in(binder, kind, items.as_slice()),
        Members::Call(call) => {
            let operand = list_alone(binder, kind, call)?;
            alone(binder.alloc, operand)
        }
    }
}

/// What stands behind FROM and TO.
pub(crate) fn choice_of(
    binder: &Binder<'_>,
    kind: ValueKind,
    choice: &Choice,
) -> Result<Sequence<Operand>, Stop>
    ensures ok { IfOk result (λ xs. choice_of (scope_of binder.now) kind choice.now ≡ Ok xs) }
    ensures err { IfErr result (Stops (choice_of (scope_of binder.now) kind choice.now)) }
{
    match choice {
        Choice::One(item) => {
            let operand = item_in(binder, kind, item)?;
            alone(binder.alloc, operand)
        }
        Choice::Several(items) => items_in(binder, kind, items.as_slice()),
    }
}

/// What stands behind BY.
pub(crate) fn authors_in(binder: &Binder<'_>, choice: &Choice) -> Result<Sequence<Operand>, Stop>
    ensures ok { IfOk result (λ xs. authors_in (scope_of binder.now) choice.now ≡ Ok xs) }
    ensures err { IfErr result (Stops (authors_in (scope_of binder.now) choice.now)) }
{
    match choice {
        Choice::One(item) => {
            let operand = listed_item(binder, ValueKind::User, item)?;
            alone(binder.alloc, operand)
        }
        Choice::Several(items) => items_in(binder, ValueKind::User, items.as_slice()),
    }
}

// Tests of the present.
ghost use Rattle.std.specs.Prelude.{◌≡◌, IfOk, IfErr};
ghost use Rattle.jql_bound.specs.Condition.{view};
ghost use Rattle.jql_grammar.specs.Steps.{Stops};
ghost use Rattle.jql_grammar.specs.Scope.{scope_of};
ghost use Rattle.jql_grammar.specs.Leaves.{present, emptiness, among, containing, equal_to, equality_in, membership_in, order_in, searched, search_in, comparison_in};

use crate::column::Column;
use crate::fault::{FaultKind, Stop};
use crate::items::{alone, item_in, members_in, operand_in};
use crate::scope::Binder;
use crate::words::words_of;
use fields::Sequence;
use jql_bound::{Cond, Inequality, Leaf, Operand, Operator, Word};
use jql_syntax::{Comparison, Item, Members, Value};
use std::alloc::Global;

/// What is asked of the column now.
pub(crate) fn present(column: Column, operator: Operator) -> Cond
    ensures { view result ≡ present column operator }
{
    Cond::Now(Leaf {
        subject: column.subject,
        operator,
    })
}

// Equal to the operand, or to no operand.
fn equal_to(alloc: Global, holds: bool, operand: Operand) -> Result<Operator, Stop>
    ensures ok { IfOk result (λ x. x ≡ equal_to holds operand) }
    ensures err { IfErr result (λ stop. stop ≡ Stop.Memory) }
{
    if let Operand::Empty = &operand {
        return Ok(emptiness(holds));
    }
    let operands = alone(alloc, operand)?;
    Ok(among(holds, operands))
}

/// That the field is empty, or that it isn't.
pub(crate) fn emptiness(holds: bool) -> Operator
    ensures { result ≡ emptiness holds }
{
    if holds {
        Operator::IsEmpty
    } else {
        Operator::IsNotEmpty
    }
}

fn among(holds: bool, operands: Sequence<Operand>) -> Operator
    ensures { result ≡ among holds operands }
{
    if holds {
        Operator::In(operands)
    } else {
        Operator::NotIn(operands)
    }
}

fn containing(holds: bool, words: Sequence<Word>) -> Operator
    ensures { result ≡ containing holds words }
{
    if holds {
        Operator::Contains(words)
    } else {
        Operator::Lacks(words)
    }
}

/// `=`, or where it doesn't hold `!=`.
pub(crate) fn equality_in(
    binder: &Binder<'_>,
    column: Column,
    holds: bool,
    item: &Item,
) -> Result<Cond, Stop>
    ensures ok { IfOk result
        (λ x. equality_in (scope_of binder.now) column holds item.now ≡ Ok (view x)) }
    ensures err { IfErr result (Stops (equality_in (scope_of binder.now) column holds item.now)) }
{
    if !column.has_equality() {
        return Err(Stop::At(FaultKind::OperatorNotForField));
    }
    let operand = item_in(binder, column.kind, item)?;
    let operator = equal_to(binder.alloc, holds, operand)?;
    Ok(present(column, operator))
}

/// IN, or where it doesn't hold NOT IN.
pub(crate) fn membership_in(
    binder: &Binder<'_>,
    column: Column,
    holds: bool,
    members: &Members,
) -> Result<Cond, Stop>
    ensures ok { IfOk result
        (λ x. membership_in (scope_of binder.now) column holds members.now ≡ Ok (view x)) }
    ensures err { IfErr result
        (Stops (membership_in (scope_of binder.now) column holds members.now)) }
{
    if !column.has_equality() {
        return Err(Stop::At(FaultKind::OperatorNotForField));
    }
    let operands = members_in(binder, column.kind, members)?;
    Ok(present(column, among(holds, operands)))
}

// `<`, `<=`, `>` or `>=`.
fn order_in(
    binder: &Binder<'_>,
    column: Column,
    sign: Inequality,
    value: &Value,
) -> Result<Cond, Stop>
    ensures ok { IfOk result
        (λ x. order_in (scope_of binder.now) column sign value.now ≡ Ok (view x)) }
    ensures err { IfErr result (Stops (order_in (scope_of binder.now) column sign value.now)) }
{
    if !column.has_order() {
        return Err(Stop::At(FaultKind::OperatorNotForField));
    }
    let operand = operand_in(binder, column.kind, value)?;
    Ok(present(column, Operator::Compares(sign, operand)))
}

fn searched(alloc: Global, value: &Value) -> Result<Sequence<Word>, Stop>
    ensures ok { IfOk result (λ x. searched value.now ≡ Ok x) }
    ensures err { IfErr result (Stops (searched value.now)) }
{
    match value {
        Value::Text(text) => {
            let words = words_of(alloc, text.as_str())?;
            Ok(words)
        }
        Value::Call(_) => Err(Stop::At(FaultKind::UnknownFunction)),
    }
}

// `~`, or where it doesn't hold `!~`.
fn search_in(alloc: Global, column: Column, holds: bool, value: &Value) -> Result<Cond, Stop>
    ensures ok { IfOk result (λ x. search_in column holds value.now ≡ Ok (view x)) }
    ensures err { IfErr result (Stops (search_in column holds value.now)) }
{
    if !column.has_search() {
        return Err(Stop::At(FaultKind::OperatorNotForField));
    }
    let words = searched(alloc, value)?;
    Ok(present(column, containing(holds, words)))
}

/// A comparison by a sign that EMPTY has no place behind.
pub(crate) fn comparison_in(
    binder: &Binder<'_>,
    column: Column,
    comparison: Comparison,
    value: &Value,
) -> Result<Cond, Stop>
    ensures ok { IfOk result
        (λ x. comparison_in (scope_of binder.now) column comparison value.now ≡ Ok (view x)) }
    ensures err { IfErr result
        (Stops (comparison_in (scope_of binder.now) column comparison value.now)) }
{
    match comparison {
        Comparison::Less => order_in(binder, column, Inequality::Less, value),
        Comparison::LessOrEqual => order_in(binder, column, Inequality::LessOrEqual, value),
        Comparison::Greater => order_in(binder, column, Inequality::Greater, value),
        Comparison::GreaterOrEqual => order_in(binder, column, Inequality::GreaterOrEqual, value),
        Comparison::Contains => search_in(binder.alloc, column, true, value),
        Comparison::Lacks => search_in(binder.alloc, column, false, value),
    }
}

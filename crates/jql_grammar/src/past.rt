// Tests of the past.
ghost use Rattle.std.specs.Prelude.{◌≡◌, IfOk, IfErr};
ghost use Rattle.jql_bound.specs.Condition.{view};
ghost use Rattle.jql_grammar.specs.Steps.{Stops};
ghost use Rattle.jql_grammar.specs.Scope.{scope_of};
ghost use Rattle.jql_grammar.specs.Leaves.{past_leaf, was_values, change_sides, was_in, was_among, changed_in};

use crate::column::Column;
use crate::fault::{FaultKind, Stop};
use crate::items::{alone, item_in, members_in};
use crate::predicates::{endpoints_in, other_aspects, predicates_in};
use crate::scope::Binder;
use fields::{FieldNo, Sequence};
use jql_bound::{Cond, Endpoint, Operand, PastLeaf, PastPredicate, PastTest};
use jql_syntax::{Aspect, Item, Members, Predicate};

fn past_leaf(field: FieldNo, test: PastTest, predicates: Sequence<PastPredicate>) -> Cond
    ensures { view result ≡ past_leaf field test predicates }
{
    Cond::Past(PastLeaf {
        field,
        test,
        predicates,
    })
}

fn was_values(holds: bool, operands: Sequence<Operand>) -> PastTest
    ensures { result ≡ was_values holds operands }
{
    if holds {
        PastTest::Was(operands)
    } else {
        PastTest::WasNot(operands)
    }
}

fn change_sides(holds: bool, sides: Sequence<Endpoint>) -> PastTest
    ensures { result ≡ change_sides holds sides }
{
    if holds {
        PastTest::Changed(sides)
    } else {
        PastTest::NotChanged(sides)
    }
}

/// WAS, or where it doesn't hold WAS NOT.
pub(crate) fn was_in(
    binder: &Binder<'_>,
    column: Column,
    holds: bool,
    item: &Item,
    predicates: &[Predicate],
) -> Result<Cond, Stop>
    ensures ok { IfOk result
        (λ x. was_in (scope_of binder.now) column holds item.now predicates.now ≡ Ok (view x)) }
    ensures err { IfErr result
        (Stops (was_in (scope_of binder.now) column holds item.now predicates.now)) }
{
    let Some(field) = column.history_field() else {
        return Err(Stop::At(FaultKind::OperatorNotForField));
    };
    let operand = item_in(binder, column.kind, item)?;
    let operands = alone(binder.alloc, operand)?;
    let predicates = predicates_in(binder, predicates)?;
    Ok(past_leaf(field, was_values(holds, operands), predicates))
}

/// WAS IN, or where it doesn't hold WAS NOT IN.
pub(crate) fn was_among(
    binder: &Binder<'_>,
    column: Column,
    holds: bool,
    members: &Members,
    predicates: &[Predicate],
) -> Result<Cond, Stop>
    ensures ok { IfOk result (λ x.
        was_among (scope_of binder.now) column holds members.now predicates.now ≡ Ok (view x)) }
    ensures err { IfErr result
        (Stops (was_among (scope_of binder.now) column holds members.now predicates.now)) }
{
    let Some(field) = column.history_field() else {
        return Err(Stop::At(FaultKind::OperatorNotForField));
    };
    let operands = members_in(binder, column.kind, members)?;
    let predicates = predicates_in(binder, predicates)?;
    Ok(past_leaf(field, was_values(holds, operands), predicates))
}

/// CHANGED, or where it doesn't hold NOT of it.
pub(crate) fn changed_in(
    binder: &Binder<'_>,
    column: Column,
    holds: bool,
    aspects: &[Aspect],
) -> Result<Cond, Stop>
    ensures ok { IfOk result
        (λ x. changed_in (scope_of binder.now) column holds aspects.now ≡ Ok (view x)) }
    ensures err { IfErr result (Stops (changed_in (scope_of binder.now) column holds aspects.now)) }
{
    let Some(field) = column.history_field() else {
        return Err(Stop::At(FaultKind::OperatorNotForField));
    };
    let sides = endpoints_in(binder, column.kind, aspects)?;
    let predicates = other_aspects(binder, aspects)?;
    Ok(past_leaf(field, change_sides(holds, sides), predicates))
}

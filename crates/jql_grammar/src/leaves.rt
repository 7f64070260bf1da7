// Tests of fields.
ghost use Rattle.std.specs.Prelude.{◌≡◌, IfOk, IfErr};
ghost use Rattle.jql_bound.specs.Condition.{view};
ghost use Rattle.jql_grammar.specs.Steps.{Stops};
ghost use Rattle.jql_grammar.specs.Scope.{scope_of};
ghost use Rattle.jql_grammar.specs.Asked.{comparison_asked, test_asked, leaf_asked};

use crate::column::{Column, column_in};
use crate::fault::Stop;
use crate::past::{changed_in, was_among, was_in};
use crate::present::{comparison_in, emptiness, equality_in, membership_in, present};
use crate::scope::Binder;
use jql_bound::Cond;
use jql_syntax::{Comparison, Leaf, Test};

fn comparison_asked(denied: bool, comparison: Comparison) -> Comparison
    ensures { result ≡ comparison_asked denied comparison }
{
    if !denied {
        return comparison;
    }
    match comparison {
        Comparison::Less => Comparison::GreaterOrEqual,
        Comparison::LessOrEqual => Comparison::Greater,
        Comparison::Greater => Comparison::LessOrEqual,
        Comparison::GreaterOrEqual => Comparison::Less,
        Comparison::Contains => Comparison::Lacks,
        Comparison::Lacks => Comparison::Contains,
    }
}

// A test, or where it is denied its opposite.
#[tactic(auto, unfolding(crate::specs::Asked::test_asked))]
fn test_asked(binder: &Binder<'_>, column: Column, denied: bool, test: &Test) -> Result<Cond, Stop>
    ensures ok { IfOk result
        (λ x. test_asked (scope_of binder.now) column denied test.now ≡ Ok (view x)) }
    ensures err { IfErr result (Stops (test_asked (scope_of binder.now) column denied test.now)) }
{
    match test {
        Test::Equals(item) => equality_in(binder, column, !denied, item),
        Test::NotEquals(item) => equality_in(binder, column, denied, item),
        Test::Compares(comparison, value) => {
            comparison_in(binder, column, comparison_asked(denied, *comparison), value)
        }
        Test::In(members) => membership_in(binder, column, !denied, members),
        Test::NotIn(members) => membership_in(binder, column, denied, members),
        Test::IsEmpty => Ok(present(column, emptiness(!denied))),
        Test::IsNotEmpty => Ok(present(column, emptiness(denied))),
        Test::Was(item, predicates) => {
            was_in(binder, column, !denied, item, predicates.as_slice())
        }
        Test::WasNot(item, predicates) => {
            was_in(binder, column, denied, item, predicates.as_slice())
        }
        Test::WasIn(members, predicates) => {
            was_among(binder, column, !denied, members, predicates.as_slice())
        }
        Test::WasNotIn(members, predicates) => {
            was_among(binder, column, denied, members, predicates.as_slice())
        }
        Test::Changed(aspects) => changed_in(binder, column, !denied, aspects.as_slice()),
    }
}

/// A test of a field, or where it is denied its opposite.
pub(crate) fn leaf_asked(binder: &Binder<'_>, denied: bool, leaf: &Leaf) -> Result<Cond, Stop>
    ensures ok { IfOk result (λ x. leaf_asked (scope_of binder.now) denied leaf.now ≡ Ok (view x)) }
    ensures err { IfErr result (Stops (leaf_asked (scope_of binder.now) denied leaf.now)) }
{
    let column = column_in(binder.setup, &leaf.field)?;
    test_asked(binder, column, denied, &leaf.test)
}

//! Whether a filter asks for the members of groups.
ghost use Rattle.std.specs.Prelude.{◌≡◌};
ghost use Rattle.std.specs.List.{list_any};
ghost use Rattle.jql_bound.specs.Condition.{view, views};
ghost use Rattle.tracker_filters.specs.Members.{is_of_members, some_is_of_members, operator_asks, endpoint_asks, test_asks, predicate_asks, past_asks, condition_asks, one_asks, asks_members};

use crate::filter::Filter;
use jql_bound::{Cond, Endpoint, Operand, Operator, PastLeaf, PastPredicate, PastTest};

/// Whether one of the filter's comparisons asks for the members of a group.
#[tactic(auto, unfolding(crate::specs::Members::asks_members))]
pub(crate) fn asks_members(filter: &Filter) -> bool
    ensures { result ≡ asks_members filter.now }
{
    match &filter.query.cond {
        Some(cond) => condition_asks(cond),
        None => false,
    }
}

// Whether one of the condition's comparisons does.
#[cycle(conditions)]
fn condition_asks(cond: &Cond) -> bool
    ensures { result ≡ condition_asks (view cond.now) }
{
    match cond {
        Cond::All(conds) => one_asks(conds),
        Cond::Any(conds) => one_asks(conds),
        Cond::Now(leaf) => operator_asks(&leaf.operator),
        Cond::Past(leaf) => past_asks(leaf),
    }
}

// Whether one of several conditions does.
#[cycle(conditions)]
fn one_asks(conds: &[Cond]) -> bool
    ensures { result ≡ one_asks (views conds.now) }
{
    for cond in conds {
        if condition_asks(cond) {
            return true;
        }
    }
    false
}

// Whether a present comparison does.
fn operator_asks(operator: &Operator) -> bool
    ensures { result ≡ operator_asks operator.now }
{
    match operator {
        Operator::In(operands) | Operator::NotIn(operands) => {
            some_is_of_members(operands.as_slice())
        }
        Operator::Compares(_, operand) => is_of_members(operand),
        _ => false,
    }
}

// Whether a comparison with the past does, in what it looks for or in its authors.
fn past_asks(leaf: &PastLeaf) -> bool
    ensures { result ≡ past_asks leaf.now }
{
    test_asks(&leaf.test) || some_predicate_asks(leaf.predicates.as_slice())
}

fn test_asks(test: &PastTest) -> bool
    ensures { result ≡ test_asks test.now }
{
    match test {
        PastTest::Was(operands) | PastTest::WasNot(operands) => {
            some_is_of_members(operands.as_slice())
        }
        PastTest::Changed(endpoints) | PastTest::NotChanged(endpoints) => {
            some_endpoint_asks(endpoints.as_slice())
        }
    }
}

fn some_endpoint_asks(endpoints: &[Endpoint]) -> bool
    ensures { result ≡ list_any endpoint_asks endpoints.now }
{
    endpoints.iter().any(|endpoint| endpoint_asks(endpoint))
}

fn endpoint_asks(endpoint: &Endpoint) -> bool
    ensures { result ≡ endpoint_asks endpoint.now }
{
    match endpoint {
        Endpoint::From(operands) | Endpoint::To(operands) => {
            some_is_of_members(operands.as_slice())
        }
    }
}

fn some_predicate_asks(predicates: &[PastPredicate]) -> bool
    ensures { result ≡ list_any predicate_asks predicates.now }
{
    predicates.iter().any(|predicate| predicate_asks(predicate))
}

fn predicate_asks(predicate: &PastPredicate) -> bool
    ensures { result ≡ predicate_asks predicate.now }
{
    match predicate {
        PastPredicate::By(users) => some_is_of_members(users.as_slice()),
        _ => false,
    }
}

// Whether one of the operands stands for the members of a group.
fn some_is_of_members(operands: &[Operand]) -> bool
    ensures { result ≡ some_is_of_members operands.now }
{
    operands.iter().any(|operand| is_of_members(operand))
}

fn is_of_members(operand: &Operand) -> bool
    ensures { result ≡ is_of_members operand.now }
{
    match operand {
        Operand::MembersOf(_) => true,
        _ => false,
    }
}

// Until when the truth of a present comparison stays.
ghost use Rattle.std.specs.Prelude.{◌≡◌, [], ◌∷◌};
ghost use Rattle.jql_meaning.specs.Surroundings.{surroundings_of};
ghost use Rattle.jql_meaning.specs.Present.{holds_now};
ghost use Rattle.jql_meaning.specs.Critical.{IsCriticalNow};
ghost use Rattle.jql_meaning.specs.Edges.{operands_of};
ghost use Rattle.jql_meaning.specs.Ends.{Stays};
ghost use Rattle.jql_present.specs.Steady.{IsFirstOf, earlier};

use crate::mark::mark_of;
use change_history::Issue;
use field_values::Moment;
use jql_bound::{Context, Leaf, Operand, Operator};

/// A later moment before which the truth of the comparison stays, and at which it may change. `None` where it stays for good.
#[tactic(auto, using(crate::proofs::Staying::stays, crate::proofs::Staying::stays_without_a_mark))]
pub fn next_present(leaf: &Leaf, issue: &Issue, context: &Context, at: Moment) -> Option<Moment>
    ensures { Stays (holds_now (surroundings_of context.now) leaf.now issue.now.history)
        (IsCriticalNow (surroundings_of context.now) issue.now.history leaf.now) at result }
{
    match mark_of(context, issue, leaf.subject) {
        Some(mark) => next_at(&leaf.operator, context, at, mark),
        None => None,
    }
}

// The first moment at which one of the operator's dates compares otherwise with the mark.
fn next_at(operator: &Operator, context: &Context, at: Moment, mark: i64) -> Option<Moment>
    ensures { IsFirstOf (surroundings_of context.now) (operands_of operator.now) mark at result }
{
    match operator {
        Operator::In(operands) | Operator::NotIn(operands) => first_of(
            operands.as_slice(),
            context,
            at,
            mark,
        ),
        Operator::Compares(_, operand) => next_of(operand, context, at, mark),
        Operator::Contains(_) | Operator::Lacks(_) | Operator::IsEmpty | Operator::IsNotEmpty =>
            None,
    }
}

// The same of a list of operands.
fn first_of(operands: &[Operand], context: &Context, at: Moment, mark: i64) -> Option<Moment>
    ensures { IsFirstOf (surroundings_of context.now) operands.now mark at result }
{
    let mut first = None;
    for operand in operands {
        first = earlier(first, next_of(operand, context, at, mark));
    }
    first
}

/// The earlier of two moments, where there are both.
pub fn earlier(one: Option<Moment>, other: Option<Moment>) -> Option<Moment>
    ensures { result ≡ earlier one other }
{
    match (one, other) {
        (None, other) => other,
        (Some(one), None) => Some(one),
        (Some(one), Some(other)) => Some(if one.seconds() <= other.seconds() {
            one
        } else {
            other
        }),
    }
}

// The same of one operand, which need not be a date.
#[tactic(auto, using(crate::proofs::Firsts::first_of_date, crate::proofs::Firsts::first_of_none))]
fn next_of(operand: &Operand, context: &Context, at: Moment, mark: i64) -> Option<Moment>
    ensures { IsFirstOf (surroundings_of context.now) (operand.now ∷ []) mark at result }
{
    match operand {
        Operand::Date(date) => match date.next(&context.calendar, at.seconds(), mark) {
            Some(next) => Moment::new(next),
            None => None,
        },
        _ => None,
    }
}

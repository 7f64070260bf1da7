// Whether a present comparison holds.
ghost use Rattle.std.specs.Prelude.{◌≡◌, not};
ghost use Rattle.std.specs.List.{list_any};
ghost use Rattle.std.specs.Ordering.{is_some_and};
ghost use Rattle.jql_meaning.specs.Surroundings.{surroundings_of};
ghost use Rattle.jql_meaning.specs.Words.{has_words};
ghost use Rattle.jql_meaning.specs.Present.{holds_now, lacks_value, has_text};
ghost use Rattle.jql_meaning.specs.Comparison.{equals, order, stands};

use crate::compare::{equals, order};
use crate::words;
use change_history::{Issue, Small};
use field_values::{Moment, Value};
use jql_bound::{Context, Inequality, Leaf, Operand, Operator, Subject, Word};
use std::cmp::Ordering;

/// Whether the comparison holds of the issue at the present moment.
#[tactic(auto, unfolding(jql_meaning::specs::Present::holds_now))]
pub fn holds_present(leaf: &Leaf, issue: &Issue, context: &Context, at: Moment) -> bool
    ensures { result ≡ holds_now (surroundings_of context.now) leaf.now issue.now.history at }
{
    let subject = leaf.subject;
    match &leaf.operator {
        Operator::In(operands) => is_one_of(context, issue, at, subject, operands.as_slice()),
        Operator::NotIn(operands) => !lacks_value(issue, subject)
            && !is_one_of(context, issue, at, subject, operands.as_slice()),
        Operator::Compares(inequality, operand) => stands_so(
            *inequality,
            order(context, issue, at, subject, operand),
        ),
        Operator::Contains(words) => has_words(issue, subject, words.as_slice()),
        Operator::Lacks(words) => lacks_words(issue, subject, words.as_slice()),
        Operator::IsEmpty => lacks_value(issue, subject),
        Operator::IsNotEmpty => !lacks_value(issue, subject),
    }
}

fn is_one_of(
    context: &Context,
    issue: &Issue,
    at: Moment,
    subject: Subject,
    operands: &[Operand],
) -> bool
    ensures { result ≡ list_any (λ operand.
        equals (surroundings_of context.now) issue.now.history at subject operand) operands.now }
{
    operands
        .iter()
        .any(|operand| equals(context, issue, at, subject, operand))
}

fn lacks_value(issue: &Issue, subject: Subject) -> bool
    ensures { result ≡ lacks_value issue.now.history subject }
{
    match subject {
        Subject::Field(field) => matches!(issue.small(field), Small::Empty),
        _ => false,
    }
}

fn stands_so(inequality: Inequality, order: Option<Ordering>) -> bool
    ensures { result ≡ is_some_and (stands inequality) order }
{
    match order {
        Some(order) => stands(inequality, order),
        None => false,
    }
}

fn stands(inequality: Inequality, order: Ordering) -> bool
    ensures { result ≡ stands inequality order }
{
    match inequality {
        Inequality::Less => order.is_lt(),
        Inequality::LessOrEqual => order.is_le(),
        Inequality::Greater => order.is_gt(),
        Inequality::GreaterOrEqual => order.is_ge(),
    }
}

fn has_words(issue: &Issue, subject: Subject, wanted: &[Word]) -> bool
    ensures { result ≡ has_text (has_words wanted.now) issue.now.history subject }
{
    match subject {
        Subject::Field(field) => match issue.value(field) {
            Value::Text(text) => words::has_words(wanted, text.as_str()),
            _ => false,
        },
        _ => false,
    }
}

fn lacks_words(issue: &Issue, subject: Subject, wanted: &[Word]) -> bool
    ensures { result
        ≡ has_text (λ text. not (has_words wanted.now text)) issue.now.history subject }
{
    match subject {
        Subject::Field(field) => match issue.value(field) {
            Value::Text(text) => !words::has_words(wanted, text.as_str()),
            _ => false,
        },
        _ => false,
    }
}

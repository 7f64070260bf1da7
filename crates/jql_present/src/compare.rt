// Whether an operand stands for what is compared, and how it stands to it.
ghost use Rattle.std.specs.Prelude.{◌≡◌, ◌≤◌, ◌==◌, length};
ghost use Rattle.std.specs.List.{position_or_len};
ghost use Rattle.std.specs.Ordering.{int_cmp, int_eq};
ghost use Rattle.jiff_core.specs.Calendar.{IsWithin};
ghost use Rattle.jql_meaning.specs.Surroundings.{surroundings_of};
ghost use Rattle.change_history.specs.Key.{project_of};
ghost use Rattle.jql_meaning.specs.Comparison.{second_now, midnight_of, equals_value, equals_moment, is_project, is_issue, equals, value_order, moment_order, order};

use crate::naming::has_value;
use crate::phase::is_in_phase;
use change_history::{Issue, Key};
use field_values::{Day, Moment, Value};
use jql_bound::{Context, Operand, Subject};
use relative_dates::Term;
use std::cmp::Ordering;

/// Whether the operand stands for what is compared.
pub fn equals(
    context: &Context,
    issue: &Issue,
    at: Moment,
    subject: Subject,
    operand: &Operand,
) -> bool
    ensures { result
        ≡ equals (surroundings_of context.now) issue.now.history at subject operand.now }
{
    match subject {
        Subject::Field(field) => match issue.small(field).value() {
            Some(value) => equals_value(context, at, &value, operand),
            None => equals_value(context, at, issue.value(field), operand),
        },
        Subject::Project => is_project(issue.key(), operand),
        Subject::Key => is_issue(issue.key(), operand),
        Subject::Created => equals_moment(context, at, issue.created(), operand),
        Subject::Updated => equals_moment(context, at, issue.updated(), operand),
    }
}

/// How what is compared stands to the operand, where they have an order.
pub fn order(
    context: &Context,
    issue: &Issue,
    at: Moment,
    subject: Subject,
    operand: &Operand,
) -> Option<Ordering>
    ensures { result
        ≡ order (surroundings_of context.now) issue.now.history at subject operand.now }
{
    match subject {
        Subject::Field(field) => match issue.small(field).value() {
            Some(value) => value_order(context, at, &value, operand),
            None => value_order(context, at, issue.value(field), operand),
        },
        Subject::Project | Subject::Key => None,
        Subject::Created => moment_order(context, at, issue.created(), operand),
        Subject::Updated => moment_order(context, at, issue.updated(), operand),
    }
}

/// The second at which a local day begins.
pub fn midnight_of(context: &Context, day: Day) -> i64
    ensures { result ≡ midnight_of (surroundings_of context.now) day }
{
    context.calendar.start_of(i64::from(day.0))
}

/// The second that a date means now.
pub fn second_now(context: &Context, at: Moment, date: &Term) -> i64
    ensures value { result ≡ second_now (surroundings_of context.now) at date.now }
    ensures bound { IsWithin 200_000_000_000_000 result }
{
    date.at(&context.calendar, at.seconds())
}

fn equals_value(context: &Context, at: Moment, value: &Value, operand: &Operand) -> bool
    ensures { result ≡ equals_value (surroundings_of context.now) at value.now operand.now }
{
    match operand {
        Operand::Date(date) => match value {
            Value::Date(day) => is_same_second(
                midnight_of(context, *day),
                second_now(context, at, date),
            ),
            _ => false,
        },
        Operand::SprintsIn(phase) => match value {
            Value::Sprint(sprint) => is_in_phase(context, *phase, *sprint),
            _ => false,
        },
        _ => has_value(context, operand, value),
    }
}

fn is_same_second(one: i64, other: i64) -> bool
    ensures { result ≡ int_eq one other }
{
    one == other
}

fn equals_moment(context: &Context, at: Moment, moment: Moment, operand: &Operand) -> bool
    ensures { result ≡ equals_moment (surroundings_of context.now) at moment operand.now }
{
    match operand {
        Operand::Date(date) => is_same_second(
            moment.seconds() as i64,
            second_now(context, at, date),
        ),
        _ => false,
    }
}

fn is_project(key: &Key, operand: &Operand) -> bool
    ensures { result ≡ is_project (project_of key.now) operand.now }
{
    match operand {
        Operand::Project(other) => project_of(key.as_str().as_bytes()) == other.as_str().as_bytes(),
        _ => false,
    }
}

// What stands before the hyphen.
fn project_of(key: &[u8]) -> &[u8]
    ensures { result.now ≡ project_of key.now }
{
    let (project, _) = key.split_at(hyphen_of(key));
    project
}

// The place of the hyphen, or the length of the key where there is none.
fn hyphen_of(key: &[u8]) -> usize
    ensures place { result ≡ position_or_len (λ byte. byte == 45) key.now }
    ensures within { result ≤ length key.now }
{
    for (place, byte) in key.iter().enumerate() {
        if *byte == b'-' {
            return place;
        }
    }
    key.len()
}

fn is_issue(key: &Key, operand: &Operand) -> bool
    ensures { result ≡ is_issue key.now operand.now }
{
    match operand {
        Operand::Issue(other) => key.as_str() == other.as_str(),
        _ => false,
    }
}

fn value_order(context: &Context, at: Moment, value: &Value, operand: &Operand) -> Option<Ordering>
    ensures { result ≡ value_order (surroundings_of context.now) at value.now operand.now }
{
    match (value, operand) {
        (Value::Number(number), Operand::Number(other)) => Some(number.cmp(other)),
        // The choices that stand first are the greatest.
        (Value::Choice(choice), Operand::Choice(other)) => Some(other.0.cmp(&choice.0)),
        (Value::Date(day), Operand::Date(date)) => Some(second_order(
            midnight_of(context, *day),
            second_now(context, at, date),
        )),
        _ => None,
    }
}

fn moment_order(
    context: &Context,
    at: Moment,
    moment: Moment,
    operand: &Operand,
) -> Option<Ordering>
    ensures { result ≡ moment_order (surroundings_of context.now) at moment operand.now }
{
    match operand {
        Operand::Date(date) => Some(second_order(
            moment.seconds() as i64,
            second_now(context, at, date),
        )),
        _ => None,
    }
}

fn second_order(one: i64, other: i64) -> Ordering
    ensures { result ≡ int_cmp one other }
{
    one.cmp(&other)
}

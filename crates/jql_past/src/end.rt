// Until when the truth of a comparison with the past stays.
ghost use Rattle.std.specs.Prelude.{pos};
ghost use Rattle.jql_meaning.specs.Surroundings.{surroundings_of};
ghost use Rattle.change_history.specs.Span.{entries_of};
ghost use Rattle.jql_meaning.specs.Past.{holds_past};
ghost use Rattle.jql_meaning.specs.Critical.{IsCriticalPast};
ghost use Rattle.jql_meaning.specs.Marks.{value_mark};
ghost use Rattle.jql_meaning.specs.Ends.{Stays};
ghost use Rattle.jql_past.specs.Next.{IsNext, ToOne};
ghost use Rattle.jql_past.specs.Near.{OneIsNear, IsNearMark, IsNearChange, MayChange};

use crate::disturbed::{next_disturbance, start_of};
use crate::moving::next_near;
use change_history::Issue;
use field_values::{FieldNo, Moment, Value};
use jql_bound::{Context, PastLeaf, PastPredicate};
use jql_present::earlier;

/// A later moment before which the truth of the comparison stays, and at which it may change. `None` where it stays for good.
pub fn next_past(leaf: &PastLeaf, issue: &Issue, context: &Context, at: Moment) -> Option<Moment>
    ensures { Stays (holds_past (surroundings_of context.now) leaf.now issue.now.history)
        (IsCriticalPast (surroundings_of context.now) issue.now.history leaf.now) at result }
{
    // For its promise alone: the calendar's days never fall.
    let _ = context.calendar.first_day();
    next_change(leaf, issue, context, at)
}

// The next moment at which the truth may change.
fn next_change(leaf: &PastLeaf, issue: &Issue, context: &Context, at: Moment) -> Option<Moment>
    ensures { IsNext
        (MayChange (surroundings_of context.now) issue.now.history leaf.now at) at result }
{
    let predicates = leaf.predicates.as_slice();
    let marks = earlier(
        near_creation(predicates, issue, at),
        near_date(predicates, context, at, issue.value(leaf.field)),
    );
    let changes = near_changes(predicates, issue, leaf.field, at);
    earlier(
        marks,
        earlier(changes, next_disturbance(predicates, context, at)),
    )
}

// The next moment at which an edge is near a moment of the issue.
fn near_moment(predicates: &[PastPredicate], at: Moment, moment: Moment) -> Option<Moment>
    ensures { IsNext (OneIsNear predicates.now (pos moment) (pos 1)) at result }
{
    next_near(predicates, at, moment.seconds() as i64, 1)
}

// The same of the creation.
fn near_creation(predicates: &[PastPredicate], issue: &Issue, at: Moment) -> Option<Moment>
    ensures { IsNext (OneIsNear predicates.now (pos issue.now.history.at) (pos 1)) at result }
{
    near_moment(predicates, at, issue.created())
}

// The same of a date's midnight, where the value is one.
fn near_date(
    predicates: &[PastPredicate],
    context: &Context,
    at: Moment,
    value: &Value,
) -> Option<Moment>
    ensures { IsNext
        (IsNearMark predicates.now (value_mark (surroundings_of context.now) value.now)) at result }
{
    match value {
        Value::Date(day) => next_near(predicates, at, start_of(context, i64::from(day.0)), 1),
        _ => None,
    }
}

// The same of the field's changes, from the last to the first.
fn near_changes(
    predicates: &[PastPredicate],
    issue: &Issue,
    field: FieldNo,
    at: Moment,
) -> Option<Moment>
    ensures { IsNext (ToOne (IsNearChange predicates.now)
        (entries_of issue.now.history.entries field)) at result }
{
    let mut first = None;
    let mut place = issue.last_entry(field);
    while let Some(k) = place {
        // An entry stands at each of these places.
        let Some(entry) = issue.entry(k) else {
            return None;
        };
        first = earlier(near_moment(predicates, at, entry.at), first);
        place = issue.entry_before(k);
    }
    first
}

// When the edges that stand come to another second, or others come near them.
ghost use Rattle.std.specs.Prelude.{◌≡◌, ◌≢◌, pos, [], ◌∷◌};
ghost use Rattle.jiff_core.specs.Calendar.{IsWithin};
ghost use Rattle.relative_dates.specs.Calendar.{midnight};
ghost use Rattle.relative_dates.specs.Change.{compared};
ghost use Rattle.jql_meaning.specs.Surroundings.{surroundings_of};
ghost use Rattle.jql_meaning.specs.Edges.{window_edges, date, day, day_after};
ghost use Rattle.jql_past.specs.Next.{IsNext, ToOne};
ghost use Rattle.jql_past.specs.Near.{OneIsNear, IsDisturbed, OneIsDisturbed};

use crate::moving::next_near;
use field_values::Moment;
use jql_bound::{Context, PastPredicate};
use jql_present::earlier;
use relative_dates::Term;

/// The next moment at which an edge that stands comes to another second, or one that goes on comes near it.
pub fn next_disturbance(
    predicates: &[PastPredicate],
    context: &Context,
    at: Moment,
) -> Option<Moment>
    ensures { IsNext (OneIsDisturbed (surroundings_of context.now) predicates.now at) at result }
{
    let mut first = None;
    for predicate in predicates {
        first = earlier(first, disturbs_window(predicate, predicates, context, at));
    }
    first
}

// The same of the edges of one window.
fn disturbs_window(
    predicate: &PastPredicate,
    predicates: &[PastPredicate],
    context: &Context,
    at: Moment,
) -> Option<Moment>
    ensures { IsNext (ToOne (IsDisturbed (surroundings_of context.now) predicates.now at)
        (window_edges predicate.now)) at result }
{
    match predicate {
        PastPredicate::After(date) | PastPredicate::Before(date) => {
            disturbs_date(date, predicates, context, at)
        }
        PastPredicate::During(from, to) => earlier(
            disturbs_date(from, predicates, context, at),
            disturbs_date(to, predicates, context, at),
        ),
        PastPredicate::On(date) => disturbs_day(date, predicates, context, at),
        PastPredicate::By(_) => None,
    }
}

// The same of a date.
fn disturbs_date(
    term: &Term,
    predicates: &[PastPredicate],
    context: &Context,
    at: Moment,
) -> Option<Moment>
    ensures { IsNext
        (IsDisturbed (surroundings_of context.now) predicates.now at (date term.now)) at result }
{
    if term.moves() {
        return None;
    }
    let second = term.at(&context.calendar, at.seconds());
    earlier(
        next_change(term, context, at, second),
        near_edge(predicates, at, second),
    )
}

// The same of both ends of a date's local day.
fn disturbs_day(
    term: &Term,
    predicates: &[PastPredicate],
    context: &Context,
    at: Moment,
) -> Option<Moment>
    ensures { IsNext (ToOne (IsDisturbed (surroundings_of context.now) predicates.now at)
        (day term.now ∷ day_after term.now ∷ [])) at result }
{
    // The date never falls, and neither do local days: what these two promise, and nothing else, is needed.
    term.never_falls(&context.calendar);
    let _ = context.calendar.first_day();
    let day = context
        .calendar
        .day_of(term.at(&context.calendar, at.seconds()));
    let begin = start_of(context, day);
    let end = start_of(context, day + 1);
    let near = earlier(
        near_edge(predicates, at, begin),
        near_edge(predicates, at, end),
    );
    // The date is on a later day as soon as it comes to the day's end.
    earlier(next_change(term, context, at, end), near)
}

// The next moment at which an edge that goes on is near one that stands at that second.
fn near_edge(predicates: &[PastPredicate], at: Moment, second: i64) -> Option<Moment>
    requires { IsWithin 1_000_000_000_000_000 second }
    ensures { IsNext (OneIsNear predicates.now second (pos 2)) at result }
{
    next_near(predicates, at, second, 2)
}

// The next moment at which the date compares otherwise with a second.
fn next_change(term: &Term, context: &Context, at: Moment, second: i64) -> Option<Moment>
    ensures { IsNext (λ t. compared (surroundings_of context.now).calendar term.now second t
        ≢ compared (surroundings_of context.now).calendar term.now second at) at result }
{
    match term.next(&context.calendar, at.seconds(), second) {
        Some(next) => Moment::new(next),
        None => None,
    }
}

/// The second at which a local day begins.
pub fn start_of(context: &Context, day: i64) -> i64
    requires { IsWithin 3_000_000_000 day }
    ensures value { result ≡ midnight (surroundings_of context.now).calendar.zone day }
    ensures bound { IsWithin 1_000_000_000_000_000 result }
{
    let _ = context.calendar.first_day();
    context.calendar.start_of(day)
}

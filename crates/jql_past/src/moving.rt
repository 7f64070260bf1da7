// When the edges that go on with the moment come near a second.
ghost use Rattle.std.specs.Prelude.{◌≡◌, ℤ, pos, ◌≤ℤ◌};
ghost use Rattle.std.specs.Option.{IfSome};
ghost use Rattle.jiff_core.specs.Calendar.{IsBetween, IsWithin};
ghost use Rattle.jql_meaning.specs.Edges.{window_edges};
ghost use Rattle.jql_past.specs.Next.{IsNext, ToOne};
ghost use Rattle.jql_past.specs.Near.{date_ahead, ahead, IsNear, OneIsNear};

use field_values::Moment;
use jql_bound::PastPredicate;
use jql_present::earlier;
use relative_dates::Term;

/// The next moment at which the present moment, or a date of the windows that goes on with it, is near a second: at most the
/// reach before it, or one second more behind it.
pub fn next_near(
    predicates: &[PastPredicate],
    at: Moment,
    second: i64,
    reach: i64,
) -> Option<Moment>
    requires second { IsWithin 1_000_000_000_000_000 second }
    requires reach { IsBetween (pos 0) (pos 2) reach }
    ensures { IsNext (OneIsNear predicates.now second reach) at result }
{
    earlier(
        near(0, at, second, reach),
        near_windows(predicates, at, second, reach),
    )
}

// The same of the dates alone.
fn near_windows(predicates: &[PastPredicate], at: Moment, second: i64, reach: i64) -> Option<Moment>
    requires second { IsWithin 1_000_000_000_000_000 second }
    requires reach { IsBetween (pos 0) (pos 2) reach }
    ensures { IsNext
        (ToOne (λ predicate. ToOne (λ edge. IsNear second reach (ahead edge))
        (window_edges predicate)) predicates.now) at result }
{
    let mut first = None;
    for predicate in predicates {
        first = earlier(first, near_window(predicate, at, second, reach));
    }
    first
}

// The same of the dates of one window.
fn near_window(predicate: &PastPredicate, at: Moment, second: i64, reach: i64) -> Option<Moment>
    requires second { IsWithin 1_000_000_000_000_000 second }
    requires reach { IsBetween (pos 0) (pos 2) reach }
    ensures { IsNext
        (ToOne (λ edge. IsNear second reach (ahead edge)) (window_edges predicate.now)) at result }
{
    match predicate {
        PastPredicate::After(date) | PastPredicate::Before(date) => {
            near_date(date, at, second, reach)
        }
        PastPredicate::During(from, to) => earlier(
            near_date(from, at, second, reach),
            near_date(to, at, second, reach),
        ),
        // A day stands.
        PastPredicate::On(_) | PastPredicate::By(_) => None,
    }
}

fn near_date(date: &Term, at: Moment, second: i64, reach: i64) -> Option<Moment>
    requires second { IsWithin 1_000_000_000_000_000 second }
    requires reach { IsBetween (pos 0) (pos 2) reach }
    ensures { IsNext (IsNear second reach (date_ahead date.now)) at result }
{
    match ahead_of(date) {
        Some(ahead) => near(ahead, at, second, reach),
        None => None,
    }
}

// How far a date is ahead of the moment, where it goes on with it.
fn ahead_of(date: &Term) -> Option<i64>
    ensures value { result ≡ date_ahead date.now }
    ensures bound { IfSome result (IsWithin 200_000_000_000) }
{
    match date {
        Term::Now => Some(0),
        Term::FromNow(minutes) => Some(60 * i64::from(*minutes)),
        Term::Literal(_) | Term::PeriodEdge(_) => None,
    }
}

// The next moment at which what is so far ahead of it is near a second.
fn near(ahead: i64, at: Moment, second: i64, reach: i64) -> Option<Moment>
    requires ahead { IsWithin 200_000_000_000 ahead }
    requires second { IsWithin 1_000_000_000_000_000 second }
    requires reach { IsBetween (pos 0) (pos 2) reach }
    ensures { IsNext (IsNear second reach (Some ahead)) at result }
{
    next_within(at, second - reach - ahead, second + reach + 1 - ahead)
}

// The next moment from one second to another.
fn next_within(at: Moment, from: i64, to: i64) -> Option<Moment>
    ensures { IsNext (λ t. (from ≤ℤ pos t) × (pos t ≤ℤ to)) at result }
{
    let next = from.max(at.seconds() as i64 + 1);
    if next <= to {
        Moment::new(next as u64)
    } else {
        None
    }
}

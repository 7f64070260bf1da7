// The moments that the windows of a comparison leave, as one interval: no moment is looked for in it.
ghost use Rattle.std.specs.Prelude.{◌≡◌, ◌+◌, ◌≤◌, pos, ◌+ℤ◌, IfSome};
ghost use Rattle.jiff_core.specs.Calendar.{IsWithin};
ghost use Rattle.field_values.specs.Years.{last_second};
ghost use Rattle.relative_dates.specs.Calendar.{local_day, midnight};
ghost use Rattle.jql_meaning.specs.Surroundings.{surroundings_of};
ghost use Rattle.jql_meaning.specs.Comparison.{second_now};
ghost use Rattle.jql_meaning.specs.Moments.{after_last};
ghost use Rattle.jql_past.specs.Interval.{IsOfWindows, all_moments, starting, ending, on_day, narrowed, interval_of, has_moment, has_second, meets};

use field_values::Moment;
use jql_bound::{Context, PastPredicate};
use jql_present::second_now;
use relative_dates::Term;

/// The seconds from `first` on before `end`; there are none where `end` isn't later.
#[derive(Clone, Copy)]
pub struct Interval {
    pub first: i64,
    pub end: i64,
}

// The interval in which a moment lies exactly where it lies in each of the windows.
fn common_interval(context: &Context, at: Moment, predicates: &[PastPredicate]) -> Interval
    ensures { IsOfWindows (surroundings_of context.now) at predicates.now result }
{
    // That the calendar's days go on is what makes the moments of one day an interval.
    let _ = context.calendar.first_day();
    interval_of(context, at, predicates)
}

/// The interval in which a moment lies exactly where it lies in each of the windows. It is worked out where it isn't known
/// yet, and known from then on: it takes the calendar, and most issues are told by their values alone.
pub fn known_interval(
    known: &mut Option<Interval>,
    context: &Context,
    at: Moment,
    predicates: &[PastPredicate],
) -> Interval
    requires { IfSome known.old (IsOfWindows (surroundings_of context.now) at predicates.now) }
    ensures interval { IsOfWindows (surroundings_of context.now) at predicates.now result }
    ensures known { IfSome known.new
        (IsOfWindows (surroundings_of context.now) at predicates.now) }
{
    match *known {
        Some(interval) => interval,
        None => {
            let interval = common_interval(context, at, predicates);
            *known = Some(interval);
            interval
        }
    }
}

/// Whether the moment lies in the interval.
pub fn has_moment(interval: Interval, moment: Moment) -> bool
    ensures value { result ≡ has_moment interval moment }
    ensures bound { moment ≤ last_second }
{
    let second = moment.seconds() as i64;
    interval.first <= second && second < interval.end
}

/// Whether one of the moments that a span has lies in the interval: its begin, or a later one before its end or, where it has
/// none, up to the present moment.
pub fn meets(interval: Interval, begin: Moment, end: Option<Moment>, at: Moment) -> bool
    ensures value { result ≡ meets interval begin end at }
    ensures begin { begin ≤ last_second }
    ensures end { after_last end at ≤ last_second + 1 }
{
    has_moment(interval, begin)
        || has_second(
            interval,
            begin.seconds() as i64 + 1,
            after_last(end, at) as i64,
        )
}

// Whether the interval has one of the seconds from `first` on before `end`.
fn has_second(interval: Interval, first: i64, end: i64) -> bool
    ensures { result ≡ has_second interval first end }
{
    interval.first.max(first) < interval.end.min(end)
}

// The moment after a span's last.
fn after_last(end: Option<Moment>, at: Moment) -> u64
    ensures value { result ≡ after_last end at }
    ensures bound { result ≤ last_second + 1 }
{
    match end {
        Some(end) => end.seconds(),
        None => at.seconds() + 1,
    }
}

// What the windows leave, taken one after the other.
fn interval_of(context: &Context, at: Moment, predicates: &[PastPredicate]) -> Interval
    ensures { result ≡ interval_of (surroundings_of context.now) at all_moments predicates.now }
{
    let mut interval = all_moments();
    for predicate in predicates {
        interval = narrowed(context, at, interval, predicate);
    }
    interval
}

fn all_moments() -> Interval
    ensures { result ≡ all_moments }
{
    Interval {
        first: 0,
        end: Moment::LAST as i64 + 1,
    }
}

// What the window leaves of the interval.
fn narrowed(
    context: &Context,
    at: Moment,
    interval: Interval,
    predicate: &PastPredicate,
) -> Interval
    ensures { result ≡ narrowed (surroundings_of context.now) at interval predicate.now }
{
    match predicate {
        PastPredicate::After(date) => starting(interval, second_now(context, at, date) + 1),
        PastPredicate::Before(date) => ending(interval, second_now(context, at, date)),
        PastPredicate::On(date) => {
            let day = day_of(context, second_now(context, at, date));
            on_day(context, interval, day)
        }
        PastPredicate::During(from, to) => {
            let later = starting(interval, second_now(context, at, from));
            through(later, second_now(context, at, to))
        }
        PastPredicate::By(_) => interval,
    }
}

// The local day of a second.
fn day_of(context: &Context, second: i64) -> i64
    requires { IsWithin 200_000_000_000_000 second }
    ensures value { result ≡ local_day context.now.calendar.zone second }
    ensures bound { IsWithin 10_000_000_000 result }
{
    context.calendar.day_of(second)
}

// What a local day leaves of the interval: the next day's first second is no part of it.
fn on_day(context: &Context, interval: Interval, day: i64) -> Interval
    requires { IsWithin 10_000_000_000 day }
    ensures { result ≡ on_day (surroundings_of context.now) interval day }
{
    let later = starting(interval, context.calendar.start_of(day));
    ending(later, start_after(context, day))
}

// The first second of the day after a local day.
fn start_after(context: &Context, day: i64) -> i64
    requires { IsWithin 10_000_000_000 day }
    ensures { result ≡ midnight context.now.calendar.zone (day +ℤ pos 1) }
{
    context.calendar.start_of(day + 1)
}

fn starting(interval: Interval, second: i64) -> Interval
    ensures { result ≡ starting interval second }
{
    Interval {
        first: interval.first.max(second),
        end: interval.end,
    }
}

fn ending(interval: Interval, second: i64) -> Interval
    ensures { result ≡ ending interval second }
{
    Interval {
        first: interval.first,
        end: interval.end.min(second),
    }
}

fn through(interval: Interval, second: i64) -> Interval
    requires { IsWithin 200_000_000_000_000 second }
    ensures { result ≡ ending interval (second +ℤ pos 1) }
{
    ending(interval, second + 1)
}

//! The second that a date term means at a moment.

ghost use Rattle.std.specs.Prelude.{◌≡◌, ◌≤◌, ℤ, pos, neg_ℤ, ◌+ℤ◌, ◌-ℤ◌, ◌*ℤ◌, ◌≤ℤ◌};
ghost use Rattle.jiff_core.specs.Calendar.{IsBetween, IsWithin, IsEpochDay};
ghost use Rattle.relative_dates.specs.Years.{last_second};
ghost use Rattle.relative_dates.specs.Term.{period_begin, one_later, edge_day, before_edge, boundary_day, boundary_second, second, IsTerm};

use crate::calendar::Calendar;
use crate::civil;
use crate::term::{Boundary, Edge, LocalSecond, Period, Term};

impl Term {
    /// The second that the term means at a moment.
    pub fn at(&self, calendar: &Calendar, at: u64) -> i64
        requires { at ≤ last_second }
        ensures value { result ≡ second calendar.now self.now (pos at) }
        ensures bound { IsWithin 200_000_000_000_000 result }
    {
        let now = at as i64;
        match self {
            Term::Now => now,
            Term::Literal(local) => calendar.first_at(local_second(*local)),
            Term::FromNow(minutes) => now + 60 * i64::from(*minutes),
            Term::PeriodEdge(boundary) => {
                boundary_second(calendar, boundary, calendar.day_of(now))
            }
        }
    }
}

/// The number of a second of the local clock.
fn local_second(local: LocalSecond) -> i64
    ensures value { result ≡ (local.day *ℤ pos 86_400) +ℤ pos local.second }
    ensures bound { IsWithin 190_000_000_000_000 result }
{
    i64::from(local.day) * 86_400 + i64::from(local.second)
}

/// The second of a boundary, seen from a local day.
fn boundary_second(calendar: &Calendar, boundary: &Boundary, day: i64) -> i64
    requires { IsBetween (neg_ℤ (pos 100_000)) (pos 100_000) day }
    ensures value { result ≡ boundary_second calendar.now boundary.now day }
    ensures bound { IsWithin 200_000_000_000_000 result }
{
    let day = boundary_day(calendar.first_day(), boundary, day as i32);
    let start = calendar.first_at(day * 86_400) + 60 * i64::from(boundary.shift.minutes);
    start - before_edge(boundary.edge)
}

/// How many seconds an edge lies before the first second that follows it.
fn before_edge(edge: Edge) -> i64
    ensures value { result ≡ before_edge edge }
    ensures bound { IsBetween (pos 0) (pos 1) result }
{
    match edge {
        Edge::Start => 0,
        Edge::End => 1,
    }
}

/// The day of a boundary, seen from a local day.
fn boundary_day(first_day: u8, boundary: &Boundary, day: i32) -> i64
    requires first_day { first_day ≤ 7 }
    requires day { IsBetween (neg_ℤ (pos 100_000)) (pos 100_000) day }
    ensures value { result ≡ boundary_day first_day boundary.now day }
    ensures bound { IsWithin 2_200_000_000 result }
{
    let edge = edge_day(first_day, boundary.edge, boundary.period, day);
    let later = civil::months_later(edge, boundary.shift.months.get());
    i64::from(later) + i64::from(boundary.shift.days)
}

/// The day on which the present period begins, or the next one.
fn edge_day(first_day: u8, edge: Edge, period: Period, day: i32) -> i32
    requires first_day { first_day ≤ 7 }
    requires day { IsBetween (neg_ℤ (pos 100_000)) (pos 100_000) day }
    ensures value { result ≡ edge_day first_day edge period day }
    ensures near { IsBetween (neg_ℤ (pos 200_000)) (pos 200_000) result }
{
    let begin = period_begin(first_day, period, day);
    match edge {
        Edge::Start => begin,
        Edge::End => one_later(period, begin),
    }
}

/// The day on which the period begins that holds a day.
fn period_begin(first_day: u8, period: Period, day: i32) -> i32
    requires first_day { first_day ≤ 7 }
    requires day { IsBetween (neg_ℤ (pos 100_000)) (pos 100_000) day }
    ensures value { result ≡ period_begin first_day period day }
    ensures near { IsBetween (neg_ℤ (pos 101_000)) (pos 100_000) result }
{
    match period {
        Period::Day => day,
        Period::Week => civil::week_begin(first_day, day),
        Period::Month => civil::month_begin(day),
        Period::Year => civil::year_begin(day),
    }
}

/// The day one period later.
fn one_later(period: Period, day: i32) -> i32
    requires { IsBetween (neg_ℤ (pos 101_000)) (pos 100_000) day }
    ensures value { result ≡ one_later period day }
    ensures near { IsBetween (neg_ℤ (pos 200_000)) (pos 200_000) result }
{
    match period {
        Period::Day => day + 1,
        Period::Week => day + 7,
        Period::Month => civil::months_later(day, 1),
        Period::Year => civil::months_later(day, 12),
    }
}

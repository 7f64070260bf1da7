//! Date terms: what a date in a query means at a moment.

ghost use Rattle.std.specs.Prelude.{◌≡◌, ◌≤◌, ◌↔◌, IsTrue, true, ℤ, pos, ◌≤ℤ◌};
ghost use Rattle.jiff_core.specs.Calendar.{IsWithin};

use std::marker::Model;

/// A period of the local calendar.
#[derive(Clone, Copy, PartialEq, Eq)]
pub enum Period {
    Day,
    Week,
    Month,
    Year,
}

/// Which end of a period.
#[derive(Clone, Copy, PartialEq, Eq)]
pub enum Edge {
    Start,
    End,
}

/// Months that a date is moved by: at most 48,000, forward or back.
#[derive(Clone, Copy, PartialEq, Eq)]
pub struct Months {
    count: i32,
}

impl Model for Months {
    ghost use Rattle.std.specs.Prelude.{ℤ};
    ghost use Rattle.jiff_core.specs.Calendar.{IsWithin};

    ghost Value = { ℤ };

    ghost view = { λ m. m.count };

    ghost invariant = { λ m. IsWithin 48_000 m.count };

    ghost inverse = { λ z. record { count = z } };
}

impl Months {
    pub fn new(count: i32) -> Months
        requires { IsWithin 48_000 count }
        ensures { result ≡ count }
    {
        Months { count }
    }

    /// How many.
    pub fn get(&self) -> i32
        ensures value { result ≡ self.now }
        ensures bound { IsWithin 48_000 self.now }
    {
        self.count
    }
}

/// How far a date is moved: by months with the day cut to the month's length, then by days, then by minutes.
#[derive(Clone, Copy, PartialEq, Eq)]
pub struct Shift {
    pub months: Months,
    pub days: i32,
    pub minutes: i32,
}

/// The start or the end of the present period, moved.
#[derive(Clone, Copy, PartialEq, Eq)]
pub struct Boundary {
    pub edge: Edge,
    pub period: Period,
    pub shift: Shift,
}

/// A second of the local calendar: a day, in days since 1970-01-01, and a second of it.
#[derive(Clone, Copy, PartialEq, Eq)]
pub struct LocalSecond {
    pub day: i32,
    pub second: u32,
}

/// A date in a query.
#[derive(Clone, Copy, PartialEq, Eq)]
pub enum Term {
    /// The present moment.
    Now,
    /// A date that is written out.
    Literal(LocalSecond),
    /// So many minutes after the present moment, or before it where they are negative.
    FromNow(i32),
    /// The start or the end of the present day, week, month or year.
    PeriodEdge(Boundary),
}

impl Term {
    ghost use Rattle.relative_dates.specs.Term.{moves};

    /// Whether the term goes on with each second, as `now()` and periods do.
    pub fn moves(&self) -> bool
        ensures { result ≡ moves self.now }
    {
        matches!(self, Term::Now | Term::FromNow(_))
    }
}

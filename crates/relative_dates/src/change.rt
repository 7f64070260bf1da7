//! When the comparison of a date term with a mark changes.

ghost use Rattle.std.specs.Prelude.{◌≡◌, ◌↔◌, IsTrue, ℕ, ◌<◌, ◌≤◌, ℤ, pos, ◌≤ℤ◌};
ghost use Rattle.relative_dates.specs.Years.{last_second};
ghost use Rattle.relative_dates.specs.Term.{second, IsTerm};
ghost use Rattle.relative_dates.specs.Change.{compared, IsNextChange};

use crate::calendar::Calendar;
use crate::term::Term;
use std::cmp::Ordering;

/// The last second of the year 2099.
const LAST: u64 = 4_102_444_799;

impl Term {
    /// The least later moment at which the term's second compares with the mark otherwise than at `at`:
    /// less, equal or greater. `None` where there is none up to the last second of 2099.
    ///
    /// The second never falls, so halving finds it: 34 evaluations of the term at most.
    pub fn next(&self, calendar: &Calendar, at: u64, mark: i64) -> Option<u64>
        requires { at ≤ last_second }
        ensures { IsNextChange calendar.now self.now mark at result }
    {
        self.never_falls(calendar);
        let order = self.compared(calendar, at, mark);
        if is_same(self.compared(calendar, LAST, mark), order) {
            return None;
        }
        let mut same = at;
        let mut other = LAST;
        while other - same > 1 {
            let middle = same + (other - same) / 2;
            if is_same(self.compared(calendar, middle, mark), order) {
                same = middle;
            } else {
                other = middle;
            }
        }
        Some(other)
    }

    /// The second of a term never falls as the moment rises.
    pub fn never_falls(&self, calendar: &Calendar)
        ensures { (at later : ℕ) → at ≤ later → later ≤ last_second
            → second calendar.now self.now (pos at) ≤ℤ second calendar.now self.now (pos later) }
    {
        let _ = calendar.first_day();
        self.is_bounded();
    }

    /// A boundary is moved by at most 48,000 months.
    fn is_bounded(&self)
        ensures { IsTerm self.now }
    {
        match self {
            Term::Now | Term::Literal(_) | Term::FromNow(_) => {}
            Term::PeriodEdge(boundary) => {
                let _ = boundary.shift.months.get();
            }
        }
    }

    /// How the term's second compares with a mark.
    fn compared(&self, calendar: &Calendar, at: u64, mark: i64) -> Ordering
        requires { at ≤ last_second }
        ensures { result ≡ compared calendar.now self.now mark at }
    {
        self.at(calendar, at).cmp(&mark)
    }
}

fn is_same(order: Ordering, other: Ordering) -> bool
    ensures { IsTrue result ↔ (order ≡ other) }
{
    order == other
}

//! Calls in a query that stand for a date.

ghost use Rattle.std.specs.Prelude.{◌≡◌, ◌≤◌, ℤ, pos};
ghost use Rattle.std.specs.Option.{option_copied};
ghost use Rattle.relative_dates.specs.Reading.{moved_by, own_amount, shift_of, IsUpTo};
ghost use Rattle.relative_dates.specs.Call.{is_named, function_of, edge_or, answer_of, call_of};

use crate::amount::{self, Amount, Units};
use crate::reading::signed;
use crate::term::{Boundary, Edge, Months, Period, Shift, Term};

/// What a call in a query stands for.
#[derive(Clone, Copy, PartialEq, Eq)]
pub enum TermCall {
    Is(Term),
    /// No function of dates has the name.
    NoSuchName,
    /// The function takes no such argument.
    BadArgument,
}

/// A function that stands for a date.
#[derive(Clone, Copy, PartialEq, Eq)]
pub(crate) enum Function {
    Moment,
    EdgeOf(Edge, Period),
}

impl Term {
    /// What a call with at most one argument stands for: `now()`, and `startOfDay`, `endOfMonth` and
    /// their like, which take an argument such as `-1` or `+1M 2d`. Names ignore ASCII case.
    pub fn call(name: &str, argument: Option<&str>) -> TermCall
        ensures { result ≡ call_of name.now (option_copied argument.entry) }
    {
        match function_named(name) {
            Some(function) => answer(function, argument),
            None => TermCall::NoSuchName,
        }
    }
}

/// A function's answer to its argument.
fn answer(function: Function, argument: Option<&str>) -> TermCall
    ensures { result ≡ answer_of function (option_copied argument.entry) }
{
    match (function, argument) {
        (Function::Moment, None) => TermCall::Is(Term::Now),
        (Function::Moment, Some(_)) => TermCall::BadArgument,
        (Function::EdgeOf(edge, period), None) => edge_or(edge, period, Some(unmoved())),
        (Function::EdgeOf(edge, period), Some(text)) => {
            edge_or(edge, period, shift(period, text.as_bytes()))
        }
    }
}

/// A boundary, where its argument could be read.
fn edge_or(edge: Edge, period: Period, shift: Option<Shift>) -> TermCall
    ensures { result ≡ edge_or edge period shift }
{
    match shift {
        Some(shift) => TermCall::Is(Term::PeriodEdge(Boundary {
            edge,
            period,
            shift,
        })),
        None => TermCall::BadArgument,
    }
}

fn unmoved() -> Shift
    ensures { result ≡ record { months = pos 0; days = pos 0; minutes = pos 0 } }
{
    Shift {
        months: Months::new(0),
        days: 0,
        minutes: 0,
    }
}

/// The function of a name.
#[tactic(auto, unfolding(crate::specs::Call::function_of))]
fn function_named(name: &str) -> Option<Function>
    ensures { result ≡ function_of name.now }
{
    if is_named(name, "now") {
        return Some(Function::Moment);
    }
    if is_named(name, "startOfDay") {
        return Some(Function::EdgeOf(Edge::Start, Period::Day));
    }
    if is_named(name, "startOfWeek") {
        return Some(Function::EdgeOf(Edge::Start, Period::Week));
    }
    if is_named(name, "startOfMonth") {
        return Some(Function::EdgeOf(Edge::Start, Period::Month));
    }
    if is_named(name, "startOfYear") {
        return Some(Function::EdgeOf(Edge::Start, Period::Year));
    }
    if is_named(name, "endOfDay") {
        return Some(Function::EdgeOf(Edge::End, Period::Day));
    }
    if is_named(name, "endOfWeek") {
        return Some(Function::EdgeOf(Edge::End, Period::Week));
    }
    if is_named(name, "endOfMonth") {
        return Some(Function::EdgeOf(Edge::End, Period::Month));
    }
    if is_named(name, "endOfYear") {
        return Some(Function::EdgeOf(Edge::End, Period::Year));
    }
    None
}

fn is_named(name: &str, other: &str) -> bool
    ensures { result ≡ is_named name.now other.now }
{
    name.eq_ignore_ascii_case(other)
}

/// What a function's argument moves its boundary by.
#[tactic(auto, unfolding(crate::specs::Reading::shift_of))]
fn shift(period: Period, text: &[u8]) -> Option<Shift>
    ensures { result ≡ shift_of period text.now }
{
    let rest = amount::after_sign(text);
    let sum = match amount::number_up_to(1000, rest) {
        Some(number) => own_amount(period, number),
        None => amount::terms(4, Units::Calendar, rest)?,
    };
    Some(moved_by(amount::is_negative(text), sum))
}

/// So many of a function's own period.
fn own_amount(period: Period, number: u32) -> Amount
    requires { number ≤ 1000 }
    ensures value { result ≡ own_amount period number }
    ensures bound { IsUpTo 4 result }
{
    let (months, days) = match period {
        Period::Day => (0, number),
        Period::Week => (0, 7 * number),
        Period::Month => (number, 0),
        Period::Year => (12 * number, 0),
    };
    Amount {
        months,
        days,
        minutes: 0,
    }
}

fn moved_by(negative: bool, sum: Amount) -> Shift
    requires { IsUpTo 4 sum }
    ensures { result ≡ moved_by negative sum }
{
    Shift {
        months: Months::new(signed(negative, sum.months)),
        days: signed(negative, sum.days),
        minutes: signed(negative, sum.minutes),
    }
}

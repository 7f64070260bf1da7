//! Values from outside: worked rows.

use relative_dates::*;
use std::alloc::Global;

/// Berlin's clock from October 2023 to October 2024.
fn berlin_2024(alloc: Global) -> Option<Calendar> {
    let mut calendar = Calendar::new(alloc, 60, 1);
    if calendar.add_step(1_711_846_800, 120).is_err() {
        return None;
    }
    if calendar.add_step(1_729_990_800, 60).is_err() {
        return None;
    }
    Some(calendar)
}

/// The clock leaves out the hour from 2 to 3 on 31 March, and has the one from 2 to 3 twice in October.
const LITERALS: [(&str, i64); 7] = [
    ("2024-03-31", 1_711_839_600),
    ("2024-03-31 02:30", 1_711_846_800),
    ("2024-04-01", 1_711_922_400),
    ("2024-10-27 02:30", 1_729_989_000),
    ("2024/10/27 03:00", 1_729_994_400),
    ("1000-01-01", -30_610_227_600),
    ("9998/12/31 23:59", 253_370_761_140),
];

fn means(calendar: &Calendar, text: &str, second: i64) -> bool {
    match Term::read(text) {
        Some(term) => { term.at(calendar, 0) == second && term.next(calendar, 0, second) == None }
        None => false,
    }
}

fn mean_local_seconds(alloc: Global) -> Option<bool> {
    let calendar = berlin_2024(alloc)?;
    for &(text, second) in &LITERALS {
        if !means(&calendar, text, second) {
            return Some(false);
        }
    }
    Some(true)
}

#[test]
fn literals_mean_local_seconds(rt: HostRuntime) {
    let passes = mean_local_seconds(rt.alloc()) == Some(true);
    assert!(rt; passes);
}

/// Periods and the seconds at which they are a thousand seconds after the first moment.
const PERIODS: [(&str, i64); 6] = [
    ("-5d", -431_000),
    ("+1w", 605_800),
    ("0m", 1_000),
    ("1000w 1000w 1000w 1000w", 2_419_201_000),
    ("-1w 2d 3h 4m", -787_640),
    ("007d", 605_800),
];

fn is_period(calendar: &Calendar, text: &str, second: i64) -> bool {
    match Term::read(text) {
        Some(term) => term.at(calendar, 1_000) == second && term.moves(),
        None => false,
    }
}

fn are_periods(calendar: &Calendar) -> bool {
    for &(text, second) in &PERIODS {
        if !is_period(calendar, text, second) {
            return false;
        }
    }
    true
}

#[test]
fn periods_are_read_with_their_sign(rt: HostRuntime) {
    let passes = are_periods(&Calendar::new(rt.alloc(), 0, 1));
    assert!(rt; passes);
}

const NO_TERMS: [&str; 28] = [
    "",
    "+",
    "5",
    "5D",
    "1001d",
    "1d  2h",
    " 1d",
    "1d ",
    "1y",
    "1M",
    "1d 1d 1d 1d 1d",
    "-+1d",
    "2024-02-30",
    "2023-02-29",
    "1900-02-29",
    "2024-13-01",
    "2024-00-01",
    "2024-01-00",
    "0999-12-31",
    "9999-01-01",
    "2024/01-01",
    "2024-1-01",
    "2024-01-01T00:00",
    "2024-01-01 24:00",
    "2024-01-01 23:60",
    "2024-01-01 2:00",
    "now()",
    "+024-01-01",
];

const LEAP_DAYS: [&str; 5] = [
    "2024-02-29",
    "2000-02-29",
    "1600/02/29",
    "2023-02-28",
    "2024-12-31",
];

/// Whether each of the texts is a term, or none of them is.
fn are_terms(texts: &[&str], are: bool) -> bool {
    for text in texts {
        if Term::read(text).is_some() != are {
            return false;
        }
    }
    true
}

#[test]
fn other_texts_are_no_terms(rt: HostRuntime) {
    let passes = are_terms(&NO_TERMS, false);
    assert!(rt; passes);
}

#[test]
fn leap_days_are_dates(rt: HostRuntime) {
    let passes = are_terms(&LEAP_DAYS, true);
    assert!(rt; passes);
}

const NO_CALLS: [&str; 5] = ["startOfHour", "startOf", "today", "", "now()"];

const BAD_ARGUMENTS: [&str; 8] = [
    "",
    "x",
    "1001",
    "1s",
    "1d1h",
    "+-1",
    "1d 2",
    "1y 1y 1y 1y 1y",
];

fn are_no_calls() -> bool {
    for name in &NO_CALLS {
        if Term::call(name, None) != TermCall::NoSuchName {
            return false;
        }
    }
    true
}

fn are_bad_arguments() -> bool {
    for argument in &BAD_ARGUMENTS {
        if Term::call("endofWEEK", Some(argument)) != TermCall::BadArgument {
            return false;
        }
    }
    true
}

#[test]
fn calls_are_named_whatever_their_case(rt: HostRuntime) {
    let passes = Term::call("NOW", None) == TermCall::Is(Term::Now)
        && Term::call("now", Some("")) == TermCall::BadArgument
        && are_no_calls()
        && are_bad_arguments();
    assert!(rt; passes);
}

/// The second of a call that stands for a term.
fn second_of(calendar: &Calendar, name: &str, argument: &str, at: u64) -> Option<i64> {
    if at > 4_102_444_799 {
        return None;
    }
    Some(term_of(name, argument)?.at(calendar, at))
}

pub(crate) fn term_of(name: &str, argument: &str) -> Option<Term> {
    let argument = if argument.is_empty() {
        None
    } else {
        Some(argument)
    };
    match Term::call(name, argument) {
        TermCall::Is(term) => Some(term),
        _ => None,
    }
}

/// A function, its argument, a moment, and the second that is meant then.
const MONTHS: [(&str, &str, u64, i64); 8] = [
    ("startOfDay", "+1M", 1_706_702_400, 1_709_164_800),
    ("startOfDay", "1M", 1_675_166_400, 1_677_542_400),
    ("startOfDay", "-1y", 1_709_208_000, 1_677_542_400),
    ("startOfMonth", "+1M", 1_709_251_199, 1_709_251_200),
    ("startOfMonth", "+1M", 1_709_251_200, 1_711_929_600),
    ("endOfMonth", "", 1_706_702_400, 1_706_745_599),
    ("endOfYear", "1", 1_735_646_400, 1_767_225_599),
    ("startOfYear", "1d 1h", 1_735_646_400, 1_704_157_200),
];

fn are_cut(calendar: &Calendar) -> bool {
    for &(name, argument, at, second) in &MONTHS {
        if second_of(calendar, name, argument, at) != Some(second) {
            return false;
        }
    }
    true
}

#[test]
fn months_are_cut_to_their_length(rt: HostRuntime) {
    let passes = are_cut(&Calendar::new(rt.alloc(), 0, 1));
    assert!(rt; passes);
}

fn ends_across_a_step(alloc: Global) -> Option<bool> {
    let calendar = berlin_2024(alloc)?;
    Some(
        second_of(&calendar, "endOfDay", "", 1_711_843_200) == Some(1_711_922_399)
            && calendar.day_of(1_711_839_599) == 19_812
            && calendar.day_of(1_711_839_600) == 19_813
            && calendar.start_of(19_814) == 1_711_922_400,
    )
}

#[test]
fn a_day_ends_across_a_step(rt: HostRuntime) {
    let passes = ends_across_a_step(rt.alloc()) == Some(true);
    assert!(rt; passes);
}

/// The day with which weeks begin, from Monday, and the second at which one of them does.
const WEEKS: [(u8, i64); 7] = [
    (1, 1_709_510_400),
    (2, 1_709_596_800),
    (3, 1_709_683_200),
    (4, 1_709_164_800),
    (5, 1_709_251_200),
    (6, 1_709_337_600),
    (7, 1_709_424_000),
];

fn begins(alloc: Global, first_day: u8, second: i64) -> bool {
    if first_day < 1 || 7 < first_day {
        return false;
    }
    let calendar = Calendar::new(alloc, 0, first_day);
    second_of(&calendar, "startOfWeek", "", 1_709_726_400) == Some(second)
}

fn begin(alloc: Global) -> bool {
    for &(first_day, second) in &WEEKS {
        if !begins(alloc, first_day, second) {
            return false;
        }
    }
    true
}

#[test]
fn weeks_begin_on_each_day(rt: HostRuntime) {
    let passes = begin(rt.alloc());
    assert!(rt; passes);
}

/// A term, a moment, what it is compared with, and the next moment at which that comes out otherwise.
const CHANGES: [(&str, u64, i64, Option<u64>); 4] = [
    ("2024-03-02", 1_709_251_200, 1_709_251_200, None),
    ("-5d", 1_709_254_800, 1_709_254_799, Some(1_709_686_799)),
    ("-5d", 1_709_686_799, 1_709_254_799, Some(1_709_686_800)),
    ("-5d", 1_709_686_800, 1_709_254_799, None),
];

fn changes_at(calendar: &Calendar, term: &Term, at: u64, mark: i64, change: Option<u64>) -> bool {
    if at > 4_102_444_799 {
        return false;
    }
    term.next(calendar, at, mark) == change
}

fn change_as_in_the_rows(calendar: &Calendar) -> Option<bool> {
    for &(text, at, mark, change) in &CHANGES {
        let term = Term::read(text)?;
        if !changes_at(calendar, &term, at, mark, change) {
            return Some(false);
        }
    }
    Some(true)
}

fn calls_change(calendar: &Calendar) -> Option<bool> {
    let now = Term::Now;
    let last = 4_102_444_799;
    let month = term_of("startOfMonth", "+1M")?;
    Some(
        changes_at(calendar, &now, 4_102_444_798, last, Some(4_102_444_799))
            && changes_at(calendar, &now, 4_102_444_799, last, None)
            && changes_at(
                calendar,
                &month,
                1_709_251_199,
                1_711_843_200,
                Some(1_709_251_200),
            ),
    )
}

#[test]
fn comparisons_change_at_the_least_later_moment(rt: HostRuntime) {
    let calendar = Calendar::new(rt.alloc(), 0, 1);
    let passes = change_as_in_the_rows(&calendar) == Some(true)
        && calls_change(&calendar) == Some(true);
    assert!(rt; passes);
}

/// Two minutes past midnight on 27 October the clock would turn back to the day before.
fn refuses_steps(calendar: &mut Calendar) -> bool {
    calendar.add_step(1_711_846_800, 120) == Ok(())
        && calendar.add_step(1_711_846_800, 60) == Err(StepFault::NotLater)
        && calendar.add_step(1_729_981_800, 60) == Err(StepFault::DayGoesBack)
        && calendar.add_step(1_729_990_800, 60) == Ok(())
}

/// Takes the other 398 of the 400 steps that a calendar has at most.
fn is_filled(calendar: &mut Calendar) -> bool {
    for k in 2..400 {
        if calendar.add_step(1_730_000_000 + k, 60) != Ok(()) {
            return false;
        }
    }
    true
}

fn refuses_more(calendar: &mut Calendar) -> bool {
    calendar.add_step(1_730_000_000, 60) == Err(StepFault::NotLater)
        && calendar.add_step(1_730_001_000, -840) == Err(StepFault::DayGoesBack)
        && calendar.add_step(1_730_001_000, 60) == Err(StepFault::Full)
}

#[test]
fn steps_are_refused_in_their_order(rt: HostRuntime) {
    let mut calendar = Calendar::new(rt.alloc(), 60, 1);
    let passes = refuses_steps(&mut calendar)
        && is_filled(&mut calendar)
        && refuses_more(&mut calendar);
    assert!(rt; passes);
}

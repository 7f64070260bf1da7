//! Reading date literals and periods.

ghost use Rattle.std.specs.Prelude.{◌≡◌, ◌+◌, ◌*◌, ◌≤◌, IfSome, length, ℤ, pos, neg_ℤ, ◌≤ℤ◌};
ghost use Rattle.jiff_core.specs.Calendar.{IsBetween};
ghost use Rattle.relative_dates.specs.Reading.{day_number, date_of, time_of, literal_of, period_of, signed, read_term, has_separators};

use crate::amount::{self, Units};
use crate::term::{LocalSecond, Term};
use jiff_core::civil::{self, Date};

impl Term {
    /// Reads a date literal, as `2024-03-01 12:30` or `2024/03/01`, or a period, as `-1w 2d`.
    /// `None` where the text is neither.
    pub fn read(text: &str) -> Option<Term>
        ensures { result ≡ read_term text.now }
    {
        let text = text.as_bytes();
        if let Some(local) = literal(text) {
            return Some(Term::Literal(local));
        }
        match period(text) {
            Some(minutes) => Some(Term::FromNow(minutes)),
            None => None,
        }
    }
}

/// A day, and a minute of it or its first second.
#[tactic(auto, unfolding(crate::specs::Reading::literal_of))]
fn literal(text: &[u8]) -> Option<LocalSecond>
    ensures { result ≡ literal_of text.now }
{
    if text.len() == 10 {
        let day = date(text)?;
        return Some(LocalSecond { day, second: 0 });
    }
    if text.len() == 16 {
        let day = date(text)?;
        let second = time(text)?;
        return Some(LocalSecond { day, second });
    }
    None
}

/// The day that the first ten bytes write.
#[tactic(auto, unfolding(crate::specs::Reading::date_of))]
fn date(text: &[u8]) -> Option<i32>
    requires { 10 ≤ length text.now }
    ensures { result ≡ date_of text.now }
{
    if !has_separators(text) {
        return None;
    }
    let year = amount::number_up_to(9998, &text[0..4])?;
    let month = amount::number_up_to(12, &text[5..7])?;
    let day = amount::number_up_to(31, &text[8..10])?;
    day_number(year, month, day)
}

/// Two hyphens or two slashes.
fn has_separators(text: &[u8]) -> bool
    requires { 10 ≤ length text.now }
    ensures { result ≡ has_separators text.now }
{
    (text[4] == b'-' || text[4] == b'/') && text[7] == text[4]
}

/// The number of a day of the years from 1000 on, if the calendar has it.
fn day_number(year: u32, month: u32, day: u32) -> Option<i32>
    requires year { year ≤ 9998 }
    requires month { month ≤ 12 }
    requires day { day ≤ 31 }
    ensures { result ≡ day_number year month day }
{
    let (year, month, day) = (year as i16, month as u8, day as u8);
    if year < 1000 || month < 1 || day < 1 || day > civil::days_in_month(year, month) {
        return None;
    }
    Some(Date { year, month, day }.to_unix_epoch_day())
}

/// The second of the day that the last five of sixteen bytes write.
#[tactic(auto, unfolding(crate::specs::Reading::time_of))]
fn time(text: &[u8]) -> Option<u32>
    requires { 16 ≤ length text.now }
    ensures { result ≡ time_of text.now }
{
    if text[10] != b' ' || text[13] != b':' {
        return None;
    }
    let hour = amount::number_up_to(23, &text[11..13])?;
    let minute = amount::number_up_to(59, &text[14..16])?;
    Some(3600 * hour + 60 * minute)
}

/// The minutes of a period.
#[tactic(auto, unfolding(crate::specs::Reading::period_of))]
fn period(text: &[u8]) -> Option<i32>
    ensures { result ≡ period_of text.now }
{
    let sum = amount::terms(4, Units::Clock, amount::after_sign(text))?;
    Some(signed(amount::is_negative(text), 1440 * sum.days + sum.minutes))
}

/// A number with its sign.
pub(crate) fn signed(negative: bool, number: u32) -> i32
    requires { number ≤ 100_000_000 }
    ensures value { result ≡ signed negative number }
    ensures bound { IsBetween (neg_ℤ (pos number)) (pos number) result }
{
    if negative {
        -(number as i32)
    } else {
        number as i32
    }
}

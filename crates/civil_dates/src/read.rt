//! Reading the text of a day.
ghost use Rattle.std.specs.Prelude.{◌≡◌, ◌≤◌, ◌+◌, length, true, IfSome};
ghost use Rattle.civil_dates.specs.Reading.{part_of, day_by, has_date_form, day_of};
ghost use Rattle.civil_dates.specs.Days.{is_day};

use field_values::digits::{are_digits, value_of_digits};
use jiff_core::civil::{Date, days_in_month};

/// The number that so many digits from a place on write.
fn part_of(from: usize, count: usize, text: &[u8]) -> Option<u16>
    requires inside { from + count ≤ length text.now }
    requires few { count ≤ 4 }
    ensures value { result ≡ part_of from count text.now }
    ensures small { IfSome result (λ n. n ≤ 9_999) }
{
    let digits = &text[from..from + count];
    if !are_digits(digits) {
        return None;
    }
    Some(value_of_digits(digits) as u16)
}

/// The day of a year, a month and a day of the month, if the calendar has it.
fn day_by(year: Option<u16>, month: Option<u16>, day: Option<u16>) -> Option<i32>
    ensures { result ≡ day_by year month day }
{
    let (Some(year), Some(month), Some(day)) = (year, month, day) else {
        return None;
    };
    if year < 1970 || 2099 < year || month < 1 || 12 < month || day < 1 || 31 < day {
        return None;
    }
    if u16::from(days_in_month(year as i16, month as u8)) < day {
        return None;
    }
    let date = Date {
        year: year as i16,
        month: month as u8,
        day: day as u8,
    };
    Some(date.to_unix_epoch_day())
}

fn has_date_form(text: &[u8]) -> bool
    ensures { result ≡ has_date_form text.now }
{
    text.len() == 10 && text[4] == b'-' && text[7] == b'-'
}

/// The day that a text writes as yyyy-MM-dd, if it writes one of the years 1970 to 2099.
#[tactic(auto, using(crate::proofs::Texts::read_within), unfolding(crate::specs::Reading::day_of))]
pub fn day_of(text: &str) -> Option<i32>
    ensures value { result ≡ day_of text.now }
    ensures within { IfSome result (λ day. is_day day ≡ true) }
{
    let bytes = text.as_bytes();
    if !has_date_form(bytes) {
        return None;
    }
    day_by(
        part_of(0, 4, bytes),
        part_of(5, 2, bytes),
        part_of(8, 2, bytes),
    )
}

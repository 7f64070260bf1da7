//! Days of the civil calendar by number, where day 0 is 1970-01-01.

ghost use Rattle.std.specs.Prelude.{◌≡◌, ◌≤◌, ℤ, pos, neg_ℤ, ◌+ℤ◌, ◌-ℤ◌, ◌≤ℤ◌};
ghost use Rattle.jiff_core.specs.Calendar.{IsBetween, IsWithin, IsEpochDay};
ghost use Rattle.jiff_core.specs.Date.{epoch_day};
ghost use Rattle.relative_dates.specs.Civil.{month_begin, year_begin, week_begin, months_later};

use jiff_core::civil::Date;
use jiff_span::date;

/// The date of a day.
fn date_of(day: i32) -> Date
    requires { IsEpochDay day }
    ensures { epoch_day result ≡ day }
{
    Date::from_days_since_min((day + 4_371_587) as u32)
}

/// The first day of the day's month.
pub(crate) fn month_begin(day: i32) -> i32
    requires { IsBetween (neg_ℤ (pos 200_000)) (pos 300_000) day }
    ensures value { result ≡ month_begin day }
    ensures near { IsBetween (day -ℤ pos 30) day result }
{
    let date = date_of(day);
    let first = Date {
        year: date.year,
        month: date.month,
        day: 1,
    };
    first.to_unix_epoch_day()
}

/// The first day of the day's year.
pub(crate) fn year_begin(day: i32) -> i32
    requires { IsBetween (neg_ℤ (pos 200_000)) (pos 300_000) day }
    ensures value { result ≡ year_begin day }
    ensures near { IsBetween (day -ℤ pos 365) day result }
{
    let first = Date {
        year: date_of(day).year,
        month: 1,
        day: 1,
    };
    first.to_unix_epoch_day()
}

/// The day that many months later, cut to the month's length.
pub(crate) fn months_later(day: i32, months: i32) -> i32
    requires day { IsBetween (neg_ℤ (pos 200_000)) (pos 300_000) day }
    requires months { IsWithin 48_000 months }
    ensures value { result ≡ months_later day months }
    ensures bound { IsEpochDay result }
{
    match date::add_months(date_of(day), months) {
        Ok(later) => later.to_unix_epoch_day(),
        Err(_) => unreachable!(),
    }
}

/// The last day at or before the day on which a week begins.
pub(crate) fn week_begin(first_day: u8, day: i32) -> i32
    requires day { IsBetween (neg_ℤ (pos 200_000)) (pos 300_000) day }
    requires first_day { first_day ≤ 7 }
    ensures value { result ≡ week_begin first_day day }
    ensures near { IsBetween (day -ℤ pos 6) day result }
{
    let weekday = date_of(day).weekday().index();
    day - i32::from((weekday + 8 - first_day) % 7)
}

//! Writing the text of a day.
ghost use Rattle.std.specs.Prelude.{◌≡◌, ◌<◌, ◌+◌, ◌++◌, [], ◌∷◌, true, pos, IfOk, OnOk, string_bytes};
ghost use Rattle.jiff_core.specs.Date.{epoch_day};
ghost use Rattle.civil_dates.specs.Days.{is_day, year_of, month_of, day_of_month};
ghost use Rattle.civil_dates.specs.DateText.{two_digits, four_digits, text_of_date, date_text};

use jiff_core::civil::Date;
use std::alloc::{AllocError, Global};

fn digit_char(digit: u8) -> char
    requires { digit < 10 }
    ensures { result ≡ 48 + digit }
{
    char::from(b'0' + digit)
}

/// Writes a number in two digits behind a text.
fn push_two_digits(text: &mut String, number: u8) -> Result<(), AllocError>
    requires { number < 100 }
    ensures { OnOk result (string_bytes text.new ≡ string_bytes text.old ++ two_digits number) }
{
    text.push(digit_char(number / 10))?;
    text.push(digit_char(number % 10))
}

/// Writes a number in four digits behind a text.
fn push_four_digits(text: &mut String, number: u16) -> Result<(), AllocError>
    requires { number < 10_000 }
    ensures { OnOk result (string_bytes text.new ≡ string_bytes text.old ++ four_digits number) }
{
    push_two_digits(text, (number / 100) as u8)?;
    push_two_digits(text, (number % 100) as u8)
}

/// Writes a date behind a text.
fn push_date(text: &mut String, year: u16, month: u8, day: u8) -> Result<(), AllocError>
    requires year { year < 10_000 }
    requires month { month < 100 }
    requires day { day < 100 }
    ensures { OnOk result (string_bytes text.new
        ≡ string_bytes text.old ++ text_of_date year month day) }
{
    push_four_digits(text, year)?;
    text.push('-')?;
    push_two_digits(text, month)?;
    text.push('-')?;
    push_two_digits(text, day)
}

/// The date of a day.
fn date_of(day: i32) -> Date
    requires { is_day day ≡ true }
    ensures date { epoch_day result ≡ day }
    ensures year { result.year ≡ pos (year_of day) }
    ensures month { result.month ≡ month_of day }
    ensures day { result.day ≡ day_of_month day }
{
    Date::from_days_since_min((day + 4_371_587) as u32)
}

/// Writes the text of a day, ten bytes as yyyy-MM-dd, behind a text.
#[tactic(auto, unfolding(crate::specs::DateText::date_text))]
pub fn push_date_text(text: &mut String, day: i32) -> Result<(), AllocError>
    requires { is_day day ≡ true }
    ensures { OnOk result (string_bytes text.new ≡ string_bytes text.old ++ date_text day) }
{
    let date = date_of(day);
    push_date(text, date.year as u16, date.month, date.day)
}

/// The text of a day, as yyyy-MM-dd.
pub fn date_text(alloc: Global, day: i32) -> Result<String, AllocError>
    requires { is_day day ≡ true }
    ensures { IfOk result (λ text. string_bytes text ≡ date_text day) }
{
    let mut text = String::with_capacity(alloc, 10)?;
    push_date_text(&mut text, day)?;
    Ok(text)
}

//! Which days there are.
ghost use Rattle.std.specs.Prelude.{◌≡◌};
ghost use Rattle.civil_dates.specs.Days.{is_day};

use field_values::Day;

/// Whether it is a day of the years 1970 to 2099.
pub fn is_day(day: i32) -> bool
    ensures { result ≡ is_day day }
{
    0 <= day && day <= Day::LAST.0
}

//! Amounts of time as a query writes them, such as `1w 2d`.

ghost use Rattle.std.specs.Prelude.{◌≡◌, ◌+◌, ◌*◌, ◌<◌, ◌≤◌, IfSome, Some, ℕ, length};
ghost use Rattle.relative_dates.specs.Reading.{number_up_to, months_of, amount_of, term_of, terms_of, plus, first_space, is_negative, after_sign, IsUpTo};

/// The units of an amount.
#[derive(Clone, Copy, PartialEq, Eq)]
pub(crate) enum Units {
    /// Weeks, days, hours and minutes.
    Clock,
    /// Years and months too.
    Calendar,
}

/// Months, days and minutes, each counted on its own.
#[derive(Clone, Copy, PartialEq, Eq)]
pub(crate) struct Amount {
    pub months: u32,
    pub days: u32,
    pub minutes: u32,
}

impl Amount {
    fn plus(self, other: Amount) -> Amount
        requires this { IsUpTo 10 self }
        requires other { IsUpTo 10 other }
        ensures { result ≡ plus self other }
    {
        Amount {
            months: self.months + other.months,
            days: self.days + other.days,
            minutes: self.minutes + other.minutes,
        }
    }
}

/// One term or more, up to `most`, with one space between them.
pub(crate) fn terms(most: u32, units: Units, text: &[u8]) -> Option<Amount>
    requires { most ≤ 4 }
    ensures value { result ≡ terms_of most units text.now }
    ensures bound { IfSome result (IsUpTo most) }
{
    if most == 0 {
        return None;
    }
    let end = first_space(text);
    if end == text.len() {
        return term(units, text);
    }
    let first = term(units, &text[..end])?;
    let rest = terms(most - 1, units, &text[end + 1..])?;
    Some(first.plus(rest))
}

/// Where the first space stands, or the text's length.
fn first_space(text: &[u8]) -> usize
    ensures value { result ≡ first_space text.now }
    ensures bound { result ≤ length text.now }
{
    for (i, b) in text.iter().enumerate() {
        if *b == b' ' {
            return i;
        }
    }
    text.len()
}

/// Digits of a number up to 1000, and a unit's letter.
#[tactic(auto, unfolding(crate::specs::Reading::term_of))]
fn term(units: Units, text: &[u8]) -> Option<Amount>
    ensures value { result ≡ term_of units text.now }
    ensures bound { IfSome result (IsUpTo 1) }
{
    let length = text.len();
    if length == 0 {
        return None;
    }
    let count = number_up_to(1000, &text[..length - 1])?;
    counted(units, text[length - 1], count)
}

/// An amount by its unit's letter.
#[tactic(auto, unfolding(crate::specs::Reading::amount_of))]
fn counted(units: Units, letter: u8, count: u32) -> Option<Amount>
    requires { count ≤ 1000 }
    ensures value { result ≡ amount_of units letter count }
    ensures bound { IfSome result (IsUpTo 1) }
{
    match letter {
        b'w' => Some(days(7 * count)),
        b'd' => Some(days(count)),
        b'h' => Some(minutes(60 * count)),
        b'm' => Some(minutes(count)),
        b'y' => months(units, 12 * count),
        b'M' => months(units, count),
        _ => None,
    }
}

fn days(count: u32) -> Amount
    ensures { result ≡ record { months = 0; days = count; minutes = 0 } }
{
    Amount {
        months: 0,
        days: count,
        minutes: 0,
    }
}

fn minutes(count: u32) -> Amount
    ensures { result ≡ record { months = 0; days = 0; minutes = count } }
{
    Amount {
        months: 0,
        days: 0,
        minutes: count,
    }
}

fn months(units: Units, count: u32) -> Option<Amount>
    ensures { result ≡ months_of units count }
{
    match units {
        Units::Clock => None,
        Units::Calendar => Some(Amount {
            months: count,
            days: 0,
            minutes: 0,
        }),
    }
}

/// A number that decimal digits write, if it is at most `most`.
pub(crate) fn number_up_to(most: u32, text: &[u8]) -> Option<u32>
    requires { most < 10_000 }
    ensures value { result ≡ number_up_to most text.now }
    ensures bound { IfSome result (λ n. n ≤ most) }
{
    if text.is_empty() {
        return None;
    }
    // Numbers from 10,000 on are all too large, whatever digits follow.
    let mut number: u32 = 0;
    for digit in text {
        if !digit.is_ascii_digit() {
            return None;
        }
        number = (10 * number + u32::from(*digit - b'0')).min(10_000);
    }
    if number <= most { Some(number) } else { None }
}

/// Whether a text begins with a minus sign.
pub(crate) fn is_negative(text: &[u8]) -> bool
    ensures { result ≡ is_negative text.now }
{
    match text.first() {
        Some(first) => *first == b'-',
        None => false,
    }
}

/// The text without the sign before it.
pub(crate) fn after_sign(text: &[u8]) -> &[u8]
    ensures { result.now ≡ after_sign text.now }
{
    match text.split_first() {
        Some((b'-' | b'+', rest)) => rest,
        _ => text,
    }
}

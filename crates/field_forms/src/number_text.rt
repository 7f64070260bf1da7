// Numbers in thousandths, and their texts.
ghost use Rattle.std.specs.Prelude.{◌≡◌, ◌≤◌, ◌<◌, length, string_bytes, IfOk, ◌==◌, ◌++◌};
ghost use Rattle.std.specs.Prelude.{position, IfSome, OnOk, decimal};
ghost use Rattle.field_forms.specs.Numbers.{is_numeral, whole_of, fraction_of, sum_of, size_of};
ghost use Rattle.field_forms.specs.Numbers.{number_of, number_text, fraction_text};

use field_values::digits::{are_digits, value_of_digits};
use field_values::memory::Memory;
use field_values::text::Text;
use std::alloc::{AllocError, Global};

pub(crate) fn is_numeral(most: usize, bytes: &[u8]) -> bool
    ensures { result ≡ is_numeral most bytes.now }
{
    1 <= bytes.len() && bytes.len() <= most && are_digits(bytes)
}

/// The digits before the point, in thousandths.
fn whole_of(digits: &[u8]) -> Option<u64>
    ensures value { result ≡ whole_of digits.now }
    ensures small { IfSome result (λ n. n ≤ 999_999_999_000) }
{
    if !is_numeral(9, digits) {
        return None;
    }
    Some(1000 * value_of_digits(digits))
}

/// The digits after the point, in thousandths.
fn fraction_of(digits: &[u8]) -> Option<u64>
    ensures value { result ≡ fraction_of digits.now }
    ensures small { IfSome result (λ n. n ≤ 999) }
{
    if !is_numeral(3, digits) {
        return None;
    }
    let value = value_of_digits(digits);
    Some(match digits.len() {
        1 => value * 100,
        2 => value * 10,
        _ => value,
    })
}

fn point_in(text: &[u8]) -> Option<usize>
    ensures value { result ≡ position (λ b. b == 46) text.now }
    ensures within { IfSome result (λ place. place < length text.now) }
{
    text.iter().position(|byte| *byte == 46)
}

fn sum_of(whole: Option<u64>, fraction: Option<u64>) -> Option<u64>
    requires whole { IfSome whole (λ n. n ≤ 999_999_999_000) }
    requires fraction { IfSome fraction (λ n. n ≤ 999) }
    ensures value { result ≡ sum_of whole fraction }
    ensures small { IfSome result (λ n. n ≤ 999_999_999_999) }
{
    match (whole, fraction) {
        (Some(whole), Some(fraction)) => Some(whole + fraction),
        _ => None,
    }
}

/// The size of the number that digits with at most one point among them write, in thousandths.
#[tactic(auto, unfolding(crate::specs::Numbers::size_of))]
fn size_of(text: &[u8]) -> Option<u64>
    ensures value { result ≡ size_of text.now }
    ensures small { IfSome result (λ n. n ≤ 999_999_999_999) }
{
    match point_in(text) {
        None => whole_of(text),
        Some(place) => {
            let (whole, rest) = text.split_at(place);
            sum_of(whole_of(whole), fraction_of(&rest[1..]))
        }
    }
}

/// The number that a text writes, in thousandths.
#[tactic(auto, unfolding(crate::specs::Numbers::number_of))]
pub(crate) fn number_of(text: &str) -> Option<i64>
    ensures { result ≡ number_of text.now }
{
    let bytes = text.as_bytes();
    if !bytes.is_empty() && bytes[0] == 45 {
        match size_of(&bytes[1..]) {
            Some(size) => Some(-(size as i64)),
            None => None,
        }
    } else {
        match size_of(bytes) {
            Some(size) => Some(size as i64),
            None => None,
        }
    }
}

/// Writes thousandths after the point, without zeros at their end, behind a text.
fn push_fraction(text: &mut String, thousandths: u64) -> Result<(), AllocError>
    requires { thousandths < 1000 }
    ensures { OnOk result (string_bytes text.new
        ≡ string_bytes text.old ++ fraction_text thousandths) }
{
    let tenths = thousandths / 100;
    let hundredths = thousandths / 10 % 10;
    let last = thousandths % 10;
    if thousandths == 0 {
        Ok(())
    } else if thousandths % 100 == 0 {
        write!(text, ".{tenths}")
    } else if thousandths % 10 == 0 {
        write!(text, ".{tenths}{hundredths}")
    } else {
        write!(text, ".{tenths}{hundredths}{last}")
    }
}

/// The whole number that so many thousandths are; `None` where it has a sign or a fraction. Most numbers have neither, and the
/// text of one takes no memory.
#[tactic(auto, unfolding(crate::specs::Numbers::number_text))]
pub fn whole_in(number: i64) -> Option<u64>
    ensures { IfSome result (λ whole. number_text number ≡ decimal whole) }
{
    let size = number.unsigned_abs();
    if number < 0 || size % 1000 != 0 {
        return None;
    }
    Some(size / 1000)
}

/// Writes the shortest text of the number of thousandths behind a text.
#[tactic(auto, unfolding(crate::specs::Numbers::number_text))]
pub fn push_number_text(text: &mut String, number: i64) -> Result<(), AllocError>
    ensures { OnOk result (string_bytes text.new ≡ string_bytes text.old ++ number_text number) }
{
    let size = number.unsigned_abs();
    let whole = size / 1000;
    let sign = if number < 0 { "-" } else { "" };
    write!(text, "{sign}{whole}")?;
    push_fraction(text, size % 1000)
}

/// The shortest text that writes the number of thousandths.
pub(crate) fn number_text(alloc: Global, number: i64) -> Result<Text, Memory>
    ensures { IfOk result (λ text. text ≡ number_text number) }
{
    let mut text = String::new(alloc);
    push_number_text(&mut text, number)?;
    Ok(Text::of(text))
}

// Numbers that digits write.
ghost use Rattle.std.specs.Prelude.{◌≡◌, ◌≤◌, min, true};
ghost use Rattle.std.specs.List.{list_all};
ghost use Rattle.field_values.specs.Digits.{is_digit, read_on};
ghost use Rattle.tracker_http.specs.Numbers.{is_number, within, number_within};

use field_values::digits::are_digits;

/// Whether the text is a number.
pub fn is_number(text: &[u8]) -> bool
    ensures { result ≡ is_number text.now }
{
    !text.is_empty() && are_digits(text)
}

/// The number that the digits write, or the bound, where it is less.
#[tactic(auto, using(crate::proofs::Numerals::written_next))]
pub fn written(digits: &[u8], bound: u64) -> u64
    requires bound { bound ≤ 4294967296 }
    requires digits { list_all is_digit digits.now ≡ true }
    ensures { result ≡ min (read_on 0 digits.now) bound }
{
    let mut value = 0u64;
    for digit in digits {
        value = (10 * value + u64::from(*digit - b'0')).min(bound);
    }
    value
}

// A number between bounds.
fn within(number: u64, least: u32, most: u32) -> Option<u32>
    ensures { result ≡ within least most number }
{
    if u64::from(least) <= number && number <= u64::from(most) {
        return Some(number as u32);
    }
    None
}

// One more than the greatest number.
const PAST_ALL: u64 = 4_294_967_296;

/// The number between bounds that the text writes.
#[tactic(auto, using(crate::proofs::Numerals::within_written))]
pub fn number_within(text: &[u8], least: u32, most: u32) -> Option<u32>
    ensures { result ≡ number_within least most text.now }
{
    if !is_number(text) {
        return None;
    }
    within(written(text, PAST_ALL), least, most)
}

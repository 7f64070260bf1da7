// Numbers by their digits, however many.
ghost use Rattle.std.specs.Prelude.{◌≡◌, ◌≤◌, ◌+◌, ◌*◌, ◌-◌, ◌^◌, min};
ghost use Rattle.std.specs.Ordering.{nat_cmp};
ghost use Rattle.jql_meaning.specs.Order.{number_in};
ghost use Rattle.jql_eval.specs.Numbers.{digit_before, lead};

use std::cmp::Ordering;

/// A lead that further digits can't make good; one of 24 is enough.
const SAFE: u64 = 1_000;

/// One more than the greatest number of 32 bits.
const BEYOND: u64 = 4_294_967_296;

/// The number that the digits write, as far as 2^32.
pub(crate) fn number_in(digits: &[u8]) -> u64
    ensures { result ≡ min (number_in digits.now) (2 ^ 32) }
{
    let mut number = 0;
    for digit in digits {
        number = (10 * number + u64::from(digit.saturating_sub(b'0'))).min(BEYOND);
    }
    number
}

/// How the numbers stand that the digits write.
pub(crate) fn number_cmp(one: &[u8], other: &[u8]) -> Ordering
    ensures { result ≡ nat_cmp (number_in one.now) (number_in other.now) }
{
    let mut ahead = 0;
    let mut behind = 0;
    let mut left = one.len().max(other.len());
    while 0 < left {
        left -= 1;
        let digit = digit_before(one, left);
        let opposite = digit_before(other, left);
        let further = lead_after(ahead, behind, digit, opposite);
        behind = lead_after(behind, ahead, opposite, digit);
        ahead = further;
    }
    ahead.cmp(&behind)
}

// The digit with so many others behind it.
fn digit_before(digits: &[u8], behind: usize) -> u64
    ensures digit { result ≡ digit_before digits.now behind }
    ensures small { result ≤ 207 }
{
    if behind < digits.len() {
        u64::from(digits[digits.len() - 1 - behind].saturating_sub(b'0'))
    } else {
        0
    }
}

// The lead behind one more digit of both numbers.
fn lead_after(ahead: u64, behind: u64, digit: u64, opposite: u64) -> u64
    requires ahead { ahead ≤ 1_000 }
    requires behind { behind ≤ 1_000 }
    requires digit { digit ≤ 207 }
    requires opposite { opposite ≤ 207 }
    ensures { result ≡ min (10 * ahead + digit - (10 * behind + opposite)) 1_000 }
{
    (10 * ahead + digit)
        .saturating_sub(10 * behind + opposite)
        .min(SAFE)
}

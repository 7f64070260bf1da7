// Decimal digits, and the numbers that they write.
ghost use Rattle.std.specs.Prelude.{◌≡◌, ◌≤◌, ◌<◌, ◌^◌, length, true};
ghost use Rattle.std.specs.List.{list_all};
ghost use Rattle.field_values.specs.Digits.{is_digit, read_on};

/// Whether each of the bytes is one of `0` to `9`.
pub fn are_digits(bytes: &[u8]) -> bool
    ensures { result ≡ list_all is_digit bytes.now }
{
    bytes.iter().all(|byte| b'0' <= *byte && *byte <= b'9')
}

/// The number that at most ten digits write. Zeros may stand before it.
#[tactic(auto, using(crate::proofs::Numerals::digit_at, crate::proofs::Numerals::next_power, crate::proofs::Numerals::read_next))]
pub fn value_of_digits(digits: &[u8]) -> u64
    requires few { length digits.now ≤ 10 }
    requires digits { list_all is_digit digits.now ≡ true }
    ensures value { result ≡ read_on 0 digits.now }
    ensures small { result < 10 ^ length digits.now }
{
    let mut value = 0u64;
    for digit in digits {
        value = 10 * value + u64::from(*digit - b'0');
    }
    value
}

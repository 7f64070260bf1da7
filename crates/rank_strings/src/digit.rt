//! Digits in base 36 and the characters that they are written as.
ghost use Rattle.std.specs.Prelude.{◌≡◌, ◌≢◌, ◌<◌, ◌++◌, ℕ, List, length, map, MatchOption, MatchBool, OnOk, string_bytes};
ghost use Rattle.rank_strings.specs.Rank.{AreDigits};
ghost use Rattle.rank_strings.specs.Text.{digit_code};

use std::alloc::AllocError;

/// The character of a digit below 36.
fn digit_char(digit: u8) -> char
    requires { digit < 36 }
    ensures { result ≡ digit_code digit }
{
    if digit < 10 {
        char::from(b'0' + digit)
    } else {
        char::from(b'a' + (digit - 10))
    }
}

/// The digit that a byte is the character of.
fn digit_value(byte: u8) -> Option<u8>
    ensures { MatchOption result ((d : ℕ) → d < 36 → digit_code d ≢ byte)
        (λ d. (d < 36) × (digit_code d ≡ byte)) }
{
    match byte {
        b'0'..=b'9' => Some(byte - b'0'),
        b'a'..=b'z' => Some(byte - b'a' + 10),
        _ => None,
    }
}

/// Writes the digits behind a text.
pub(crate) fn push_digits(text: &mut String, digits: &[u8]) -> Result<(), AllocError>
    requires { AreDigits digits.now }
    ensures { OnOk result (string_bytes text.new
        ≡ string_bytes text.old ++ map digit_code digits.now) }
{
    for digit in digits {
        text.push(digit_char(*digit))?;
    }
    Ok(())
}

/// Reads one digit for each byte, and says whether each byte is the character of a digit.
pub(crate) fn read_digits(bytes: &[u8], digits: &mut [u8]) -> bool
    requires { length digits.old ≡ length bytes.now }
    ensures { MatchBool result (AreDigits digits.new × (map digit_code digits.new ≡ bytes.now))
        ((ds : List ℕ) → AreDigits ds → map digit_code ds ≢ bytes.now) }
{
    for (i, byte) in bytes.iter().enumerate() {
        let Some(digit) = digit_value(*byte) else {
            return false;
        };
        digits[i] = digit;
    }
    true
}

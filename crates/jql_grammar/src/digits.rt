// Numbers in digits.
ghost use Rattle.std.specs.Prelude.{◌≡◌, true};
ghost use Rattle.std.specs.List.{list_all};
ghost use Rattle.field_values.specs.Digits.{read_on, is_digit};
ghost use Rattle.jql_grammar.specs.Forms.{are_digits, small, number_in};

use field_values::digits;

fn are_digits(bytes: &[u8]) -> bool
    ensures { result ≡ are_digits bytes.now }
{
    !bytes.is_empty() && digits::are_digits(bytes)
}

// What the digits write, where it isn't too large.
#[tactic(auto, using(field_values::proofs::Numerals::digit_at, field_values::proofs::Numerals::read_next, crate::proofs::Numerals::too_large))]
fn written(digits: &[u8]) -> Option<u32>
    requires { list_all is_digit digits.now ≡ true }
    ensures { result ≡ small (read_on 0 digits.now) }
{
    let mut number = 0u64;
    for digit in digits {
        number = 10 * number + u64::from(*digit - b'0');
        if 4_294_967_295 < number {
            return None;
        }
    }
    Some(number as u32)
}

/// The number that one digit or more write, up to 4,294,967,295. Zeros may stand before it.
#[tactic(auto, unfolding(crate::specs::Forms::number_in))]
pub(crate) fn number_in(digits: &[u8]) -> Option<u32>
    ensures { result ≡ number_in digits.now }
{
    if are_digits(digits) {
        written(digits)
    } else {
        None
    }
}

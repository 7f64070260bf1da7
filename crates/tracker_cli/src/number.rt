// Numbers in words.
ghost use Rattle.std.specs.Prelude.{◌≡◌, ℕ, decimal, IfSome, IfNone, IsTrue, ◌↔◌};
ghost use Rattle.tracker_cli.specs.Numerals.{IsNumberOf, IsPort};

use itoa::Buffer;

/// The number of a word, between bounds, in digits with no zero before them.
pub fn number_in(word: &str, least: u32, most: u32) -> Option<u32>
    ensures some { IfSome result (IsNumberOf least most word.now) }
    ensures none { IfNone result ((n : ℕ) → ¬ IsNumberOf least most word.now n) }
{
    match word.parse::<u32>() {
        Ok(n) if least <= n && n <= most && is_digits_of(word, n) => Some(n),
        _ => None,
    }
}

/// The port that a word names: a number from 1 to 65,535 in digits with no zero before them.
pub fn port_of(word: &str) -> Option<u16>
    ensures some { IfSome result (IsPort word.now) }
    ensures none { IfNone result ((port : ℕ) → ¬ IsPort word.now port) }
{
    match number_in(word, 1, 65_535) {
        Some(port) => Some(port as u16),
        None => None,
    }
}

fn is_digits_of(word: &str, n: u32) -> bool
    ensures { IsTrue result ↔ (word.now ≡ decimal n) }
{
    let mut buffer = Buffer::new();
    buffer.format(n) == word
}

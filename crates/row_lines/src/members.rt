// The members of a line's JSON.
ghost use Rattle.std.specs.Prelude.{◌≡◌, ◌<◌, ◌^◌, ◌↔◌, ℕ, List, Some, decimal, codes, IsTrue, MatchOption};
ghost use Rattle.json.specs.Json.{number, string};
ghost use Rattle.json.specs.Find.{get};
ghost use Rattle.json.specs.Value.{members_view, value_view};
ghost use Rattle.row_lines.specs.RowText.{count_members, member_count};

use itoa::Buffer;
use json::Value;

/// How many members it has; none where it is no object.
pub(crate) fn member_count(value: &Value<'_>) -> usize
    ensures { result ≡ member_count (value_view value.now) }
{
    match value {
        Value::Object(members) => count(members),
        _ => 0,
    }
}

fn count<'a>(members: &[(&'a str, Value<'a>)]) -> usize
    ensures { result ≡ count_members (members_view members.now) }
{
    members.len()
}

/// The text of that name.
pub(crate) fn text_at<'a>(value: &Value<'a>, name: &str) -> Option<&'a str>
    ensures { MatchOption result
        ((text : List ℕ) → ¬ (get name.now (value_view value.now) ≡ Some (string text)))
        (λ text. get name.now (value_view value.now) ≡ Some (string text.now)) }
{
    match value.get(name) {
        Some(member) => member.as_str(),
        None => None,
    }
}

/// The number of that name.
pub(crate) fn number_at(value: &Value<'_>, name: &str) -> Option<u64>
    ensures { MatchOption result
        ((n : ℕ) → n < 2 ^ 64 → ¬ (get name.now (value_view value.now) ≡ Some (number (decimal n))))
        (λ n. (n < 2 ^ 64) × (get name.now (value_view value.now) ≡ Some (number (decimal n)))) }
{
    match digits_at(value, name) {
        Some(digits) => number_in(digits),
        None => None,
    }
}

// The digits of the number of that name.
fn digits_at<'a>(value: &Value<'a>, name: &str) -> Option<&'a str>
    ensures { MatchOption result
        ((digits : List ℕ) → ¬ (get name.now (value_view value.now) ≡ Some (number digits)))
        (λ digits. get name.now (value_view value.now) ≡ Some (number digits.now)) }
{
    match value.get(name) {
        Some(member) => member.as_number(),
        None => None,
    }
}

// The number whose digits these are.
fn number_in(digits: &str) -> Option<u64>
    ensures { MatchOption result ((n : ℕ) → n < 2 ^ 64 → ¬ (digits.now ≡ decimal n))
        (λ n. (n < 2 ^ 64) × (digits.now ≡ decimal n)) }
{
    match digits.parse::<u64>() {
        Ok(n) if is_digits_of(digits, n) => Some(n),
        _ => None,
    }
}

fn is_digits_of(digits: &str, n: u64) -> bool
    ensures { IsTrue result ↔ (digits.now ≡ decimal n) }
{
    let mut buffer = Buffer::new();
    buffer.format(n) == digits
}

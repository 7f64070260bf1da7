// Short texts, as names of fields and of members are. They are compared a byte at a time: most of them differ in their length or in
// their first bytes, and a comparison that suits long texts costs these several times as much.
ghost use Rattle.std.specs.Prelude.{◌≡◌};
ghost use Rattle.std.specs.Cmp.Lexicographic.{slice_cmp};
ghost use Rattle.std.specs.Ordering.{nat_cmp};
ghost use Rattle.std.specs.Str.{bytes_eq};

use std::cmp::Ordering;

/// Whether the texts are the same.
pub fn is_same(text: &str, other: &str) -> bool
    ensures { result ≡ bytes_eq text.now other.now }
{
    are_same(text.as_bytes(), other.as_bytes())
}

fn are_same(bytes: &[u8], other: &[u8]) -> bool
    ensures { result ≡ bytes_eq bytes.now other.now }
{
    if bytes.len() != other.len() {
        return false;
    }
    for at in 0..bytes.len() {
        if bytes[at] != other[at] {
            return false;
        }
    }
    true
}

/// How a text stands to another in the order of their bytes.
pub fn order_of(text: &str, other: &str) -> Ordering
    ensures { result ≡ slice_cmp nat_cmp text.now other.now }
{
    bytes_order(text.as_bytes(), other.as_bytes())
}

fn bytes_order(bytes: &[u8], other: &[u8]) -> Ordering
    ensures { result ≡ slice_cmp nat_cmp bytes.now other.now }
{
    for at in 0..bytes.len().min(other.len()) {
        if bytes[at] != other[at] {
            return bytes[at].cmp(&other[at]);
        }
    }
    bytes.len().cmp(&other.len())
}

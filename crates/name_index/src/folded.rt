// How names compare, ASCII case ignored.
ghost use Rattle.std.specs.Prelude.{◌≡◌};
ghost use Rattle.std.specs.Cmp.Lexicographic.{slice_cmp};
ghost use Rattle.std.specs.Ordering.{nat_cmp};
ghost use Rattle.std.specs.Str.{str_to_ascii_lowercase};
ghost use Rattle.name_index.specs.Places.{fold_cmp};

use std::cmp::Ordering;

/// How two texts compare by their bytes, with `A` to `Z` read as `a` to `z`.
fn cmp_bytes(one: &[u8], other: &[u8]) -> Ordering
    ensures { result ≡ slice_cmp nat_cmp (str_to_ascii_lowercase one.now)
        (str_to_ascii_lowercase other.now) }
{
    let mut left = one;
    let mut right = other;
    while let Some((first, rest)) = left.split_first() {
        let Some((second, later)) = right.split_first() else {
            return Ordering::Greater;
        };
        match first.to_ascii_lowercase().cmp(&second.to_ascii_lowercase()) {
            Ordering::Equal => {
                left = rest;
                right = later;
            }
            unequal => return unequal,
        }
    }
    if right.is_empty() {
        Ordering::Equal
    } else {
        Ordering::Less
    }
}

/// How two names compare, ASCII case ignored.
pub(crate) fn fold_cmp(one: &str, other: &str) -> Ordering
    ensures { result ≡ fold_cmp one.now other.now }
{
    cmp_bytes(one.as_bytes(), other.as_bytes())
}

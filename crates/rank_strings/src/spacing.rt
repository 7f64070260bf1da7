//! Six digits as a number, and the number that is chosen where six digits alone lie between.
ghost use Rattle.std.specs.Prelude.{◌≡◌, ◌+◌, ◌≤◌, IfSome};
ghost use Rattle.std.specs.Option.{option_copied};
ghost use Rattle.rank_strings.specs.Rank.{AreDigits, IsRank};
ghost use Rattle.rank_strings.specs.Chosen.{number, least_above, greatest_below, below_rank, halfway, spaced_number};

use crate::rank::Rank;

/// The number of `zzzzzz`: one less than the sixth power of 36.
pub(crate) const GREATEST: u32 = 2_176_782_335;

/// The number of `i00000`, the first rank of an empty bucket.
const FIRST: u32 = 1_088_391_168;

/// How far a new rank is set from a lone neighbour.
const STEP: u32 = 8_192;

/// The six digits as a number in base 36.
pub(crate) fn number(front: &[u8; 6]) -> u32
    requires { AreDigits front.now }
    ensures value { result ≡ number front.now }
    ensures bound { result ≤ GREATEST }
{
    let [a, b, c, d, e, f] = *front;
    let high = (a as u32 * 36 + b as u32) * 36 + c as u32;
    let low = (d as u32 * 36 + e as u32) * 36 + f as u32;
    high * 46_656 + low
}

/// The six digits of a number.
pub(crate) fn digits_of(n: u32) -> [u8; 6]
    requires { n ≤ GREATEST }
    ensures digits { AreDigits result }
    ensures value { number result ≡ n }
{
    let high = n / 46_656;
    let low = n % 46_656;
    [
        (high / 1_296) as u8,
        (high / 36 % 36) as u8,
        (high % 36) as u8,
        (low / 1_296) as u8,
        (low / 36 % 36) as u8,
        (low % 36) as u8,
    ]
}

/// The least number of six digits alone above the low neighbour.
pub(crate) fn least_above(low: Option<&Rank>) -> u32
    ensures value { result ≡ least_above (option_copied low.entry) }
    ensures bound { result ≤ GREATEST + 1 }
    ensures is_rank { IfSome (option_copied low.entry) IsRank }
{
    match low {
        Some(low) => number(low.front()) + 1,
        None => 1,
    }
}

/// The greatest number of six digits alone below a rank.
fn below_rank(rank: &Rank) -> u32
    ensures value { result ≡ below_rank (number rank.now.front) rank.now.further }
    ensures bound { result ≤ GREATEST }
    ensures is_rank { IsRank rank.now }
{
    match rank.further() {
        [] => number(rank.front()).saturating_sub(1),
        _ => number(rank.front()),
    }
}

/// The greatest number of six digits alone below the high neighbour.
pub(crate) fn greatest_below(high: Option<&Rank>) -> u32
    ensures value { result ≡ greatest_below (option_copied high.entry) }
    ensures bound { result ≤ GREATEST }
    ensures is_rank { IfSome (option_copied high.entry) IsRank }
{
    match high {
        Some(high) => below_rank(high),
        None => GREATEST,
    }
}

/// Half the sum of the least and the greatest number, rounded down.
fn halfway(low: Option<&Rank>, high: Option<&Rank>) -> u32
    ensures { result ≡ halfway (option_copied low.entry) (option_copied high.entry) }
{
    let sum = u64::from(least_above(low)) + u64::from(greatest_below(high));
    (sum / 2) as u32
}

/// The number that is chosen where six digits alone lie between.
pub(crate) fn spaced_number(low: Option<&Rank>, high: Option<&Rank>) -> u32
    ensures { result ≡ spaced_number (option_copied low.entry) (option_copied high.entry) }
{
    match (low, high) {
        (None, None) => FIRST,
        (Some(rank), None) => {
            let stepped = number(rank.front()) + STEP;
            if stepped <= GREATEST {
                stepped
            } else {
                halfway(low, high)
            }
        }
        (None, Some(rank)) => {
            let beside = number(rank.front());
            if beside > STEP {
                beside - STEP
            } else {
                halfway(low, high)
            }
        }
        (Some(_), Some(_)) => halfway(low, high),
    }
}

//! The further digits between two lists of further digits.
ghost use Rattle.std.specs.Prelude.{◌≡◌, ◌+◌, ◌<◌, ◌≤◌, ◌++◌, ◌∷◌, [], ℕ, length, slice_index, MatchOption, IfOk};
ghost use Rattle.rank_strings.specs.Rank.{AreDigits};
ghost use Rattle.rank_strings.specs.Gap.{lowest_at, highest_at, padded, HasNoGapBefore, IsGap};

use crate::rank::MAX_FURTHER;
use std::alloc::{AllocError, Global};

/// Where a digit fits: how many further digits stand before it, and the digit.
#[derive(Clone, Copy)]
pub(crate) struct Gap {
    pub depth: usize,
    pub digit: u8,
}

/// The digit at this depth, or 0 behind the end.
fn digit_at(low: &[u8], depth: usize) -> u8
    ensures { result ≡ slice_index low.now depth }
{
    low.get(depth).copied().unwrap_or(0)
}

fn lowest_at(low: &[u8], depth: usize) -> u8
    requires { AreDigits low.now }
    ensures value { result ≡ lowest_at low.now depth }
    ensures bound { result ≤ 36 }
{
    match low.get(depth) {
        Some(digit) => *digit + 1,
        None => 1,
    }
}

fn highest_at(high: &[u8], depth: usize) -> u8
    requires digits { AreDigits high.now }
    requires depth { depth < 245 }
    ensures value { result ≡ highest_at high.now depth }
    ensures bound { result < 36 }
{
    match high.get(depth) {
        Some(digit) if depth + 1 < high.len() => *digit,
        Some(digit) => digit.saturating_sub(1),
        None => 35,
    }
}

/// The least depth at which a digit fits between, and the digit in the middle of those that fit there. An empty `high`
/// bounds nothing.
pub(crate) fn find_gap(low: &[u8], high: &[u8]) -> Option<Gap>
    requires low_digits { AreDigits low.now }
    requires high_digits { AreDigits high.now }
    ensures { MatchOption result (HasNoGapBefore low.now high.now 245)
        (λ gap. IsGap low.now high.now gap.depth gap.digit) }
{
    for depth in 0..MAX_FURTHER {
        let lowest = lowest_at(low, depth);
        let highest = highest_at(high, depth);
        if lowest <= highest {
            return Some(Gap {
                depth,
                digit: (lowest + highest) / 2,
            });
        }
    }
    None
}

/// The low neighbour's digits, padded with zeros up to the gap, and the digit that fits there.
#[tactic(auto, using(crate::proofs::Fitting::gap_lemmas))]
pub(crate) fn digits_in_gap(alloc: Global, low: &[u8], gap: Gap) -> Result<Vec<u8>, AllocError>
    requires { gap.depth < 245 }
    ensures { IfOk result (λ further. further.items ≡ padded gap.depth low.now ++ gap.digit ∷ []) }
{
    let mut further = Vec::with_capacity(alloc, gap.depth + 1)?;
    for i in 0..gap.depth {
        further.push(digit_at(low, i))?;
    }
    further.push(gap.digit)?;
    Ok(further)
}

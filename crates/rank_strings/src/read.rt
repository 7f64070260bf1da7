//! Reading the text of a rank.
ghost use Rattle.std.specs.Prelude.{◌≡◌, ◌≢◌, ◌+◌, ◌∷◌, ◌++◌, ℕ, List, length, MatchOption, IfOk};
ghost use Rattle.rank_strings.specs.Rank.{RankParts};
ghost use Rattle.rank_strings.specs.Text.{IsTextOf};

use crate::digit::read_digits;
use crate::rank::{MAX_FURTHER, Rank};
use crate::text::Memory;
use std::alloc::Global;

/// The bytes of the bucket, of the six digits and of the further digits, where the signs between them are there.
fn split(bytes: &[u8]) -> Option<(u8, &[u8], &[u8])>
    ensures { MatchOption result ((b : ℕ) → (f x : List ℕ) → length f ≡ 6
        → bytes.now ≢ b ∷ 124 ∷ (f ++ 58 ∷ x))
        (λ p. (bytes.now ≡ p.0 ∷ 124 ∷ (p.1.now ++ 58 ∷ p.2.now)) × (length p.1.now ≡ 6)) }
{
    if bytes.len() < 9 || bytes[1] != b'|' || bytes[8] != b':' {
        return None;
    }
    Some((bytes[0], &bytes[2..8], &bytes[9..]))
}

impl Rank {
    /// The rank that the bytes are the text of, or `None` where they are no rank's text.
    pub fn read(alloc: Global, bytes: &[u8]) -> Result<Option<Rank>, Memory>
        ensures { IfOk result (λ found. MatchOption found ((r : RankParts) → ¬ IsTextOf bytes.now r)
            (λ r. IsTextOf bytes.now r)) }
    {
        let Some((bucket, front_text, further_text)) = split(bytes) else {
            return Ok(None);
        };
        if bucket < b'0' || further_text.len() > MAX_FURTHER {
            return Ok(None);
        }
        let mut front = [0; 6];
        if !read_digits(front_text, &mut front) {
            return Ok(None);
        }
        let mut further = vec![in alloc; 0; further_text.len()]?;
        if !read_digits(further_text, &mut further) {
            return Ok(None);
        }
        Ok(Rank::new(bucket - b'0', front, further))
    }
}

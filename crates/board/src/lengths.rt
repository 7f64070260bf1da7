//! How many ranks there are of each length.
ghost use Rattle.std.specs.Prelude.{◌≡◌, ◌≤◌, ◌<◌, ◌-◌, ◌^◌, ℕ, OnOk, length, slice_index, vec_len};
ghost use Rattle.rank_strings.specs.Rank.{IsRank};
ghost use Rattle.rank_strings.specs.Text.{rank_text};
ghost use Rattle.board.specs.Lengths.{CountsOneMore, IsLongest};

use field_values::Memory;
use rank_strings::Rank;

/// A rank's text has at most 254 bytes, so its length is one of these many.
pub(crate) const LENGTHS: usize = 255;

/// The rank's length. Asking for its bucket tells that it is a rank.
pub(crate) fn length_of(rank: &Rank) -> usize
    ensures is_rank { IsRank rank.now }
    ensures length { result ≡ length (rank_text rank.now) }
    ensures bound { result < 255 }
{
    let _bucket = rank.bucket();
    rank.len()
}

/// Makes an entry for each length.
pub(crate) fn room_for_lengths(counts: &mut Vec<usize>) -> Result<(), Memory>
    ensures same { (bytes : ℕ)
        → slice_index counts.new.items bytes ≡ slice_index counts.old.items bytes }
    ensures more { vec_len counts.old ≤ vec_len counts.new }
    ensures ok { OnOk result (255 ≤ vec_len counts.new) }
{
    if counts.len() < LENGTHS {
        counts.resize(LENGTHS, 0)?;
    }
    Ok(())
}

/// Counts one more rank of this length.
pub(crate) fn count_in(counts: &mut [usize], bytes: usize)
    requires in_range { bytes < length counts.old }
    requires fits { slice_index counts.old bytes < 2 ^ 64 - 1 }
    ensures { CountsOneMore counts.old counts.new bytes }
{
    counts[bytes] += 1;
}

/// Counts one rank less of this length.
pub(crate) fn count_out(counts: &mut [usize], bytes: usize)
    requires in_range { bytes < length counts.old }
    requires counted { 0 < slice_index counts.old bytes }
    ensures { CountsOneMore counts.new counts.old bytes }
{
    counts[bytes] -= 1;
}

/// The greatest length that is counted, and 0 where there is none. Its time doesn't depend on the number of ranks.
pub(crate) fn longest(counts: &[usize]) -> usize
    ensures { IsLongest counts.now result }
{
    for bytes in (0..counts.len()).rev() {
        if counts[bytes] > 0 {
            return bytes;
        }
    }
    0
}

//! Room for more issues.
ghost use Rattle.std.specs.Prelude.{◌≡◌, ◌≤◌, ◌<◌, ◌+◌, ℕ, None, OnOk, OnErr, slice_index, slice_index_or, vec_len, vec_capacity, max};

use crate::lengths::room_for_lengths;
use field_values::{IssueNo, Memory};
use rank_strings::Rank;

/// Makes an entry for each number up to this one.
fn room_for_numbers(ranks: &mut Vec<Option<Rank>>, most: usize) -> Result<(), Memory>
    ensures same { (issue : ℕ)
        → slice_index_or ranks.new.items issue None ≡ slice_index_or ranks.old.items issue None }
    ensures ok { OnOk result (most < vec_len ranks.new) }
    ensures more { vec_len ranks.old ≤ vec_len ranks.new }
    ensures no_more { vec_len ranks.new ≤ max (vec_len ranks.old) (most + 1) }
    ensures err { OnErr result (vec_len ranks.new ≡ vec_len ranks.old) }
{
    if most < ranks.len() {
        return Ok(());
    }
    let Some(more) = (most - ranks.len()).checked_add(1) else {
        return Err(Memory);
    };
    ranks.reserve(more)?;
    for _made in 0..more {
        ranks.push_reserved(None);
    }
    Ok(())
}

/// Makes room for so many issues more, and for the numbers that they have when all issues are numbered from 1.
pub(crate) fn room_for_issues(
    issues: &mut Vec<IssueNo>,
    ranks: &mut Vec<Option<Rank>>,
    counts: &mut Vec<usize>,
    n: usize,
) -> Result<(), Memory>
    // The table gets these numbers, or has as many as before.
    ensures ok { OnOk result (vec_len issues.old + n < vec_len ranks.new) }
    ensures err { OnErr result (vec_len ranks.new ≡ vec_len ranks.old) }
    // Nothing is lost.
    ensures issues { issues.new.items ≡ issues.old.items }
    ensures ranks { (issue : ℕ)
        → slice_index_or ranks.new.items issue None ≡ slice_index_or ranks.old.items issue None }
    ensures counts { (bytes : ℕ)
        → slice_index counts.new.items bytes ≡ slice_index counts.old.items bytes }
    ensures more_slots { vec_capacity issues.old ≤ vec_capacity issues.new }
    ensures more_ranks { vec_len ranks.old ≤ vec_len ranks.new }
    ensures more_counts { vec_len counts.old ≤ vec_len counts.new }
    // Where the table grows, each of its numbers has room in the list, and each length a count.
    ensures enough { vec_len ranks.old < vec_len ranks.new
        → vec_len ranks.new ≤ vec_capacity issues.new + 1 }
    ensures all_lengths { vec_len ranks.old < vec_len ranks.new → 255 ≤ vec_len counts.new }
{
    issues.reserve(n)?;
    room_for_lengths(counts)?;
    room_for_numbers(ranks, issues.len() + n)?;
    Ok(())
}

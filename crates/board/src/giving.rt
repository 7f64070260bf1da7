//! Giving a rank to an issue, which goes to its place among the others.
ghost use Rattle.std.specs.Prelude.{◌≡◌, ◌<◌, ◌≤◌, ◌^◌, ◌-◌, ℕ, None, IfSome, length, insert, remove, vec_len, vec_capacity, slice_index, slice_index_or};
ghost use Rattle.std.specs.Option.{option_copied};
ghost use Rattle.rank_strings.specs.Rank.{IsRank};
ghost use Rattle.rank_strings.specs.Text.{rank_text};
ghost use Rattle.board.specs.Order.{IsOrder, IsFreeFor, place_in, put_in, without};
ghost use Rattle.board.specs.Issues.{other_issues};
ghost use Rattle.board.specs.Table.{nothing, pairs_by, IsTableOf, IsKept};
ghost use Rattle.board.specs.Search.{Fits, GoesTo};
ghost use Rattle.board.specs.Lengths.{AreCountedFor};

use crate::find::{count_below, place_by, rank_by};
use crate::lengths::{count_in, count_out, length_of};
use field_values::IssueNo;
use rank_strings::Rank;

/// Moves the issue at one place to another; those between shift by one, and all others stay.
fn turn(issues: &mut [IssueNo], from: usize, to: usize)
    requires from { from < length issues.old }
    requires to { to < length issues.old }
    ensures { issues.new
        ≡ insert (remove issues.old from) to (slice_index_or issues.old from nothing.1) }
{
    if from < to {
        issues[from..=to].rotate_left(1);
    } else {
        issues[to..=from].rotate_right(1);
    }
}

/// The place among the other issues, where so many of all issues are below and the issue itself stands at `from`.
fn place_among_others(from: usize, below: usize) -> usize
    ensures { GoesTo from below result }
{
    if from < below { below - 1 } else { below }
}

/// Puts the issue to the place that the rank has among the others, and answers this place. The table has its old rank yet.
fn put_issue(
    issues: &mut Vec<IssueNo>,
    ranks: &[Option<Rank>],
    issue: IssueNo,
    rank: &Rank,
) -> usize
    // The table is that of the order, and no other issue has the rank.
    requires order { IsOrder (pairs_by ranks.now issues.old.items) }
    requires table { IsTableOf (pairs_by ranks.now issues.old.items) ranks.now }
    requires rank { IsRank rank.now }
    requires free { IsFreeFor (pairs_by ranks.now issues.old.items) issue.0 rank.now }
    // There is room for a new issue, so that no memory is taken.
    requires room { place_in (pairs_by ranks.now issues.old.items) issue.0 ≡ None
        → vec_len issues.old < vec_capacity issues.old }
    // The issue stands at the place, the others keep their order, and there the rank belongs.
    ensures issues { issues.new.items
        ≡ insert (other_issues issue.0 issues.old.items) result issue }
    ensures capacity { vec_capacity issues.new ≡ vec_capacity issues.old }
    ensures fits { Fits (without issue.0 (pairs_by ranks.now issues.old.items)) rank.now result }
{
    let below = count_below(issues, ranks, rank);
    match place_by(issues, ranks, issue) {
        Some(from) => {
            let to = place_among_others(from, below);
            turn(issues, from, to);
            to
        }
        None => {
            match issues.insert(below, issue) {
                Ok(()) => {}
                Err(_) => {}
            }
            below
        }
    }
}

/// Counts a rank of so many bytes in place of the one that the issue had, if it had one.
fn recount(counts: &mut [usize], was: Option<&Rank>, bytes: usize)
    requires counted { IfSome (option_copied was)
        (λ rank. 0 < slice_index counts.old (length (rank_text rank))) }
    requires lengths { 255 ≤ length counts.old }
    requires bytes { bytes < 255 }
    requires fits { (n : ℕ) → slice_index counts.old n < 2 ^ 64 - 1 }
    ensures { AreCountedFor counts.old counts.new (option_copied was.entry) bytes }
{
    if let Some(rank) = was {
        count_out(counts, length_of(rank));
    }
    count_in(counts, bytes);
}

/// Gives the rank to the issue, which goes to its place.
pub(crate) fn put_rank(
    issues: &mut Vec<IssueNo>,
    ranks: &mut [Option<Rank>],
    counts: &mut [usize],
    issue: IssueNo,
    rank: Rank,
)
    // Table and counts are those of the order, and no other issue has the rank.
    requires kept { IsKept issues.old.items ranks.old counts.old (vec_capacity issues.old) }
    requires free { IsFreeFor (pairs_by ranks.old issues.old.items) issue.0 rank }
    // Room was made: for a new issue, and in the table for its number.
    requires room { place_in (pairs_by ranks.old issues.old.items) issue.0 ≡ None
        → vec_len issues.old < vec_capacity issues.old }
    requires number { issue.0 < length ranks.old }
    // The issue stands once, where its rank belongs, and table and counts follow.
    ensures pairs { pairs_by ranks.new issues.new.items
        ≡ put_in (rank, issue) (without issue.0 (pairs_by ranks.old issues.old.items)) }
    ensures kept { IsKept issues.new.items ranks.new counts.new (vec_capacity issues.new) }
{
    let bytes = length_of(&rank);
    let _place = put_issue(issues, ranks, issue, &rank);
    recount(counts, rank_by(ranks, issue), bytes);
    ranks[issue.0 as usize] = Some(rank);
}

//! Looking up by an issue's number and by rank.
ghost use Rattle.std.specs.Prelude.{◌≡◌, None, slice_index_or};
ghost use Rattle.std.specs.Option.{option_copied};
ghost use Rattle.rank_strings.specs.Rank.{IsRank};
ghost use Rattle.board.specs.Order.{IsOrder, place_in};
ghost use Rattle.board.specs.Table.{pairs_by, IsTableOf};
ghost use Rattle.board.specs.Search.{compared, is_below, IsFront};

use field_values::IssueNo;
use rank_strings::Rank;
use std::cmp::Ordering;

/// The issue's rank by the table.
pub(crate) fn rank_by(ranks: &[Option<Rank>], issue: IssueNo) -> Option<&Rank>
    ensures { option_copied result ≡ slice_index_or ranks.now issue.0 None }
{
    match ranks.get(issue.0 as usize) {
        Some(rank) => rank.as_ref(),
        None => None,
    }
}

/// Whether the issue has a rank that is less than this one.
fn is_below(ranks: &[Option<Rank>], issue: IssueNo, rank: &Rank) -> bool
    ensures { result ≡ is_below (slice_index_or ranks.now issue.0 None) rank.now }
{
    match rank_by(ranks, issue) {
        Some(own) => own.cmp(rank).is_lt(),
        None => false,
    }
}

/// How two issues stand to each other that have these ranks. One that has none stands behind all that have one.
pub(crate) fn compare(one: Option<&Rank>, other: Option<&Rank>) -> Ordering
    ensures { result ≡ compared (option_copied one.entry) (option_copied other.entry) }
{
    match (one, other) {
        (Some(one), Some(other)) => one.cmp(other),
        (Some(_), None) => Ordering::Less,
        (None, Some(_)) => Ordering::Greater,
        (None, None) => Ordering::Equal,
    }
}

/// How many issues have a rank that is less than this one. It is found by halving.
pub(crate) fn count_below(issues: &[IssueNo], ranks: &[Option<Rank>], rank: &Rank) -> usize
    requires order { IsOrder (pairs_by ranks.now issues.now) }
    requires table { IsTableOf (pairs_by ranks.now issues.now) ranks.now }
    requires rank { IsRank rank.now }
    ensures { IsFront (pairs_by ranks.now issues.now) rank.now result }
{
    issues.partition_point(|issue| is_below(ranks, *issue, rank))
}

/// The issue's place, which is found by its rank.
pub(crate) fn place_by(issues: &[IssueNo], ranks: &[Option<Rank>], issue: IssueNo) -> Option<usize>
    requires order { IsOrder (pairs_by ranks.now issues.now) }
    requires table { IsTableOf (pairs_by ranks.now issues.now) ranks.now }
    ensures { result ≡ place_in (pairs_by ranks.now issues.now) issue.0 }
{
    match rank_by(ranks, issue) {
        Some(rank) => {
            // The proof needs that it is a rank.
            let _bucket = rank.bucket();
            Some(count_below(issues, ranks, rank))
        }
        None => None,
    }
}

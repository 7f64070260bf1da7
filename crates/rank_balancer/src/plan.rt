//! A step that is planned before anything changes.
ghost use Rattle.std.specs.Prelude.{◌≡◌, ◌<◌, ◌≤◌, ◌+◌, IfOk, IfErr, IfSome, length};
ghost use Rattle.std.specs.Option.{option_copied};
ghost use Rattle.rank_strings.specs.Rank.{IsRank};
ghost use Rattle.board.specs.Order.{IsOrder};
ghost use Rattle.rank_balancer.specs.Border.{IsParted};
ghost use Rattle.rank_balancer.specs.Step.{ArePicks, IsStep, ExplainsRefusal, neighbour_after};
ghost use Rattle.rank_balancer.specs.declared.balance.Balance.TheVariants.{Moving};
ghost use Rattle.rank_balancer.specs.Balance.{Agrees, next_bucket};
ghost use Rattle.rank_balancer.specs.Pick.{first_rank, IsNextRank, ExplainsNoNext};

use crate::search::count_up_to;
use board::Order;
use field_values::IssueNo;
use rank_strings::{Rank, RankFault, between};
use std::alloc::Global;

/// The first rank of an empty bucket: `900000` in bucket 0, and `r00000` in the others.
fn first_rank(alloc: Global, to: u8) -> Rank
    requires { to < 3 }
    ensures { result ≡ first_rank to }
{
    let digit = if to == 0 { 9 } else { 27 };
    Rank::of_six_digits(alloc, to, [digit, 0, 0, 0, 0, 0])
}

/// The rank of the next picked issue: before the first rank of the new bucket, or in bucket 0 behind the last one.
fn next_rank(alloc: Global, to: u8, neighbour: Option<&Rank>) -> Result<Rank, RankFault>
    requires bucket { to < 3 }
    requires neighbour { IfSome (option_copied neighbour) (λ r. r.bucket ≡ to) }
    ensures next { IfOk result (IsNextRank to (option_copied neighbour.entry)) }
    ensures fault { IfErr result (ExplainsNoNext to (option_copied neighbour.entry)) }
{
    match neighbour {
        None => Ok(first_rank(alloc, to)),
        Some(rank) if to == 0 => between(alloc, Some(rank), None, to),
        Some(rank) => between(alloc, None, Some(rank), to),
    }
}

/// The rank beside which the next picked issue goes: the last one that was given, and at first the one at the border.
fn neighbour<'a>(moves: &'a [(IssueNo, Rank)], first: Option<&'a Rank>) -> Option<&'a Rank>
    ensures { option_copied result ≡ neighbour_after moves.now (option_copied first.entry) }
{
    match moves {
        [.., last] => Some(&last.1),
        [] => first,
    }
}

/// Plans so many picks on the way to the bucket above, from the pair before the border on.
fn plan_up(
    alloc: Global,
    order: &Order,
    from: u8,
    border: usize,
    count: usize,
) -> Result<Vec<(IssueNo, Rank)>, RankFault>
    // Ranks of the old bucket stand before the border, all others are in the bucket above, and
    // there are so many to pick.
    requires from { from < 2 }
    requires order { IsOrder order.now.pairs }
    requires parted { IsParted order.now.pairs from (from + 1) border }
    requires count { count ≤ border }
    // Each is the pick of the order that those before it leave. Where one has no room, the whole
    // plan is refused.
    ensures picks { IfOk result (λ moves. ArePicks order.now.pairs from (from + 1) moves.items
        × (length moves.items ≡ count)) }
    ensures fault { IfErr result (ExplainsRefusal order.now.pairs from (from + 1) count) }
{
    let mut moves = Vec::with_capacity(alloc, count)?;
    for place in (border - count..border).rev() {
        let beside = neighbour(&moves, order.rank_below(border));
        match next_rank(alloc, from + 1, beside) {
            Ok(rank) => moves.push_reserved((order.issue_at(place), rank)),
            Err(fault) => return Err(fault),
        }
    }
    Ok(moves)
}

/// Plans so many picks on the way from bucket 2 to 0, from the pair behind the border on.
fn plan_down(
    alloc: Global,
    order: &Order,
    border: usize,
    count: usize,
) -> Result<Vec<(IssueNo, Rank)>, RankFault>
    requires order { IsOrder order.now.pairs }
    requires parted { IsParted order.now.pairs 0 2 border }
    requires count { count + border ≤ length order.now.pairs }
    ensures picks { IfOk result (λ moves. ArePicks order.now.pairs 2 0 moves.items
        × (length moves.items ≡ count)) }
    ensures fault { IfErr result (ExplainsRefusal order.now.pairs 2 0 count) }
{
    // The proof needs that so many can be counted.
    let _ = order.len();
    let mut moves = Vec::with_capacity(alloc, count)?;
    for place in border..border + count {
        let beside = neighbour(&moves, order.rank_above(border));
        match next_rank(alloc, 0, beside) {
            Ok(rank) => moves.push_reserved((order.issue_at(place), rank)),
            Err(fault) => return Err(fault),
        }
    }
    Ok(moves)
}

/// Plans the picks of a step, at most so many.
pub(crate) fn plan_moves(
    alloc: Global,
    order: &Order,
    from: u8,
    most: usize,
) -> Result<Vec<(IssueNo, Rank)>, RankFault>
    requires agrees { Agrees order.now.pairs (Moving from (next_bucket from)) }
    ensures step { IfOk result (λ moves. IsStep order.now.pairs from
        (next_bucket from) most moves.items) }
    ensures fault { IfErr result (ExplainsRefusal order.now.pairs from (next_bucket from) most) }
{
    // The proof needs that it is an order.
    let _ = order.issues();
    if from == 2 {
        let border = count_up_to(order, 1);
        plan_down(alloc, order, border, most.min(order.len() - border))
    } else {
        let border = count_up_to(order, from);
        plan_up(alloc, order, from, border, most.min(border))
    }
}

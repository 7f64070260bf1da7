//! The order of the issues that were made.
ghost use Rattle.std.specs.Prelude.{◌≡◌, ◌≤◌, IfOk, length};
ghost use Rattle.std.specs.List.Sorted.{IsPermutation};
ghost use Rattle.tracker_limits.specs.Limits.{most_issues};
ghost use Rattle.tracker_ranks.specs.Loaded.{numbered_from};
ghost use Rattle.tracker_ranks.specs.Ranked.{IsRanked};
ghost use Rattle.tracker_loading.specs.Making.{order_of};

use field_values::Memory;
use rank_balancer::Balance;
use rank_strings::Rank;
use std::alloc::Global;
use tracker_ranks::Ranks;

/// The issues from 1 on in the order of these ranks, which agree with the balance.
pub(crate) fn ranks_of(alloc: Global, ranks: Vec<Rank>, balance: Balance) -> Result<Ranks, Memory>
    requires few { length ranks.items ≤ most_issues }
    requires permuted { IsPermutation (numbered_from 1 ranks.items) (order_of ranks.items) }
    requires ranked { IsRanked (order_of ranks.items) balance }
    ensures order { IfOk result (λ ranked. ranked.order ≡ order_of ranks.items) }
    ensures balance { IfOk result (λ ranked. ranked.balance ≡ balance) }
{
    match Ranks::load(alloc, ranks, balance)? {
        Some(ranked) => {
            // The proof needs that all are ranked.
            let _ = ranked.order();
            Ok(ranked)
        }
        None => unreachable!(),
    }
}

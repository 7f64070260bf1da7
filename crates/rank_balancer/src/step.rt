//! A step of the rebalancing: planned first, and then applied.
ghost use Rattle.std.specs.Prelude.{◌≡◌, ◌≤◌, ◌<◌, IfOk, IfErr, Ok, min, length, vec_len};
ghost use Rattle.board.specs.Moved.{IsRefusalOf};
ghost use Rattle.rank_balancer.specs.Balance.{Agrees, IsMoving, next_bucket, from_of, to_of};
ghost use Rattle.rank_balancer.specs.Step.{IsStep, ArePicks, ExplainsRefusal, after_moves, balance_after};
ghost use Rattle.rank_balancer.specs.Planned.{planned};

use crate::balance::Balance;
use crate::plan::plan_moves;
use crate::search::pick;
use board::Order;
use field_values::IssueNo;
use rank_strings::{Rank, RankFault};
use std::alloc::Global;
use std::marker::Model;

/// The moves of a step, in their order. Contracts see the list of issues and their new ranks.
#[derive(Drop)]
pub struct StepPlan {
    moves: Vec<(IssueNo, Rank)>,
}

impl Model for StepPlan {
    ghost use Rattle.std.specs.Prelude.{List};
    ghost use Rattle.field_values.specs.declared.numbers.IssueNo.{IssueNo};
    ghost use Rattle.rank_strings.specs.Rank.{RankParts};

    ghost Value = { List (IssueNo × RankParts) };

    ghost view = { λ p. p.moves.items };
}

impl StepPlan {
    /// Each issue with its new rank, in the order of the picks.
    pub fn moves(&self) -> &[(IssueNo, Rank)]
        ensures { result.now ≡ self.now }
    {
        &self.moves
    }
}

/// Plans so many picks at most, one after the other, and changes nothing.
///
/// Where one pick has no room, the whole plan is refused: `Exhausted` comes exactly then, with the pick's neighbour.
pub fn plan_step(
    alloc: Global,
    order: &Order,
    balance: &Balance,
    at_most: u32,
) -> Result<StepPlan, RankFault>
    // The order is on the way from one bucket to the next, and a step has up to 1,000 picks.
    requires moving { IsMoving balance.now }
    requires agrees { Agrees order.now.pairs balance.now }
    requires count { (1 ≤ at_most) × (at_most ≤ 1000) }
    // A step has all its picks. Where it is refused, one of them has no room, or memory is wanting.
    ensures step { IfOk result (IsStep order.now.pairs (from_of balance.now)
        (to_of balance.now) at_most) }
    ensures fault { IfErr result (ExplainsRefusal order.now.pairs (from_of balance.now)
        (to_of balance.now) at_most) }
    // Order and balance alone decide it: it can be computed from them, and there is no other step.
    ensures computed { IfOk result (λ moves. planned order.now.pairs (from_of balance.now)
        (to_of balance.now) at_most ≡ Ok moves) }
    ensures refused { IfErr result (IsRefusalOf
        (planned order.now.pairs (from_of balance.now) (to_of balance.now) at_most)) }
{
    // The proof needs that it is an order.
    let _ = order.issues();
    match *balance {
        Balance::Moving { from, .. } => {
            match plan_moves(alloc, order, from, at_most as usize) {
                Ok(moves) => Ok(StepPlan { moves }),
                Err(fault) => Err(fault),
            }
        }
        Balance::Idle(_) => Ok(StepPlan {
            moves: Vec::new(alloc),
        }),
    }
}

/// Makes the planned moves. The balance is idle in the new bucket exactly where no rank of the old one is left. It takes no memory.
pub fn apply(plan: StepPlan, order: &mut Order, balance: &mut Balance)
    requires moving { IsMoving balance.old }
    requires agrees { Agrees order.old.pairs balance.old }
    requires planned { ArePicks order.old.pairs (from_of balance.old) (to_of balance.old) plan }
    ensures order { order.new ≡ record order.old { pairs = after_moves order.old.pairs plan } }
    ensures balance { balance.new
        ≡ balance_after order.new.pairs (from_of balance.old) (to_of balance.old) }
{
    // The proof needs that it is an order.
    let _ = order.issues();
    for (issue, rank) in plan.moves {
        order.put(issue, rank);
    }
    if let Balance::Moving { to, .. } = *balance {
        if pick(order, balance).is_none() {
            *balance = Balance::Idle(to);
        }
    }
}

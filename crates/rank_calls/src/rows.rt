// The operations that keep ranks.
ghost use Rattle.std.specs.Prelude.{◌≡◌, ◌∷◌, [], IfOk};
ghost use Rattle.tracker_state.specs.Rows.{present_op};
ghost use Rattle.rank_calls.specs.Rows.{rank_ops};

use fields::{IssueNo, Memory, Moment, Text};
use rank_balancer::Balance;
use rank_strings::Rank;
use std::alloc::Global;
use tracker_keeper::{Row, RowOp};
use tracker_state::{present_ops, put_rank};

/// The operation that keeps another rank of an issue, whose text is given.
pub fn rank_rows(alloc: Global, issue: IssueNo, rank: Text) -> Result<Vec<RowOp>, Memory>
    ensures { IfOk result (λ ops. ops.items
        ≡ RowOp.Put (record { kind = 5; no = issue.0; body = rank }) ∷ []) }
{
    let mut ops = Vec::with_capacity(alloc, 1)?;
    ops.push(RowOp::Put(Row {
        kind: 5,
        no: u64::from(issue.0),
        body: rank,
    }))?;
    Ok(ops)
}

/// The operations that keep a step of a rebalancing.
pub fn step_ops(
    alloc: Global,
    balance: Balance,
    change: u64,
    moment: Moment,
    moves: &[(IssueNo, Rank)],
) -> Result<Vec<RowOp>, Memory>
    ensures { IfOk result (λ ops. ops.items ≡ present_op balance change moment
        ∷ rank_ops moves.now) }
{
    let mut ops = present_ops(alloc, balance, change, moment)?;
    for pair in moves {
        put_rank(alloc, &mut ops, pair.0, &pair.1)?;
    }
    Ok(ops)
}

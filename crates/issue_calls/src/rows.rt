// The operations that keep an issue or a change group of one.
ghost use Rattle.std.specs.Prelude.{◌≡◌, ◌∷◌, [], IfOk};
ghost use Rattle.tracker_state.specs.Rows.{present_op};

use fields::{Memory, Moment};
use rank_balancer::Balance;
use std::alloc::Global;
use tracker_keeper::{Row, RowOp};
use tracker_state::put_present;

/// The operations that keep a new row, with the number of the last change that it brings, in the room of these,
/// which they take the place of.
pub fn row_ops(
    alloc: Global,
    room: Vec<RowOp>,
    balance: Balance,
    change: u64,
    moment: Moment,
    row: Row,
) -> Result<Vec<RowOp>, Memory>
    ensures { IfOk result (λ ops. ops.items
        ≡ present_op balance change moment ∷ RowOp.Put row ∷ []) }
{
    let mut ops = room;
    ops.clear();
    put_present(alloc, &mut ops, balance, change, moment)?;
    ops.push(RowOp::Put(row))?;
    Ok(ops)
}

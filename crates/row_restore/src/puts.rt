// Rows that are put, all in one commit.
ghost use Rattle.std.specs.Prelude.{◌≡◌, ◌<◌, ◌^◌, map, IfOk, OnOk, OnErr, AllPairs};
ghost use Rattle.std.specs.List.{All};
ghost use Rattle.tracker_keeper.specs.declared.row.RowOp.TheVariants.{Put};
ghost use Rattle.tracker_keeper.specs.Rows.{Rows, IsBelow, no_rows, found};
ghost use Rattle.tracker_keeper.specs.Causes.{HasKeepCause};

use field_values::Memory;
use std::alloc::Global;
use tracker_keeper::{KeepFault, Keeper, Row, RowOp};

/// Puts these rows, which stand in order, or none of them.
#[tactic(auto, using(row_dumps::proofs::Placed::small_puts))]
pub(crate) fn put_all<P: Keeper>(
    alloc: Global,
    keeper: &mut P,
    rows: Vec<Row>,
) -> Result<(), KeepFault>
    requires small { All (λ row. row.no < 2 ^ 63) rows.items }
    requires rising { AllPairs IsBelow rows.items }
    // A keeper that had no row has just these.
    ensures done { P.keeps keeper.old no_rows → OnOk result (P.keeps keeper.new (found rows.items)) }

    // After a fault it has what it had.
    ensures same { (kept : Rows) → P.keeps keeper.old kept
        → OnErr result (P.keeps keeper.new kept) }
    ensures told { P.tells keeper.new → P.tells keeper.old }
    ensures cause { HasKeepCause (P.faults keeper.old) (P.faults keeper.new) result }
{
    let Ok(ops) = puts(alloc, rows) else {
        return Err(KeepFault::Memory);
    };
    keeper.commit(&ops)
}

// The operations that put these rows, one by one.
fn puts(alloc: Global, rows: Vec<Row>) -> Result<Vec<RowOp>, Memory>
    ensures { IfOk result (λ ops. ops.items ≡ map Put rows.items) }
{
    let mut ops = Vec::with_capacity(alloc, rows.len())?;
    for row in rows {
        ops.push(RowOp::Put(row))?;
    }
    Ok(ops)
}

// A keeper in memory that never fails.
ghost use Rattle.std.specs.Prelude.{◌≡◌, ◌<◌, ◌^◌, ◌⊎◌, length, OnOk, OnErr, IfOk, IfErr};
ghost use Rattle.std.specs.List.{All};
ghost use Rattle.tracker_keeper.specs.Rows.{Rows, no_rows, with_ops, number_of, IsListing};
ghost use Rattle.tracker_keeper.specs.Causes.{HasKeepCause};
ghost use Rattle.tracker_keeper.specs.Places.{AreRowsOf};

use crate::keeper::{KeepFault, Keeper};
use crate::row::{Row, RowOp};
use crate::row_map::RowMap;
use field_values::Memory;
use std::alloc::Global;

/// Rows in memory. A call may only want memory.
#[derive(Drop)]
pub struct NeverFails {
    rows: RowMap,
}

impl NeverFails {
    /// A keeper of the rows that these operations leave where there were none.
    pub fn new(alloc: Global, ops: &[RowOp]) -> Result<Self, Memory>
        ensures { IfOk result (λ keeper. AreRowsOf (with_ops ops.now no_rows) keeper.rows.places) }
    {
        let mut rows = RowMap::new(alloc);
        rows.commit(ops)?;
        Ok(NeverFails { rows })
    }
}

impl Keeper for NeverFails {
    ghost faults = { λ k. 0 };

    ghost tells = { λ k. Unit {0} };

    ghost keeps = { λ k rows. AreRowsOf rows k.rows.places };

    // A crash leaves nothing of it.
    ghost leaves = { λ k rows other. Unit {0} };

    #[tactic(auto, using(crate::proofs::Placing::ops_kept, crate::proofs::Placing::rows_kept))]
    fn commit(&mut self, ops: &[RowOp]) -> Result<(), KeepFault>
        // What each keeper does. There is nothing to say of a crash, which leaves nothing of it.
        requires numbers { All (λ op. number_of op < 2 ^ 63) ops.now }
        ensures cause { HasKeepCause 0 0 result }
        ensures told { Unit {0} → Unit {0} }
        ensures done { (rows : Rows) → AreRowsOf rows self.old.rows.places
            → OnOk result (AreRowsOf (with_ops ops.now rows) self.new.rows.places) }
        ensures undone { (rows : Rows) → AreRowsOf rows self.old.rows.places
            → OnErr result (AreRowsOf rows self.new.rows.places) }
        ensures left_ok { (rows : Rows) → AreRowsOf rows self.old.rows.places → OnOk result (Unit {0}) }
        ensures left_err { 0 < length ops.now → (rows other : Rows)
            → AreRowsOf rows self.old.rows.places → Unit {0}
            → OnErr result (Unit {0} ⊎ Unit {0}) }
        // Only memory may be wanting.
        ensures never { IfErr result (λ fault. fault ≡ KeepFault.Memory) }
    {
        match self.rows.commit(ops) {
            Ok(()) => Ok(()),
            Err(_) => Err(KeepFault::Memory),
        }
    }

    #[tactic(auto, using(crate::proofs::Placing::same_listing))]
    fn rows(&mut self) -> Result<Vec<Row>, KeepFault>
        // What each keeper does. There is nothing to say of a crash, which leaves nothing of it.
        ensures cause { HasKeepCause 0 0 result }
        ensures told { Unit {0} → Unit {0} }
        ensures rows { Unit {0} → (rows : Rows) → AreRowsOf rows self.old.rows.places
            → IfOk result (λ list. IsListing rows list.items) }
        ensures same { (rows : Rows) → AreRowsOf rows self.old.rows.places
            → AreRowsOf rows self.new.rows.places }
        ensures left { (rows other : Rows) → AreRowsOf rows self.old.rows.places → Unit {0}
            → Unit {0} }
        // Only memory may be wanting.
        ensures never { IfErr result (λ fault. fault ≡ KeepFault.Memory) }
    {
        match self.rows.list() {
            Ok(rows) => Ok(rows),
            Err(_) => Err(KeepFault::Memory),
        }
    }
}

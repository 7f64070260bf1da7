// A keeper in memory, which fails at the calls that it is told.
ghost use Rattle.std.specs.Prelude.{◌≡◌, ◌<◌, ◌≤◌, ◌^◌, ◌↔◌, ◌⊎◌, ◌+◌, ◌-◌, min, length, false, Err, OnOk, OnErr, IfOk, IsTrue};
ghost use Rattle.std.specs.List.{All};
ghost use Rattle.request_lines.specs.Causes.{FailsAt, next_call};
ghost use Rattle.tracker_keeper.specs.Rows.{Rows, no_rows, with_ops, number_of, IsListing};
ghost use Rattle.tracker_keeper.specs.Causes.{HasKeepCause, IsCounted};
ghost use Rattle.tracker_keeper.specs.Places.{AreRowsOf};

use crate::keeper::{KeepFault, Keeper};
use crate::row::{Row, RowOp};
use crate::row_map::RowMap;
use field_values::Memory;
use std::alloc::Global;

/// Rows in memory. The calls of the numbers in `failing`, counted from 1, fail and do nothing.
#[derive(Drop)]
pub struct MemoryKeeper {
    rows: RowMap,
    failing: Vec<u64>,
    calls: u64,
    faults: u64,
}

impl MemoryKeeper {
    /// A keeper of the rows that these operations leave where there were none.
    pub fn new(alloc: Global, ops: &[RowOp], failing: Vec<u64>) -> Result<Self, Memory>
        ensures rows { IfOk result (λ keeper.
            AreRowsOf (with_ops ops.now no_rows) keeper.rows.places) }
        ensures failing { IfOk result (λ keeper. keeper.failing.items ≡ failing.items) }
        ensures calls { IfOk result (λ keeper. keeper.calls ≡ 0) }
        ensures faults { IfOk result (λ keeper. keeper.faults ≡ 0) }
    {
        let mut rows = RowMap::new(alloc);
        rows.commit(ops)?;
        Ok(MemoryKeeper {
            rows,
            failing,
            calls: 0,
            faults: 0,
        })
    }

    // Counts a call, and a fault where the call is one that fails.
    fn fails(&mut self) -> bool
        // It fails exactly at the calls that it was told.
        ensures fails { IsTrue result ↔ FailsAt self.old.failing.items (next_call self.old.calls) }
        // Only such a call counts as a fault, and the count never falls.
        ensures rose { IsTrue result → self.new.faults ≡ min (self.old.faults + 1) (2 ^ 64 - 1) }
        ensures same { result ≡ false → self.new.faults ≡ self.old.faults }
        ensures later { self.old.faults ≤ self.new.faults }
        // Each call is counted, and all else stays.
        ensures counted { self.new.calls ≡ next_call self.old.calls }
        ensures failing { self.new.failing.items ≡ self.old.failing.items }
        ensures rows { self.new.rows ≡ self.old.rows }
    {
        self.calls = self.calls.saturating_add(1);
        if self.failing.contains(&self.calls) {
            self.faults = self.faults.saturating_add(1);
            return true;
        }
        false
    }
}

impl Keeper for MemoryKeeper {
    ghost faults = { λ k. k.faults };

    ghost tells = { λ k. Unit {0} };

    ghost keeps = { λ k rows. AreRowsOf rows k.rows.places };

    // A crash leaves nothing of it.
    ghost leaves = { λ k rows other. Unit {0} };

    #[tactic(auto, using(crate::proofs::Placing::ops_kept, crate::proofs::Placing::rows_kept))]
    fn commit(&mut self, ops: &[RowOp]) -> Result<(), KeepFault>
        // What each keeper does.
        requires numbers { All (λ op. number_of op < 2 ^ 63) ops.now }
        ensures cause { HasKeepCause self.old.faults self.new.faults result }
        ensures told { Unit {0} → Unit {0} }
        ensures done { (rows : Rows) → AreRowsOf rows self.old.rows.places
            → OnOk result (AreRowsOf (with_ops ops.now rows) self.new.rows.places) }
        ensures undone { (rows : Rows) → AreRowsOf rows self.old.rows.places
            → OnErr result (AreRowsOf rows self.new.rows.places) }
        ensures left_ok { (rows : Rows) → AreRowsOf rows self.old.rows.places → OnOk result (Unit {0}) }
        ensures left_err { 0 < length ops.now → (rows other : Rows)
            → AreRowsOf rows self.old.rows.places → Unit {0}
            → OnErr result (Unit {0} ⊎ Unit {0}) }

        // It fails exactly at the calls that it was told.
        ensures fails { (result ≡ Err KeepFault.Failed)
            ↔ FailsAt self.old.failing.items (next_call self.old.calls) }
        ensures counted { self.new.calls ≡ next_call self.old.calls }
        ensures failing { self.new.failing.items ≡ self.old.failing.items }

        // Nothing but a failure is counted.
        ensures exact { IsCounted self.old.faults self.new.faults result }
    {
        if self.fails() {
            return Err(KeepFault::Failed);
        }
        match self.rows.commit(ops) {
            Ok(()) => Ok(()),
            Err(_) => Err(KeepFault::Memory),
        }
    }

    #[tactic(auto, using(crate::proofs::Placing::same_listing))]
    fn rows(&mut self) -> Result<Vec<Row>, KeepFault>
        // What each keeper does.
        ensures cause { HasKeepCause self.old.faults self.new.faults result }
        ensures told { Unit {0} → Unit {0} }
        ensures rows { Unit {0} → (rows : Rows) → AreRowsOf rows self.old.rows.places
            → IfOk result (λ list. IsListing rows list.items) }
        ensures same { (rows : Rows) → AreRowsOf rows self.old.rows.places
            → AreRowsOf rows self.new.rows.places }
        ensures left { (rows other : Rows) → AreRowsOf rows self.old.rows.places → Unit {0}
            → Unit {0} }
        // It fails exactly at the calls that it was told.
        ensures fails { (result ≡ Err KeepFault.Failed)
            ↔ FailsAt self.old.failing.items (next_call self.old.calls) }
        ensures counted { self.new.calls ≡ next_call self.old.calls }
        ensures failing { self.new.failing.items ≡ self.old.failing.items }

        // Nothing but a failure is counted.
        ensures exact { IsCounted self.old.faults self.new.faults result }
    {
        if self.fails() {
            return Err(KeepFault::Failed);
        }
        match self.rows.list() {
            Ok(rows) => Ok(rows),
            Err(_) => Err(KeepFault::Memory),
        }
    }
}

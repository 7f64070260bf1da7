// Rows that are amended in memory first, to see whether they are a tracker's then.
ghost use Rattle.std.specs.Prelude.{◌≡◌, ◌≢◌, ◌<◌, Err, length, map, IfOk, IfErr, OnOk};
ghost use Rattle.fields.specs.SetupParts.{parts};
ghost use Rattle.tracker_keeper.specs.declared.row.RowOp.TheVariants.{Put};
ghost use Rattle.tracker_keeper.specs.Places.{AreRowsOf};
ghost use Rattle.tracker_keeper.specs.Rows.{Rows, IsListing, with_ops};
ghost use Rattle.tracker_machine.specs.Machine.{Machine};
ghost use Rattle.amended_rows.specs.Amending.{AreOf, IsAmended, IsListedAs};
ghost use Rattle.row_amend.specs.Faults.{AreAmendedBy, AreSmall, IsAmendFault, IsRowFault};

use crate::fault::AmendFault;
use crate::operations::amending_ops;
use amended_rows::laws::rows_are_amended;
use field_values::Memory;
use fields::Setup;
use std::alloc::Global;
use tracker_keeper::{Keeper, NeverFails, Row, RowOp};
use tracker_loading::{LoadFault, Loaded, load};

/// The operations that amend these rows so that their tracker has this setup, where they are a tracker's, and are one's then, too.
#[tactic(auto, using(crate::proofs::Tried::is_amended, crate::proofs::Tried::first_in_the_way, crate::proofs::Tried::then_in_the_way))]
pub(crate) fn tried(alloc: Global, rows: Vec<Row>, setup: Setup) -> Result<Vec<RowOp>, AmendFault>
    ensures done { (kept : Rows) → IsListing kept rows.items → IfOk result
        (λ ops. IsAmended setup.text (parts setup) kept (with_ops ops.items kept)) }
    ensures numbers { IfOk result (λ ops. AreSmall ops.items) }
    ensures some { IfOk result (λ ops. 0 < length ops.items) }
    ensures fault { (kept : Rows) → IsListing kept rows.items
        → IfErr result (IsAmendFault setup.text (parts setup) kept) }
    ensures own { result ≢ Err AmendFault.Keeper }
{
    let mut trial = in_memory(alloc, rows)?;
    let ops = operations(alloc, &mut trial, setup)?;
    test(alloc, &mut trial, &ops)?;
    Ok(ops)
}

// The rows in memory.
#[tactic(auto, using(crate::proofs::Tried::put_rows))]
fn in_memory(alloc: Global, rows: Vec<Row>) -> Result<NeverFails, AmendFault>
    ensures rows { (kept : Rows) → IsListing kept rows.items
        → IfOk result (λ trial. AreRowsOf kept trial.rows.places) }
    ensures memory { IfErr result (λ fault. fault ≡ AmendFault.Memory) }
{
    let Ok(puts) = puts(alloc, rows) else {
        return Err(AmendFault::Memory);
    };
    match NeverFails::new(alloc, &puts) {
        Ok(trial) => Ok(trial),
        Err(_) => Err(AmendFault::Memory),
    }
}

// The operations that put these rows, one by one.
fn puts(alloc: Global, rows: Vec<Row>) -> Result<Vec<RowOp>, Memory>
    ensures { IfOk result (λ ops. ops.items ≡ map Put rows.items) }
{
    let mut ops = Vec::with_capacity(alloc, rows.len())?;
    for row in rows {
        ops.push(RowOp::Put(row))?;
    }
    Ok(ops)
}

// The operations that amend the rows of the tracker whose rows these are.
#[tactic(auto, using(crate::proofs::Tried::amended_by))]
fn operations(alloc: Global, trial: &mut NeverFails, setup: Setup) -> Result<Vec<RowOp>, AmendFault>
    ensures done { (kept : Rows) → AreRowsOf kept trial.old.rows.places → IfOk result
        (λ ops. AreAmendedBy setup.text (parts setup) kept ops.items) }
    ensures numbers { IfOk result (λ ops. AreSmall ops.items) }
    ensures some { IfOk result (λ ops. 0 < length ops.items) }
    ensures fault { (kept : Rows) → AreRowsOf kept trial.old.rows.places
        → IfErr result (IsRowFault kept) }
    ensures own { result ≢ Err AmendFault.Keeper }
    ensures same { (kept : Rows) → AreRowsOf kept trial.old.rows.places
        → AreRowsOf kept trial.new.rows.places }
{
    rows_are_amended();
    let Loaded { format: _, state } = loaded(alloc, trial)?;
    let ops = amending_ops(alloc, &state, setup);
    drop(state);
    match ops {
        Ok(ops) => Ok(ops),
        Err(_) => Err(AmendFault::Memory),
    }
}

// What the rows make.
#[tactic(auto, using(row_dumps::proofs::Placed::in_order))]
fn loaded(alloc: Global, trial: &mut NeverFails) -> Result<Loaded, AmendFault>
    ensures loads { (kept : Rows) → AreRowsOf kept trial.old.rows.places → IfOk result
        (λ loaded. IsListedAs kept loaded.format loaded.state.machine) }
    ensures fault { (kept : Rows) → AreRowsOf kept trial.old.rows.places
        → IfErr result (IsRowFault kept) }
    ensures own { result ≢ Err AmendFault.Keeper }
    ensures same { (kept : Rows) → AreRowsOf kept trial.old.rows.places
        → AreRowsOf kept trial.new.rows.places }
{
    let Ok(list) = trial.rows() else {
        return Err(AmendFault::Memory);
    };
    match load(alloc, &list) {
        Ok(loaded) => Ok(loaded),
        Err(LoadFault::BadRow { kind, no }) => Err(AmendFault::BadRow { kind, no }),
        Err(LoadFault::Memory) => Err(AmendFault::Memory),
    }
}

// Whether the rows are a tracker's once these operations are carried out.
fn test(alloc: Global, trial: &mut NeverFails, ops: &[RowOp]) -> Result<(), AmendFault>
    requires { AreSmall ops.now }
    ensures tracker { (kept : Rows) → AreRowsOf kept trial.old.rows.places
        → OnOk result ((later : Machine) × AreOf (with_ops ops.now kept) later) }
    ensures fault { (kept : Rows) → AreRowsOf kept trial.old.rows.places
        → IfErr result (IsRowFault (with_ops ops.now kept)) }
    ensures own { result ≢ Err AmendFault.Keeper }
{
    let Ok(()) = trial.commit(ops) else {
        return Err(AmendFault::Memory);
    };
    match loaded(alloc, trial) {
        Ok(loaded) => {
            let Loaded { format: _, state } = loaded;
            drop(state);
            Ok(())
        }
        Err(fault) => Err(fault),
    }
}

// Rows that lines tell, put in one commit.
ghost use Rattle.std.specs.Prelude.{◌≡◌, ◌≢◌, ◌≤◌, Err, IfOk, IfErr, OnOk, OnErr, List, AllPairs};
ghost use Rattle.request_lines.specs.Causes.{Rose};
ghost use Rattle.tracker_keeper.specs.declared.row.Row.{Row};
ghost use Rattle.tracker_keeper.specs.Rows.{Rows, IsBelow, no_rows, found};
ghost use Rattle.tracker_loading.specs.Load.{IsFault};
ghost use Rattle.row_lines.specs.Telling.{Tells};
ghost use Rattle.row_restore.specs.Restoring.{AreOfTracker, IsBackup, IsRestoreFault};

use crate::puts::put_all;
use row_lines::{LinesFault, read_rows};
use std::alloc::Global;
use tracker_keeper::{KeepFault, Keeper, Row};
use tracker_loading::{LoadFault, Loaded, load};

/// Why nothing was restored.
#[derive(Clone, Copy, PartialEq, Eq)]
pub enum RestoreFault {
    /// The keeper failed.
    Keeper,
    /// The line of this number, from 1, is the first bad one.
    BadLine(u64),
    /// The row of this kind and number is the first that is none of a tracker's, or has to be there and isn't.
    BadRow { kind: u8, no: u64 },
    Memory,
}

/// Puts the rows that the lines of these bytes tell, all in one commit, where they are a tracker's.
#[tactic(auto, using(row_lines::proofs::Told::told_small))]
pub fn restore<P: Keeper>(alloc: Global, keeper: &mut P, bytes: Vec<u8>) -> Result<(), RestoreFault>
    // A keeper that had no row has just those of the lines, which are a tracker's.
    ensures done { OnOk result ((list : List Row) × IsBackup bytes.items list
        × (P.keeps keeper.old no_rows → P.keeps keeper.new (found list))) }

    // After a fault it has what it had.
    ensures same { (rows : Rows) → P.keeps keeper.old rows
        → OnErr result (P.keeps keeper.new rows) }
    ensures fault { IfErr result (IsRestoreFault bytes.items) }
    ensures told { P.tells keeper.new → P.tells keeper.old }
    ensures cause { result ≡ Err RestoreFault.Keeper
        → Rose (P.faults keeper.old) (P.faults keeper.new) }
    ensures later { P.faults keeper.old ≤ P.faults keeper.new }
{
    let rows = match backup_in(alloc, bytes) {
        Ok(rows) => rows,
        Err(fault) => return Err(fault),
    };
    match put_all(alloc, keeper, rows) {
        Ok(()) => Ok(()),
        Err(KeepFault::Failed) => Err(RestoreFault::Keeper),
        Err(KeepFault::Memory) => Err(RestoreFault::Memory),
    }
}

// The rows that lines tell, where they are a tracker's.
fn backup_in(alloc: Global, bytes: Vec<u8>) -> Result<Vec<Row>, RestoreFault>
    ensures backup { IfOk result (λ rows. IsBackup bytes.items rows.items) }
    ensures fault { IfErr result (IsRestoreFault bytes.items) }
    ensures own { result ≢ Err RestoreFault.Keeper }
{
    let told = told_in(alloc, &bytes);
    drop(bytes);
    let rows = told?;
    match test(alloc, &rows) {
        Ok(()) => Ok(rows),
        Err(LoadFault::BadRow { kind, no }) => Err(RestoreFault::BadRow { kind, no }),
        Err(LoadFault::Memory) => Err(RestoreFault::Memory),
    }
}

// The rows that lines tell.
fn told_in(alloc: Global, bytes: &[u8]) -> Result<Vec<Row>, RestoreFault>
    ensures told { IfOk result (λ rows. Tells bytes.now rows.items) }
    ensures fault { IfErr result (IsRestoreFault bytes.now) }
    ensures own { result ≢ Err RestoreFault.Keeper }
{
    match read_rows(alloc, bytes) {
        Ok(rows) => Ok(rows),
        Err(LinesFault::BadLine(number)) => Err(RestoreFault::BadLine(number)),
        Err(LinesFault::Memory) => Err(RestoreFault::Memory),
    }
}

// Whether the rows are a tracker's, or which is the first bad one.
#[tactic(auto, using(row_dumps::proofs::Placed::in_order))]
fn test(alloc: Global, rows: &[Row]) -> Result<(), LoadFault>
    requires { AllPairs IsBelow rows.now }
    ensures tracker { OnOk result (AreOfTracker rows.now) }
    ensures fault { IfErr result (IsFault rows.now) }
{
    match load(alloc, rows) {
        Ok(loaded) => {
            let Loaded { format: _, state } = loaded;
            drop(state);
            Ok(())
        }
        Err(fault) => Err(fault),
    }
}

//! All rows, the first bad one among them.
ghost use Rattle.std.specs.Prelude.{◌≡◌, IfOk, IfErr};
ghost use Rattle.tracker_rows.specs.Listed.{InOrder};
ghost use Rattle.tracker_rows.specs.Loading.{Loads};
ghost use Rattle.tracker_loading.specs.Load.{IsFault};

use crate::progress::Progress;
use crate::walk::read_all;
use std::alloc::Global;
use tracker_keeper::{Format, Row};
use tracker_rows::loaded_rows_are_a_tracker;
use tracker_state::State;

/// Why rows load no tracker.
#[derive(Clone, Copy, PartialEq, Eq)]
pub enum LoadFault {
    /// The row of this kind and number is the first bad one, or has to be there and isn't.
    BadRow { kind: u8, no: u64 },
    Memory,
}

/// A tracker's state, and the format of its rows.
#[derive(Drop)]
pub struct Loaded {
    pub format: Format,
    pub state: State,
}

/// That the row is bad.
pub(crate) fn bad_row(row: &Row) -> LoadFault
    ensures { result ≡ LoadFault.BadRow row.now.kind row.now.no }
{
    LoadFault::BadRow {
        kind: row.kind,
        no: row.no,
    }
}

/// The state of the tracker whose rows these are, which stand by kind and then number.
pub fn load(alloc: Global, rows: &[Row]) -> Result<Loaded, LoadFault>
    requires { InOrder rows.now }
    ensures loads { IfOk result (λ loaded. Loads loaded.format rows.now loaded.state.machine) }
    ensures fault { IfErr result (IsFault rows.now) }
{
    loaded_rows_are_a_tracker();
    let read = read_all(alloc, rows)?;
    let Progress {
        format,
        told: _,
        made,
    } = read;
    match made.assemble(alloc) {
        Ok(state) => Ok(Loaded { format, state }),
        Err(_) => Err(LoadFault::Memory),
    }
}

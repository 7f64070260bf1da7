//! The first two rows: the setup's and present's.
ghost use Rattle.std.specs.Prelude.{◌≡◌, ℕ, List, Ok, IfOk, IfErr, MatchOption};
ghost use Rattle.field_values.specs.Parts.{Parts};
ghost use Rattle.fields.specs.SetupParts.{parts};
ghost use Rattle.tracker_keeper.specs.declared.part.Part.{Part};
ghost use Rattle.tracker_rows.specs.Listed.{InOrder};
ghost use Rattle.tracker_rows.specs.Gathered.{standing};
ghost use Rattle.tracker_rows.specs.Gathered.Gathered.{HasSetup, Stands};
ghost use Rattle.tracker_rows.specs.Rules.{MayFollow};
ghost use Rattle.tracker_loading.specs.Load.{IsFault};
ghost use Rattle.tracker_loading.specs.Reading.{StandsAt, IsReadTo, IsSetupRow, IsStanding, gathered_in};

use crate::kinds::{PRESENT, SETUP};
use crate::loading::{LoadFault, bad_row};
use crate::making::Making;
use crate::own_part::own_part;
use crate::places::{count_changes, is_alone, wanted_at};
use crate::progress::Progress;
use field_values::{Memory, Moment};
use fields::{Setup, SetupFault};
use rank_balancer::Balance;
use std::alloc::Global;
use tracker_keeper::{Format, Part, Row};

// Where a tracker stands, by the row of present, and the format of its rows.
#[derive(Clone, Copy)]
struct Standing {
    format: Format,
    balance: Balance,
    change: u64,
    moment: Moment,
}

// The setup of the first row; `None` exactly where that isn't the one row of a setup.
fn setup_of(alloc: Global, rows: &[Row], row: &Row) -> Result<Option<Setup>, Memory>
    requires order { InOrder rows.now }
    requires there { StandsAt rows.now 0 row.now }
    ensures { IfOk result (λ found. MatchOption found
        ((setup : Parts) → ¬ IsSetupRow rows.now row.now setup)
        (λ setup. IsSetupRow rows.now row.now (parts setup) × (setup.text ≡ row.now.body))) }
{
    if row.kind != SETUP || row.no != 0 {
        return Ok(None);
    }
    if !is_alone(rows, 0, row) {
        return Ok(None);
    }
    match Setup::read(alloc, row.body.as_str().as_bytes()) {
        Ok(setup) => Ok(Some(setup)),
        Err(fault) => match &fault {
            SetupFault::Memory => Err(Memory),
            _ => Ok(None),
        },
    }
}

// The setup that is read first.
fn read_setup(alloc: Global, rows: &[Row]) -> Result<Setup, LoadFault>
    requires { InOrder rows.now }
    ensures read { IfOk result (λ setup. IsReadTo rows.now 1 (HasSetup setup.text (parts setup))) }
    ensures fault { IfErr result (IsFault rows.now) }
{
    let Some(row) = wanted_at(rows, 0, SETUP, 0) else {
        return Err(LoadFault::BadRow { kind: SETUP, no: 0 });
    };
    match setup_of(alloc, rows, row) {
        Ok(Some(setup)) => Ok(setup),
        Ok(None) => Err(bad_row(row)),
        Err(_) => Err(LoadFault::Memory),
    }
}

// Where the tracker stands by that part; `None` exactly where that isn't present, or breaks a rule.
fn standing_of(rows: &[Row], part: &Part) -> Option<Standing>
    ensures { MatchOption result
        ((text : List ℕ) (setup : Parts) → ¬ MayFollow rows.now (HasSetup text setup) part.now)
        (λ s. (text : List ℕ) (setup : Parts) →
        IsStanding rows.now text setup part.now s.format s.balance s.change s.moment) }
{
    let Part::Present {
        balance,
        change,
        format,
        moment,
    } = part
    else {
        return None;
    };
    if *change > count_changes(rows) as u64 {
        return None;
    }
    Some(Standing {
        format: *format,
        balance: *balance,
        change: *change,
        moment: *moment,
    })
}

// Where the tracker stands, which is read next.
fn read_present(alloc: Global, rows: &[Row], setup: &Setup) -> Result<Standing, LoadFault>
    requires { IsReadTo rows.now 1 (HasSetup setup.now.text (parts setup.now)) }
    ensures read { IfOk result (λ s.
        let made = standing setup.now.text (parts setup.now) s.balance s.change s.moment in
        IsReadTo rows.now 2 (Stands s.format 0 made)) }
    ensures fault { IfErr result (IsFault rows.now) }
{
    let Some(row) = wanted_at(rows, 1, PRESENT, 0) else {
        return Err(LoadFault::BadRow {
            kind: PRESENT,
            no: 0,
        });
    };
    let Ok(found) = own_part(alloc, rows, 1, row, setup) else {
        return Err(LoadFault::Memory);
    };
    let Some(part) = found else {
        return Err(bad_row(row));
    };
    match standing_of(rows, &part) {
        Some(standing) => Ok(standing),
        None => Err(bad_row(row)),
    }
}

/// What the first two rows tell.
pub(crate) fn begin(alloc: Global, rows: &[Row]) -> Result<Progress, LoadFault>
    requires { InOrder rows.now }
    ensures read { IfOk result (λ read. IsReadTo rows.now 2 (gathered_in read)) }
    ensures fault { IfErr result (IsFault rows.now) }
{
    let setup = read_setup(alloc, rows)?;
    let standing = read_present(alloc, rows, &setup)?;
    match Making::new(
        alloc,
        setup,
        standing.balance,
        standing.change,
        standing.moment,
    ) {
        Ok(made) => Ok(Progress {
            format: standing.format,
            told: 0,
            made,
        }),
        Err(_) => Err(LoadFault::Memory),
    }
}

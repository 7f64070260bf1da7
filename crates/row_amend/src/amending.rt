// Rows that are amended, in one commit.
ghost use Rattle.std.specs.Prelude.{◌≡◌, ◌≢◌, ◌<◌, ◌≤◌, ◌⊎◌, [], Err, length, IfOk, IfErr, OnOk, OnErr};
ghost use Rattle.std.specs.Bool.{MatchBool};
ghost use Rattle.fields.specs.SetupParts.{parts};
ghost use Rattle.request_lines.specs.Causes.{Rose};
ghost use Rattle.tracker_keeper.specs.Rows.{Rows, IsListing, with_ops};
ghost use Rattle.tracker_machine.specs.Kept.{opening_ops};
ghost use Rattle.tracker_machine.specs.Machine.{opening};
ghost use Rattle.amended_rows.specs.Amending.{ComesOf};
ghost use Rattle.row_amend.specs.Faults.{AreSmall, IsAmendFault};

use crate::fault::AmendFault;
use crate::trial::tried;
use fields::laws::keeps_what_was_read;
use fields::{Memory, Setup};
use std::alloc::Global;
use tracker_keeper::{KeepFault, Keeper, Row, RowOp};
use tracker_state::opening_ops;

/// Amends the rows of a keeper, which has told these, so that their tracker has this setup: all in one commit, and only where the rows are
/// a tracker's, and are one's then, too. Where there are none, those of a new tracker come.
pub fn amend<P: Keeper>(
    alloc: Global,
    keeper: &mut P,
    rows: Vec<Row>,
    setup: Setup,
) -> Result<(), AmendFault>
    // The rows are amended where they were those that were told, and a crash leaves just the amended ones.
    ensures done { (kept : Rows) → P.keeps keeper.old kept → IsListing kept rows.items
        → OnOk result ((after : Rows) × ComesOf setup.text (parts setup) kept after
        × P.keeps keeper.new after × P.leaves keeper.new after after) }
    // After a fault they are as before; a crash leaves what it could leave before, or the amended ones.
    ensures same { (kept : Rows) → P.keeps keeper.old kept
        → OnErr result (P.keeps keeper.new kept) }
    ensures left { (kept : Rows) → P.keeps keeper.old kept → IsListing kept rows.items
        → P.leaves keeper.old kept kept
        → OnErr result (P.leaves keeper.new kept kept
        ⊎ ((after : Rows) × ComesOf setup.text (parts setup) kept after
        × P.leaves keeper.new kept after)) }
    // A row that is told stands in the way.
    ensures fault { (kept : Rows) → IsListing kept rows.items
        → IfErr result (IsAmendFault setup.text (parts setup) kept) }
    // A keeper that is blamed has failed, its count of that never falls, and one that can't tell what it keeps can't later.
    ensures told { P.tells keeper.new → P.tells keeper.old }
    ensures cause { result ≡ Err AmendFault.Keeper
        → Rose (P.faults keeper.old) (P.faults keeper.new) }
    ensures later { P.faults keeper.old ≤ P.faults keeper.new }
{
    let ops = operations(alloc, rows, setup)?;
    match keeper.commit(&ops) {
        Ok(()) => Ok(()),
        Err(KeepFault::Failed) => Err(AmendFault::Keeper),
        Err(KeepFault::Memory) => Err(AmendFault::Memory),
    }
}

// The operations that make of these rows what is to come of them.
fn operations(alloc: Global, rows: Vec<Row>, setup: Setup) -> Result<Vec<RowOp>, AmendFault>
    ensures done { (kept : Rows) → IsListing kept rows.items → IfOk result
        (λ ops. ComesOf setup.text (parts setup) kept (with_ops ops.items kept)) }
    ensures numbers { IfOk result (λ ops. AreSmall ops.items) }
    ensures some { IfOk result (λ ops. 0 < length ops.items) }
    ensures fault { (kept : Rows) → IsListing kept rows.items
        → IfErr result (IsAmendFault setup.text (parts setup) kept) }
    ensures own { result ≢ Err AmendFault.Keeper }
{
    if has_some(&rows) {
        return tried(alloc, rows, setup);
    }
    match first_ops(alloc, &setup) {
        Ok(ops) => Ok(ops),
        Err(_) => Err(AmendFault::Memory),
    }
}

fn has_some(rows: &[Row]) -> bool
    ensures { MatchBool result (rows.now ≢ []) (rows.now ≡ []) }
{
    !rows.is_empty()
}

// The operations that keep a new tracker of the setup.
#[tactic(auto, using(crate::proofs::Opening::small_opening, crate::proofs::Opening::some_opening))]
fn first_ops(alloc: Global, setup: &Setup) -> Result<Vec<RowOp>, Memory>
    ensures ops { IfOk result (λ ops. ops.items
        ≡ opening_ops (opening setup.now.text (parts setup.now))) }
    ensures numbers { IfOk result (λ ops. AreSmall ops.items) }
    ensures some { IfOk result (λ ops. 0 < length ops.items) }
{
    keeps_what_was_read(setup);
    opening_ops(alloc, setup)
}
